// The hash of a key, and what it chooses: the cell in which a search for the key begins, and its
// mark.
ghost use Rattle.std.specs.Prelude.{◌≡◌, ◌+◌, ◌*◌, ◌%◌, ◌^◌, ◌<◌, ◌≤◌};
ghost use Rattle.index_kit.specs.Home.{hash_of, home_of, mark_of};

use crate::cells::HELD;
use mont_base::Text;

// One for each word of a text: odd numbers without a pattern, and 1 for its length, by which alone
// few keys differ.
const WEIGHTS: [u64; 4] = [
    1,
    0x9e37_79b9_7f4a_7c15,
    0xc2b2_ae3d_27d4_eb4f,
    0x1656_67b1_9e37_79f9,
];

// The home of a key among so many cells, and its mark, by which most other keys are told from it.
// The high bits of the hash choose the home, which depend on all bits of the words, so texts of
// digits spread as well as long ones.
pub(crate) fn home_and_mark(cells: usize, key: Text) -> (usize, u8)
    requires { 0 < cells }
    ensures home { result.0 ≡ home_of cells key }
    ensures within { result.0 < cells }
    ensures mark { result.1 ≡ mark_of key }
    ensures held { HELD ≤ result.1 }
{
    let hash = hash(key);
    let home = (u128::from(hash) * cells as u128) >> 64;
    let mark = HELD + ((hash >> 32) % u64::from(HELD)) as u8;
    (home as usize, mark)
}

fn hash(key: Text) -> u64
    ensures { result ≡ hash_of key }
{
    let [len, first, second, third] = key.words();
    let [len_weight, first_weight, second_weight, third_weight] = WEIGHTS;
    let sum = add_weighed(0, len, len_weight);
    let sum = add_weighed(sum, first, first_weight);
    let sum = add_weighed(sum, second, second_weight);
    add_weighed(sum, third, third_weight)
}

fn add_weighed(sum: u64, word: u64, weight: u64) -> u64
    ensures { result ≡ (sum + word * weight) % 2 ^ 64 }
{
    sum.wrapping_add(word.wrapping_mul(weight))
}
