// The words of a caller, as in the generated job.
ghost use Rattle.std.specs.Prelude.{◌≡◌};
ghost use Rattle.big_job.specs.CallerWords.{first_word, next_word};

const FACTOR: u64 = 6_364_136_223_846_793_005;

const SHIFT: u64 = 1_442_695_040_888_963_407;

// Where the words of a caller begin in the bank of a number.
pub(crate) fn first_word(number: u64, caller: u64) -> u64
    ensures { result ≡ first_word number caller }
{
    number.wrapping_mul(4).wrapping_add(caller)
}

pub(crate) fn next_word(word: u64) -> u64
    ensures { result ≡ next_word word }
{
    word.wrapping_mul(FACTOR).wrapping_add(SHIFT)
}
