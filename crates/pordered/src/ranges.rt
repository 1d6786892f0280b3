// The pairs of a range, handed over.
ghost use Rattle.std.specs.Prelude.{◌≡◌, ◌≤◌, None};
ghost use Rattle.mont_base.specs.declared.constants.TheConstants.{MOST_PAIRS};
ghost use Rattle.pordered.specs.OrderedRuns.{HasRun, HasPairAt};

use crate::pordered::POrdered;
use mont_base::{PairList, Text};
use order_index::OrderIndex;
use payload::pair_in;
use shard_map::MapShard;

impl POrdered {
    /// Gives the run of a range: the first pairs, at most so many, with a key from one to another,
    /// by rising key. It takes no memory.
    pub fn pairs(&self, from: Text, to: Text, most: u64, pairs: &mut PairList)
        requires running { self.now.region.books.halted ≡ None }
        requires most { most ≤ MOST_PAIRS }
        ensures { HasRun self.now.region from to most pairs.new }
    {
        *pairs = PairList::empty();
        let stretch = self.unit.index().stretch(from, to);
        for number in 0..stretch.len().min(most) {
            if let Some((key, value)) = pair_at(&self.unit, stretch.first + number) {
                pairs.push(key, value);
            }
        }
    }
}

// The pair whose key stands at a place among all keys.
fn pair_at(unit: &MapShard<OrderIndex>, place: u64) -> Option<(Text, Text)>
    requires running { unit.now.region.books.halted ≡ None }
    ensures { HasPairAt unit.now.region place result }
{
    let (_, slot) = unit.index().entry_at(place)?;
    let held = unit.region().find_record(slot)?;
    pair_in(&held.body)
}
