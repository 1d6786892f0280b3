// A heap of an empty store.
ghost use Rattle.std.specs.Prelude.{◌≡◌, ◌≤◌, replicate, IfOk};
ghost use Rattle.mont_base.specs.Layout.{IsLayout, units_of};
ghost use Rattle.core_steps.specs.Fresh.{fresh_words};
ghost use Rattle.heap_rule.specs.TableWords.{laid_out};
ghost use Rattle.heap.specs.FreshOpening.{fresh_opening, OpensEmpty};
ghost use Rattle.heap.specs.Opens.{Opens};

use crate::dealing::zeros;
use crate::heap::Heap;
use crate::opening::Seats;
use heap_rule::{Opening, OpeningWords};
use mont_base::{FIRST_CLOCK, Layout, Sequence};
use std::alloc::{AllocError, Global};

impl Heap {
    /// A heap of a store that was never used, and its seats: the clock is the first one, and all
    /// other words are 0.
    pub fn fresh(alloc: Global, layout: Layout, callers: u64) -> Result<(Heap, Seats), AllocError>
        requires callers { (1 ≤ callers) × (callers ≤ 8) }
        ensures opens { IfOk result (λ r. Opens (fresh_opening layout callers)
            r.0 r.1.units.items r.1.advancer r.1.callers.items) }
        ensures empty { OpensEmpty layout callers }
    {
        let words = fresh_table(alloc, layout)?;
        let opening = Opening {
            layout,
            words: OpeningWords::fresh(layout),
            callers,
        };
        Heap::opened(alloc, opening, words.as_slice())
    }
}

// The first clock twice among zeros: in the current words and in the durable ones.
fn fresh_table(alloc: Global, layout: Layout) -> Result<Sequence<u64>, AllocError>
    ensures laid { IfOk result (λ all. all ≡ laid_out (fresh_words layout) (fresh_words layout)
        (replicate (units_of layout) 0)) }
    ensures layout { IsLayout layout }
{
    let mut all = zeros(alloc, 2 * layout.words() + 8 * layout.units())?;
    all.set(0, FIRST_CLOCK);
    all.set(layout.words(), FIRST_CLOCK);
    Ok(all)
}
