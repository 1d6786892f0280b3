// The end of a store.
ghost use Rattle.std.specs.Prelude.{◌≡◌, All, map, IfOk};
ghost use Rattle.heap_pass.specs.Kept.{IsWhole};
ghost use Rattle.plain.specs.States.{states_of};
ghost use Rattle.store_stop.specs.Headline.{IsBaseOf, IsStopped};
ghost use Rattle.store.specs.Store.{AreAllCallers};

use crate::store::Store;
use crate::store_closing::Unlocked;
use heap_pass::{HeapName, Pass};
use index_kit::Index;
use mont_base::Gate;
use std::alloc::{AllocError, Global};
use store_stop::{Stopped, stop_store};

impl<N: HeapName, I: Index> Store<N, I> {
    /// Stops the store, which gives its words, what it opened with, and the history of each unit.
    /// The passes are those of all callers, by their numbers, and none has forgotten a receipt.
    ///
    /// Whatever the callers did until then, and wherever they were cut: every image that a crash
    /// permits of these words holds one cut of these histories, with all that a caller knew to be
    /// durable. After want of memory the store is gone.
    pub fn stop<G: Gate + Drop>(
        self,
        alloc: Global,
        passes: Vec<Pass<G>>,
    ) -> Result<Stopped, AllocError>
        requires passes { AreAllCallers N.heap (map (λ p. p.ticket) passes.items) }
        requires whole { All (λ p. IsWhole p.ticket p.receipts.items) passes.items }
        ensures base { IfOk result (λ stopped. IsBaseOf N.heap.opening stopped.base_clock
            (states_of stopped.base)) }
        ensures opened { IfOk result (λ stopped. states_of stopped.base ≡ self.base) }
        ensures stopped { IfOk result (λ stopped. IsStopped N.heap.opening.layout
            stopped.base_clock stopped.base (map (λ p. p.ticket) passes.items) stopped) }
    {
        let units = self.heap.layout().units();
        let seats = Vec::with_capacity(alloc, units as usize)?;
        let Unlocked {
            heap,
            units,
            advancer,
            base_clock,
            base,
        } = self.unlock(seats);
        stop_store(alloc, heap, units, advancer, passes, base_clock, base)
    }
}
