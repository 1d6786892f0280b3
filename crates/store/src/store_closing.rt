// The end of a store whose words alone are taken.
ghost use Rattle.std.specs.Prelude.{◌≡◌, ◌+◌, ◌≤◌, [], map, vec_capacity, IfOk};
ghost use Rattle.mont_base.specs.declared.constants.TheConstants.{MOST_UNITS};
ghost use Rattle.mont_base.specs.Layout.{units_of};
ghost use Rattle.plain.specs.States.{states_of};
ghost use Rattle.store_stop.specs.ClosedStores.{IsClosedOn};
ghost use Rattle.store.specs.StoreClosing.{HasBase, IsUnlocked};
ghost use Rattle.store.specs.SeatsBack.{AreSeatsBelow};
ghost use Rattle.store.specs.Store.{AreAllCallers};

use crate::store::Store;
use crate::unit_at::UnitAt;
use heap::{AdvSeat, Heap, UnitSeat};
use heap_pass::{HeapName, Pass};
use index_kit::Index;
use mont_base::{Epoch, Gate, Words};
use plain::Contents;
use std::alloc::{AllocError, Global};
use std::sync::Mutex;
use store_stop::close_store;

// What a store kept, out of its locks.
#[derive(Drop)]
pub(crate) struct Unlocked {
    pub(crate) heap: Heap,
    pub(crate) units: Vec<UnitSeat>,
    pub(crate) advancer: AdvSeat,
    pub(crate) base_clock: Epoch,
    pub(crate) base: Contents,
}

impl<N: HeapName, I: Index> Store<N, I> {
    /// Closes the store, which gives its words alone. The passes are those of all callers, by their
    /// numbers, and each may have forgotten receipts (`Pass::forget`).
    ///
    /// It promises what `stop` does, of the histories that the tickets tell, which are kept
    /// nowhere: so it needs memory for the words, the units and the callers, and for no call. After
    /// want of memory the store is gone.
    pub fn close<G: Gate + Drop>(
        self,
        alloc: Global,
        passes: Vec<Pass<G>>,
    ) -> Result<Words, AllocError>
        requires passes { AreAllCallers N.heap (map (λ p. p.ticket) passes.items) }
        ensures base { HasBase N.heap.opening }
        ensures closed { IfOk result (IsClosedOn N.heap.opening
            (map (λ p. p.ticket) passes.items)) }
    {
        let units = self.heap.layout().units();
        let seats = Vec::with_capacity(alloc, units as usize)?;
        let Unlocked {
            heap,
            units,
            advancer,
            base_clock: _,
            base: _,
        } = self.unlock(seats);
        close_store(alloc, heap, units, advancer, passes)
    }

    // Takes all that it kept out of its locks, where there is room for the seats of its units.
    pub(crate) fn unlock(self, mut seats: Vec<UnitSeat>) -> Unlocked
        requires few { units_of N.heap.opening.layout ≤ MOST_UNITS }
        requires room { units_of N.heap.opening.layout ≤ vec_capacity seats }
        requires none { seats.items ≡ [] }
        ensures unlocked { IsUnlocked N.heap result }
        ensures base { states_of result.base ≡ self.base }
    {
        give_seat(self.unit_0.into_part(), &mut seats);
        give_seat(self.unit_1.into_part(), &mut seats);
        give_seat(self.unit_2.into_part(), &mut seats);
        give_seat(self.unit_3.into_part(), &mut seats);
        give_seat(self.unit_4.into_part(), &mut seats);
        give_seat(self.unit_5.into_part(), &mut seats);
        give_seat(self.unit_6.into_part(), &mut seats);
        give_seat(self.unit_7.into_part(), &mut seats);
        give_seat(self.unit_8.into_part(), &mut seats);
        give_seat(self.unit_9.into_part(), &mut seats);
        give_seat(self.unit_10.into_part(), &mut seats);
        give_seat(self.unit_11.into_part(), &mut seats);
        give_seat(self.unit_12.into_part(), &mut seats);
        give_seat(self.unit_13.into_part(), &mut seats);
        give_seat(self.unit_14.into_part(), &mut seats);
        give_seat(self.unit_15.into_part(), &mut seats);
        Unlocked {
            heap: self.heap,
            units: seats,
            advancer: self.advancer.into_inner().into_part().into_seat(),
            base_clock: self.base_clock.into_part(),
            base: self.base,
        }
    }
}

// Gives the seat of the unit with this number out of its lock, if there is such a unit. There is
// room for all seats.
fn give_seat<const UNIT: u64, N: HeapName, I: Index>(
    lock: Mutex<UnitAt<UNIT, N, I>>,
    seats: &mut Vec<UnitSeat>,
)
    requires seats { AreSeatsBelow N.heap UNIT seats.old.items }
    requires room { units_of N.heap.opening.layout ≤ vec_capacity seats.old }
    ensures seats { AreSeatsBelow N.heap (UNIT + 1) seats.new.items }
    ensures room { units_of N.heap.opening.layout ≤ vec_capacity seats.new }
{
    if let Some(structure) = lock.into_inner().into_structure() {
        let structure = Box::into_inner(structure);
        seats.push_reserved(structure.into_region().into_seat());
    }
}
