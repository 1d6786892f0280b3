// The two locks of a shift, that of the lower unit first. No other call holds two.
ghost use Rattle.std.specs.Prelude.{◌≡◌, ◌<◌};
ghost use Rattle.mont_base.specs.Layout.{units_of};
ghost use Rattle.store.specs.Shifting.{AreOfTwoUnits, HasTriedShift};
ghost use Rattle.store.specs.StoreShown.{OfAnyBase};
ghost use Rattle.store.specs.UnitAt.{StandsAt, region_of};

use crate::shifting::Shift;
use crate::store::Store;
use crate::unit_at::UnitAt;
use crate::unit_structure::Structure;
use heap::Heap;
use heap_pass::{HeapName, Pass};
use index_kit::Index;
use mont_base::{Gate, Receipt, Unit};
use shard_map::ShiftRefusal;
use std::sync::{Mutex, Wait};

impl<N: HeapName, I: Index> Store<N, I> {
    // Shifts between two units, under the lower one's lock and then the higher one's.
    pub(crate) fn with_low<R: Wait, G: Gate>(
        &self,
        rt: &R,
        pass: &mut Pass<G>,
        low: Unit,
        high: Unit,
        by: &Shift,
    ) -> Result<(Receipt, Receipt), ShiftRefusal>
        requires pass { pass.old.ticket.table ≡ N.heap.table }
        requires units { AreOfTwoUnits N.heap.opening.layout by.now.from by.now.to by.now.up low
            high }
        ensures { OfAnyBase N.heap (λ store. HasTriedShift store G.cuts G.endless pass.old
            pass.new by.now.from by.now.to by.now.amount result) }
    {
        match self.number_of_lock(low) {
            0 => at_low(rt, self, &self.unit_0.part, pass, low, high, by),
            1 => at_low(rt, self, &self.unit_1.part, pass, low, high, by),
            2 => at_low(rt, self, &self.unit_2.part, pass, low, high, by),
            3 => at_low(rt, self, &self.unit_3.part, pass, low, high, by),
            4 => at_low(rt, self, &self.unit_4.part, pass, low, high, by),
            5 => at_low(rt, self, &self.unit_5.part, pass, low, high, by),
            6 => at_low(rt, self, &self.unit_6.part, pass, low, high, by),
            7 => at_low(rt, self, &self.unit_7.part, pass, low, high, by),
            8 => at_low(rt, self, &self.unit_8.part, pass, low, high, by),
            9 => at_low(rt, self, &self.unit_9.part, pass, low, high, by),
            10 => at_low(rt, self, &self.unit_10.part, pass, low, high, by),
            11 => at_low(rt, self, &self.unit_11.part, pass, low, high, by),
            12 => at_low(rt, self, &self.unit_12.part, pass, low, high, by),
            13 => at_low(rt, self, &self.unit_13.part, pass, low, high, by),
            14 => at_low(rt, self, &self.unit_14.part, pass, low, high, by),
            15 => at_low(rt, self, &self.unit_15.part, pass, low, high, by),
            _ => unreachable!(),
        }
    }

    // Shifts between the structure of the lower unit and the higher unit, under the latter's lock.
    pub(crate) fn with_high<R: Wait, G: Gate>(
        &self,
        rt: &R,
        low: &mut Structure<I>,
        pass: &mut Pass<G>,
        high: Unit,
        by: &Shift,
    ) -> Result<(Receipt, Receipt), ShiftRefusal>
        requires low { StandsAt N.heap (region_of low.old).books.unit low.old }
        requires pass { pass.old.ticket.table ≡ N.heap.table }
        requires units { AreOfTwoUnits N.heap.opening.layout by.now.from by.now.to by.now.up
            (region_of low.old).books.unit high }
        ensures low { StandsAt N.heap (region_of low.old).books.unit low.new }
        ensures tried { OfAnyBase N.heap (λ store. HasTriedShift store G.cuts G.endless pass.old
            pass.new by.now.from by.now.to by.now.amount result) }
    {
        let heap = &self.heap;
        match self.number_of_lock(high) {
            0 => at_high(rt, heap, &self.unit_0.part, low, pass, high, by),
            1 => at_high(rt, heap, &self.unit_1.part, low, pass, high, by),
            2 => at_high(rt, heap, &self.unit_2.part, low, pass, high, by),
            3 => at_high(rt, heap, &self.unit_3.part, low, pass, high, by),
            4 => at_high(rt, heap, &self.unit_4.part, low, pass, high, by),
            5 => at_high(rt, heap, &self.unit_5.part, low, pass, high, by),
            6 => at_high(rt, heap, &self.unit_6.part, low, pass, high, by),
            7 => at_high(rt, heap, &self.unit_7.part, low, pass, high, by),
            8 => at_high(rt, heap, &self.unit_8.part, low, pass, high, by),
            9 => at_high(rt, heap, &self.unit_9.part, low, pass, high, by),
            10 => at_high(rt, heap, &self.unit_10.part, low, pass, high, by),
            11 => at_high(rt, heap, &self.unit_11.part, low, pass, high, by),
            12 => at_high(rt, heap, &self.unit_12.part, low, pass, high, by),
            13 => at_high(rt, heap, &self.unit_13.part, low, pass, high, by),
            14 => at_high(rt, heap, &self.unit_14.part, low, pass, high, by),
            15 => at_high(rt, heap, &self.unit_15.part, low, pass, high, by),
            _ => unreachable!(),
        }
    }

    // The number of a unit's lock. There is one for each number that a unit may have.
    fn number_of_lock(&self, unit: Unit) -> u64
        requires { unit < units_of N.heap.opening.layout }
        ensures same { result ≡ unit }
        ensures few { result < 16 }
    {
        let _units = self.heap.layout().units();
        unit
    }
}

// Shifts from or to the unit with this number, which is the lower one, under its lock and then that
// of the higher one.
fn at_low<const UNIT: u64, R: Wait, N: HeapName, I: Index, G: Gate>(
    rt: &R,
    store: &Store<N, I>,
    lock: &Mutex<UnitAt<UNIT, N, I>>,
    pass: &mut Pass<G>,
    low: Unit,
    high: Unit,
    by: &Shift,
) -> Result<(Receipt, Receipt), ShiftRefusal>
    requires pass { pass.old.ticket.table ≡ N.heap.table }
    requires unit { low ≡ UNIT }
    requires units { AreOfTwoUnits N.heap.opening.layout by.now.from by.now.to by.now.up low high }
    ensures { OfAnyBase N.heap (λ store. HasTriedShift store G.cuts G.endless pass.old
        pass.new by.now.from by.now.to by.now.amount result) }
{
    let _unit = low;
    lock.lock(rt).shift_as_low(rt, store, pass, high, by)
}

// Shifts between the structure of the lower unit and the unit with this number, under its lock.
fn at_high<const UNIT: u64, R: Wait, N: HeapName, I: Index, G: Gate>(
    rt: &R,
    heap: &Heap,
    lock: &Mutex<UnitAt<UNIT, N, I>>,
    low: &mut Structure<I>,
    pass: &mut Pass<G>,
    high: Unit,
    by: &Shift,
) -> Result<(Receipt, Receipt), ShiftRefusal>
    requires heap { heap.now ≡ N.heap }
    requires low { StandsAt N.heap (region_of low.old).books.unit low.old }
    requires pass { pass.old.ticket.table ≡ N.heap.table }
    requires unit { high ≡ UNIT }
    requires units { AreOfTwoUnits N.heap.opening.layout by.now.from by.now.to by.now.up
        (region_of low.old).books.unit high }
    ensures low { StandsAt N.heap (region_of low.old).books.unit low.new }
    ensures tried { OfAnyBase N.heap (λ store. HasTriedShift store G.cuts G.endless pass.old
        pass.new by.now.from by.now.to by.now.amount result) }
{
    let _unit = high;
    lock.lock(rt).shift_as_high(rt, heap, low, pass, by)
}
