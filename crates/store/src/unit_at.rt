// What stands behind the lock of a unit: its structure.
ghost use Rattle.std.specs.Prelude.{◌≡◌, Ok, Err, OnOk, IfErr, OnErr};
ghost use Rattle.mont_laws.specs.Effects.{IsOpOf};
ghost use Rattle.heap_pass.specs.KeptReceipt.{KeepsReceipt};
ghost use Rattle.store.specs.Shifting.{AreOfTwoUnits, HasTriedShift};
ghost use Rattle.store.specs.StoreCalls.{HasCalled, HandsRun, IsRange};
ghost use Rattle.store.specs.StoreShown.{OfAnyBase};
ghost use Rattle.store.specs.UnitAt.{FitsNumber, FitsNumber-prop, StandsAt, region_of};

use crate::shifting::{Shift, shift_between};
use crate::store::Store;
use crate::unit_structure::Structure;
use heap::Heap;
use heap_pass::{HeapName, Pass};
use index_kit::Index;
use mont_base::{CallRefusal, Gate, Op, PairList, Receipt, Unit};
use shard_map::ShiftRefusal;
use std::marker::PhantomData;
use std::sync::Wait;

// What stands behind the lock of this unit number: the structure of that unit of the heap which N
// names, or nothing where the heap has fewer units.
#[derive(Drop)]
pub(crate) struct UnitAt<const UNIT: u64, N: HeapName, I: Index> {
    pub(crate) structure: Option<Box<Structure<I>>>,
    of: PhantomData<N>,
    ghost fits: { FitsNumber N.heap UNIT structure } by { FitsNumber-prop N.heap UNIT structure },
}

impl<const UNIT: u64, N: HeapName, I: Index> UnitAt<UNIT, N, I> {
    // The unit under its number and the name of its heap.
    pub(crate) fn new(structure: Option<Box<Structure<I>>>) -> UnitAt<UNIT, N, I>
        requires { FitsNumber N.heap UNIT structure }
        ensures { result.structure ≡ structure }
    {
        UnitAt {
            structure,
            of: PhantomData,
        }
    }

    // Gives the structure back.
    pub(crate) fn into_structure(self) -> Option<Box<Structure<I>>>
        ensures { FitsNumber N.heap UNIT result }
    {
        let UnitAt { structure, of: _ } = self;
        structure
    }

    // Carries an operation of the unit out, and keeps the receipt in the pass.
    pub(crate) fn perform<R: Wait, G: Gate>(
        &mut self,
        rt: &R,
        heap: &Heap,
        pass: &mut Pass<G>,
        op: &Op,
    ) -> Result<(), CallRefusal>
        requires heap { heap.now ≡ N.heap }
        requires pass { pass.old.ticket.table ≡ heap.now.table }
        requires op { IsOpOf heap.now.opening.layout UNIT op.now }
        ensures answered { OnOk result (KeepsReceipt pass.old.receipts.items
            pass.new.receipts.items (λ receipt. OfAnyBase heap.now (λ store. HasCalled store
            G.cuts G.endless pass.old pass.new op.now (Ok receipt)))) }
        ensures refused { IfErr result (λ why. OfAnyBase heap.now (λ store. HasCalled store
            G.cuts G.endless pass.old pass.new op.now (Err why))) }
    {
        let Some(structure) = &mut self.structure else {
            unreachable!()
        };
        structure.perform(rt, heap, pass, op)
    }

    // Carries a range of the unit out, keeps the receipt in the pass, and hands over the pairs that
    // its entry counts.
    pub(crate) fn range<R: Wait, G: Gate>(
        &mut self,
        rt: &R,
        heap: &Heap,
        pass: &mut Pass<G>,
        op: &Op,
        pairs: &mut PairList,
    ) -> Result<(), CallRefusal>
        requires heap { heap.now ≡ N.heap }
        requires pass { pass.old.ticket.table ≡ heap.now.table }
        requires op { IsOpOf heap.now.opening.layout UNIT op.now }
        requires range { IsRange op.now }
        ensures answered { OnOk result (KeepsReceipt pass.old.receipts.items
            pass.new.receipts.items (λ receipt. OfAnyBase heap.now (λ store. HasCalled store
            G.cuts G.endless pass.old pass.new op.now (Ok receipt) × HandsRun store
            pass.new.ticket receipt pairs.new))) }
        ensures refused { IfErr result (λ why. OfAnyBase heap.now (λ store. HasCalled store
            G.cuts G.endless pass.old pass.new op.now (Err why))) }
        ensures kept { OnErr result (pairs.new ≡ pairs.old) }
    {
        let Some(boxed) = &mut self.structure else {
            unreachable!()
        };
        let structure = &mut **boxed;
        structure.perform(rt, heap, pass, op)?;
        structure.pairs(op, pairs);
        Ok(())
    }

    // Shifts between this unit, which is the lower one, and another, under that one's lock.
    pub(crate) fn shift_as_low<R: Wait, G: Gate>(
        &mut self,
        rt: &R,
        store: &Store<N, I>,
        pass: &mut Pass<G>,
        high: Unit,
        by: &Shift,
    ) -> Result<(Receipt, Receipt), ShiftRefusal>
        requires pass { pass.old.ticket.table ≡ N.heap.table }
        requires units { AreOfTwoUnits N.heap.opening.layout by.now.from by.now.to by.now.up UNIT
            high }
        ensures { OfAnyBase N.heap (λ store. HasTriedShift store G.cuts G.endless pass.old
            pass.new by.now.from by.now.to by.now.amount result) }
    {
        let Some(structure) = &mut self.structure else {
            unreachable!()
        };
        store.with_high(rt, structure, pass, high, by)
    }

    // Shifts between the structure of a lower unit and this one.
    pub(crate) fn shift_as_high<R: Wait, G: Gate>(
        &mut self,
        rt: &R,
        heap: &Heap,
        low: &mut Structure<I>,
        pass: &mut Pass<G>,
        by: &Shift,
    ) -> Result<(Receipt, Receipt), ShiftRefusal>
        requires heap { heap.now ≡ N.heap }
        requires low { StandsAt N.heap (region_of low.old).books.unit low.old }
        requires pass { pass.old.ticket.table ≡ N.heap.table }
        requires units { AreOfTwoUnits N.heap.opening.layout by.now.from by.now.to by.now.up
            (region_of low.old).books.unit UNIT }
        ensures low { StandsAt N.heap (region_of low.old).books.unit low.new }
        ensures tried { OfAnyBase N.heap (λ store. HasTriedShift store G.cuts G.endless pass.old
            pass.new by.now.from by.now.to by.now.amount result) }
    {
        let Some(structure) = &mut self.structure else {
            unreachable!()
        };
        shift_between(rt, heap, low, structure, pass, by)
    }
}
