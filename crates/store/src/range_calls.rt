// A call of an ordered unit that hands pairs over.
ghost use Rattle.std.specs.Prelude.{◌≡◌, ◌≤◌, Some, IfOk, OnErr};
ghost use Rattle.mont_base.specs.declared.constants.TheConstants.{MOST_PAIRS};
ghost use Rattle.mont_base.specs.declared.kinds.UnitKind.TheVariants as kinds;
ghost use Rattle.mont_base.specs.declared.operation.Op.TheVariants as ops;
ghost use Rattle.mont_base.specs.Layout.{kind_of};
ghost use Rattle.mont_laws.specs.Effects.{IsOpOf};
ghost use Rattle.store.specs.StoreCalls.{HasCalled, HandsRun, IsRange};
ghost use Rattle.store.specs.StoreShown.{OfAnyBase};

use crate::store::Store;
use crate::unit_at::UnitAt;
use heap::Heap;
use heap_pass::{HeapName, Pass, last_receipt};
use index_kit::Index;
use mont_base::{CallRefusal, Gate, Op, PairList, Receipt, Text, Unit};
use std::sync::{Mutex, Wait};

impl<N: HeapName, I: Index> Store<N, I> {
    /// Gives the first pairs, at most so many, whose keys are not below one text and not above
    /// another, by rising key, and answers how many they are. A refusal leaves the list as it was.
    #[tactic(auto, using(crate::proofs::UnitOps::orange_of))]
    pub fn orange<R: Wait, G: Gate>(
        &self,
        rt: &R,
        pass: &mut Pass<G>,
        unit: Unit,
        from: Text,
        to: Text,
        most: u64,
        pairs: &mut PairList,
    ) -> Result<Receipt, CallRefusal>
        requires pass { pass.old.ticket.table ≡ N.heap.table }
        requires kind { kind_of N.heap.opening.layout unit ≡ Some kinds.Ordered }
        requires most { (1 ≤ most) × (most ≤ MOST_PAIRS) }
        ensures called { HasCalled self.now G.cuts G.endless pass.old pass.new
            (ops.ORange unit from to most) result }
        ensures pairs { IfOk result (λ receipt. HandsRun self.now pass.new.ticket receipt
            pairs.new) }
        ensures kept { OnErr result (pairs.new ≡ pairs.old) }
    {
        let op = Op::ORange {
            unit,
            from,
            to,
            most,
        };
        self.call_range(rt, pass, unit, &op, pairs)
    }

    // Carries a range of the unit out and hands its pairs over.
    fn call_range<R: Wait, G: Gate>(
        &self,
        rt: &R,
        pass: &mut Pass<G>,
        unit: Unit,
        op: &Op,
        pairs: &mut PairList,
    ) -> Result<Receipt, CallRefusal>
        requires pass { pass.old.ticket.table ≡ N.heap.table }
        requires op { IsOpOf N.heap.opening.layout unit op.now }
        requires range { IsRange op.now }
        ensures called { HasCalled self.now G.cuts G.endless pass.old pass.new op.now result }
        ensures pairs { IfOk result (λ receipt. HandsRun self.now pass.new.ticket receipt
            pairs.new) }
        ensures kept { OnErr result (pairs.new ≡ pairs.old) }
    {
        let _heap = self.heap();
        self.range_locked(rt, pass, unit, op, pairs)
    }

    // Carries a range of the unit out and hands its pairs over, under the unit's lock.
    fn range_locked<R: Wait, G: Gate>(
        &self,
        rt: &R,
        pass: &mut Pass<G>,
        unit: Unit,
        op: &Op,
        pairs: &mut PairList,
    ) -> Result<Receipt, CallRefusal>
        requires pass { pass.old.ticket.table ≡ N.heap.table }
        requires op { IsOpOf N.heap.opening.layout unit op.now }
        requires range { IsRange op.now }
        ensures called { OfAnyBase N.heap (λ store. HasCalled store G.cuts G.endless pass.old
            pass.new op.now result) }
        ensures pairs { OfAnyBase N.heap (λ store. IfOk result (λ receipt. HandsRun store
            pass.new.ticket receipt pairs.new)) }
        ensures kept { OnErr result (pairs.new ≡ pairs.old) }
    {
        let heap = &self.heap;
        match self.lock_of(unit, op) {
            0 => range_at(rt, heap, &self.unit_0.part, pass, unit, op, pairs),
            1 => range_at(rt, heap, &self.unit_1.part, pass, unit, op, pairs),
            2 => range_at(rt, heap, &self.unit_2.part, pass, unit, op, pairs),
            3 => range_at(rt, heap, &self.unit_3.part, pass, unit, op, pairs),
            4 => range_at(rt, heap, &self.unit_4.part, pass, unit, op, pairs),
            5 => range_at(rt, heap, &self.unit_5.part, pass, unit, op, pairs),
            6 => range_at(rt, heap, &self.unit_6.part, pass, unit, op, pairs),
            7 => range_at(rt, heap, &self.unit_7.part, pass, unit, op, pairs),
            8 => range_at(rt, heap, &self.unit_8.part, pass, unit, op, pairs),
            9 => range_at(rt, heap, &self.unit_9.part, pass, unit, op, pairs),
            10 => range_at(rt, heap, &self.unit_10.part, pass, unit, op, pairs),
            11 => range_at(rt, heap, &self.unit_11.part, pass, unit, op, pairs),
            12 => range_at(rt, heap, &self.unit_12.part, pass, unit, op, pairs),
            13 => range_at(rt, heap, &self.unit_13.part, pass, unit, op, pairs),
            14 => range_at(rt, heap, &self.unit_14.part, pass, unit, op, pairs),
            15 => range_at(rt, heap, &self.unit_15.part, pass, unit, op, pairs),
            _ => unreachable!(),
        }
    }
}

// Carries a range of the unit with this number out and hands its pairs over, under its lock. The
// receipt is copied from the pass after it.
fn range_at<const UNIT: u64, R: Wait, N: HeapName, I: Index, G: Gate>(
    rt: &R,
    heap: &Heap,
    lock: &Mutex<UnitAt<UNIT, N, I>>,
    pass: &mut Pass<G>,
    unit: Unit,
    op: &Op,
    pairs: &mut PairList,
) -> Result<Receipt, CallRefusal>
    requires heap { heap.now ≡ N.heap }
    requires pass { pass.old.ticket.table ≡ N.heap.table }
    requires unit { unit ≡ UNIT }
    requires op { IsOpOf N.heap.opening.layout unit op.now }
    requires range { IsRange op.now }
    ensures called { OfAnyBase N.heap (λ store. HasCalled store G.cuts G.endless pass.old pass.new
        op.now result) }
    ensures pairs { OfAnyBase N.heap (λ store. IfOk result (λ receipt. HandsRun store
        pass.new.ticket receipt pairs.new)) }
    ensures kept { OnErr result (pairs.new ≡ pairs.old) }
{
    let _unit = unit;
    lock.lock(rt).range(rt, heap, pass, op, pairs)?;
    Ok(last_receipt(&pass.receipts))
}
