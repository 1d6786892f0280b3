// Calls of queue units.
ghost use Rattle.std.specs.Prelude.{◌≡◌, Some};
ghost use Rattle.mont_base.specs.declared.kinds.UnitKind.TheVariants as kinds;
ghost use Rattle.mont_base.specs.declared.operation.Op.TheVariants as ops;
ghost use Rattle.mont_base.specs.Layout.{kind_of};
ghost use Rattle.store.specs.StoreCalls.{HasCalled};

use crate::store::Store;
use heap_pass::{HeapName, Pass};
use index_kit::Index;
use mont_base::{CallRefusal, Gate, Op, Receipt, Unit};
use std::sync::Wait;

impl<N: HeapName, I: Index> Store<N, I> {
    /// Adds an item after the last.
    #[inline]
    #[tactic(auto, using(crate::proofs::UnitOps::enq_of))]
    pub fn enq<R: Wait, G: Gate>(
        &self,
        rt: &R,
        pass: &mut Pass<G>,
        unit: Unit,
        item: u64,
    ) -> Result<Receipt, CallRefusal>
        requires pass { pass.old.ticket.table ≡ N.heap.table }
        requires kind { kind_of N.heap.opening.layout unit ≡ Some kinds.Queue }
        ensures { HasCalled self.now G.cuts G.endless pass.old pass.new (ops.Enq unit item) result }
    {
        let op = Op::Enq { unit, item };
        self.call_unit(rt, pass, unit, &op)
    }

    /// Takes the first item.
    #[inline]
    #[tactic(auto, using(crate::proofs::UnitOps::deq_of))]
    pub fn deq<R: Wait, G: Gate>(
        &self,
        rt: &R,
        pass: &mut Pass<G>,
        unit: Unit,
    ) -> Result<Receipt, CallRefusal>
        requires pass { pass.old.ticket.table ≡ N.heap.table }
        requires kind { kind_of N.heap.opening.layout unit ≡ Some kinds.Queue }
        ensures { HasCalled self.now G.cuts G.endless pass.old pass.new (ops.Deq unit) result }
    {
        let op = Op::Deq { unit };
        self.call_unit(rt, pass, unit, &op)
    }

    /// Counts the items.
    #[inline]
    #[tactic(auto, using(crate::proofs::UnitOps::len_of))]
    pub fn len<R: Wait, G: Gate>(
        &self,
        rt: &R,
        pass: &mut Pass<G>,
        unit: Unit,
    ) -> Result<Receipt, CallRefusal>
        requires pass { pass.old.ticket.table ≡ N.heap.table }
        requires kind { kind_of N.heap.opening.layout unit ≡ Some kinds.Queue }
        ensures { HasCalled self.now G.cuts G.endless pass.old pass.new (ops.Len unit) result }
    {
        let op = Op::Len { unit };
        self.call_unit(rt, pass, unit, &op)
    }
}
