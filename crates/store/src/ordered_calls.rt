// Calls of ordered units on a key.
ghost use Rattle.std.specs.Prelude.{◌≡◌, Some};
ghost use Rattle.mont_base.specs.declared.kinds.UnitKind.TheVariants as kinds;
ghost use Rattle.mont_base.specs.declared.operation.Op.TheVariants as ops;
ghost use Rattle.mont_base.specs.Layout.{kind_of};
ghost use Rattle.store.specs.StoreCalls.{HasCalled};

use crate::store::Store;
use heap_pass::{HeapName, Pass};
use index_kit::Index;
use mont_base::{CallRefusal, Gate, Op, Receipt, Text, Unit};
use std::sync::Wait;

impl<N: HeapName, I: Index> Store<N, I> {
    /// Sets the value of a key, and answers the one that it had.
    #[inline]
    #[tactic(auto, using(crate::proofs::UnitOps::oput_of))]
    pub fn oput<R: Wait, G: Gate>(
        &self,
        rt: &R,
        pass: &mut Pass<G>,
        unit: Unit,
        key: Text,
        value: Text,
    ) -> Result<Receipt, CallRefusal>
        requires pass { pass.old.ticket.table ≡ N.heap.table }
        requires kind { kind_of N.heap.opening.layout unit ≡ Some kinds.Ordered }
        ensures { HasCalled self.now G.cuts G.endless pass.old pass.new
            (ops.OPut unit key value) result }
    {
        let _texts = (key.len(), value.len());
        let op = Op::OPut { unit, key, value };
        self.call_unit(rt, pass, unit, &op)
    }

    /// Looks a key up.
    #[inline]
    #[tactic(auto, using(crate::proofs::UnitOps::oget_of))]
    pub fn oget<R: Wait, G: Gate>(
        &self,
        rt: &R,
        pass: &mut Pass<G>,
        unit: Unit,
        key: Text,
    ) -> Result<Receipt, CallRefusal>
        requires pass { pass.old.ticket.table ≡ N.heap.table }
        requires kind { kind_of N.heap.opening.layout unit ≡ Some kinds.Ordered }
        ensures { HasCalled self.now G.cuts G.endless pass.old pass.new (ops.OGet unit key) result }
    {
        let op = Op::OGet { unit, key };
        self.call_unit(rt, pass, unit, &op)
    }

    /// Removes a key, and answers the value that it had.
    #[inline]
    #[tactic(auto, using(crate::proofs::UnitOps::odel_of))]
    pub fn odel<R: Wait, G: Gate>(
        &self,
        rt: &R,
        pass: &mut Pass<G>,
        unit: Unit,
        key: Text,
    ) -> Result<Receipt, CallRefusal>
        requires pass { pass.old.ticket.table ≡ N.heap.table }
        requires kind { kind_of N.heap.opening.layout unit ≡ Some kinds.Ordered }
        ensures { HasCalled self.now G.cuts G.endless pass.old pass.new (ops.ODel unit key) result }
    {
        let op = Op::ODel { unit, key };
        self.call_unit(rt, pass, unit, &op)
    }

    /// Answers the greatest key that isn't above this one.
    #[inline]
    #[tactic(auto, using(crate::proofs::UnitOps::ofloor_of))]
    pub fn ofloor<R: Wait, G: Gate>(
        &self,
        rt: &R,
        pass: &mut Pass<G>,
        unit: Unit,
        key: Text,
    ) -> Result<Receipt, CallRefusal>
        requires pass { pass.old.ticket.table ≡ N.heap.table }
        requires kind { kind_of N.heap.opening.layout unit ≡ Some kinds.Ordered }
        ensures { HasCalled self.now G.cuts G.endless pass.old pass.new
            (ops.OFloor unit key) result }
    {
        let op = Op::OFloor { unit, key };
        self.call_unit(rt, pass, unit, &op)
    }

    /// Counts the keys below this one.
    #[inline]
    #[tactic(auto, using(crate::proofs::UnitOps::orank_of))]
    pub fn orank<R: Wait, G: Gate>(
        &self,
        rt: &R,
        pass: &mut Pass<G>,
        unit: Unit,
        key: Text,
    ) -> Result<Receipt, CallRefusal>
        requires pass { pass.old.ticket.table ≡ N.heap.table }
        requires kind { kind_of N.heap.opening.layout unit ≡ Some kinds.Ordered }
        ensures { HasCalled self.now G.cuts G.endless pass.old pass.new
            (ops.ORank unit key) result }
    {
        let op = Op::ORank { unit, key };
        self.call_unit(rt, pass, unit, &op)
    }
}
