// Calls of map units. The key tells which unit is called.
ghost use Rattle.std.specs.Prelude.{◌≡◌, ◌<◌, length, Some};
ghost use Rattle.mont_base.specs.declared.operation.Op.TheVariants as ops;
ghost use Rattle.mont_base.specs.Layout.{map_units, unit_of_key};
ghost use Rattle.mont_base.specs.Texts.{IsText};
ghost use Rattle.store.specs.StoreCalls.{HasCalled};

use crate::store::Store;
use heap_pass::{HeapName, Pass};
use index_kit::Index;
use mont_base::{CallRefusal, Gate, Op, Receipt, Text, Unit};
use std::sync::Wait;

impl<N: HeapName, I: Index> Store<N, I> {
    /// Sets the value of a key, and answers the one that it had.
    #[inline]
    #[tactic(auto, using(crate::proofs::UnitOps::put_of))]
    pub fn put<R: Wait, G: Gate>(
        &self,
        rt: &R,
        pass: &mut Pass<G>,
        key: Text,
        value: Text,
    ) -> Result<Receipt, CallRefusal>
        requires pass { pass.old.ticket.table ≡ N.heap.table }
        requires maps { 0 < length (map_units N.heap.opening.layout) }
        ensures { HasCalled self.now G.cuts G.endless pass.old pass.new (ops.Put key value) result }
    {
        let _value = value.len();
        let op = Op::Put { key, value };
        self.call_unit(rt, pass, self.unit_of_key(&key), &op)
    }

    /// Looks a key up.
    #[inline]
    #[tactic(auto, using(crate::proofs::UnitOps::get_of))]
    pub fn get<R: Wait, G: Gate>(
        &self,
        rt: &R,
        pass: &mut Pass<G>,
        key: Text,
    ) -> Result<Receipt, CallRefusal>
        requires pass { pass.old.ticket.table ≡ N.heap.table }
        requires maps { 0 < length (map_units N.heap.opening.layout) }
        ensures { HasCalled self.now G.cuts G.endless pass.old pass.new (ops.Get key) result }
    {
        let op = Op::Get { key };
        self.call_unit(rt, pass, self.unit_of_key(&key), &op)
    }

    /// Removes a key, and answers the value that it had.
    #[inline]
    #[tactic(auto, using(crate::proofs::UnitOps::del_of))]
    pub fn del<R: Wait, G: Gate>(
        &self,
        rt: &R,
        pass: &mut Pass<G>,
        key: Text,
    ) -> Result<Receipt, CallRefusal>
        requires pass { pass.old.ticket.table ≡ N.heap.table }
        requires maps { 0 < length (map_units N.heap.opening.layout) }
        ensures { HasCalled self.now G.cuts G.endless pass.old pass.new (ops.Del key) result }
    {
        let op = Op::Del { key };
        self.call_unit(rt, pass, self.unit_of_key(&key), &op)
    }

    // The map unit that keeps a key.
    fn unit_of_key(&self, key: &Text) -> Unit
        requires { 0 < length (map_units N.heap.opening.layout) }
        ensures unit { unit_of_key N.heap.opening.layout key.now ≡ Some result }
        ensures text { IsText key.now }
    {
        let _key = key.len();
        self.heap.layout().unit_of_key(key)
    }
}
