// Any operation, as it stands in a job or in a log of a caller's own.
ghost use Rattle.std.specs.Prelude.{◌≡◌, IsSome};
ghost use Rattle.mont_base.specs.State.{unit_of_op};
ghost use Rattle.mont_laws.specs.Effects.{CarriesTexts, IsOpOf};
ghost use Rattle.store.specs.StoreCalls.{HasCalled};

use crate::store::Store;
use heap_pass::{HeapName, Pass};
use index_kit::Index;
use mont_base::{CallRefusal, Gate, Op, Receipt, Unit};
use std::sync::Wait;

impl<N: HeapName, I: Index> Store<N, I> {
    /// Carries an operation of a unit of the store out. Of a range it answers how many pairs there
    /// are; `orange` hands them over.
    #[inline(always)]
    pub fn apply<R: Wait, G: Gate>(
        &self,
        rt: &R,
        pass: &mut Pass<G>,
        op: &Op,
    ) -> Result<Receipt, CallRefusal>
        requires pass { pass.old.ticket.table ≡ N.heap.table }
        requires unit { IsSome (unit_of_op N.heap.opening.layout op.now) }
        ensures { HasCalled self.now G.cuts G.endless pass.old pass.new op.now result }
    {
        self.call_unit(rt, pass, self.unit_of(op), op)
    }

    // The unit of an operation that has one.
    #[inline(always)]
    fn unit_of(&self, op: &Op) -> Unit
        requires { IsSome (unit_of_op N.heap.opening.layout op.now) }
        ensures { IsOpOf N.heap.opening.layout result op.now }
    {
        show_texts(op);
        let Some(unit) = op.unit(self.heap.layout()) else {
            unreachable!()
        };
        unit
    }
}

// The key and the value of an operation are texts.
fn show_texts(op: &Op)
    ensures { CarriesTexts op.now }
{
    match op {
        Op::Put { key, value } | Op::OPut { key, value, .. } => {
            let _key = key.len();
            let _value = value.len();
        }
        _ => {}
    }
}
