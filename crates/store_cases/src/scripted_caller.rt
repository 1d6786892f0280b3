// A caller of a store, under the name of its heap.
ghost use Rattle.std.specs.Prelude.{◌≡◌, ◌≤◌, IfOk, IsTrue, Some};
ghost use Rattle.mont_base.specs.declared.constants.TheConstants.{MOST_PAIRS};
ghost use Rattle.mont_base.specs.declared.kinds.UnitKind.TheVariants as kinds;
ghost use Rattle.mont_base.specs.Layout.{kind_of};
ghost use Rattle.heap.specs.Stops.{IsSeatOfCaller};
ghost use Rattle.store_cases.specs.ScriptedCallers.{once};

use advance::AdvanceRefusal;
use caller::{SyncRefusal, hear, tell};
use heap::News;
use heap_pass::{HeapName, Pass};
use index_kit::Index;
use mont_base::{
    CallRefusal, Epoch, Fuel, Layout, MOST_PAIRS, Op, PairList, Receipt, Text, Unit, UnitKind,
};
use std::alloc::{AllocError, Global};
use std::marker::PhantomData;
use std::sync::Wait;
use store::{ShiftRefusal, Store};

/// A caller of the heap that N names: its number and its pass.
#[derive(Drop)]
pub struct Caller<N: HeapName> {
    number: u64,
    pass: Pass<Fuel>,
    of: PhantomData<N>,
    ghost seat: { IsSeatOfCaller N.heap number pass.ticket } by { once N.heap number pass.ticket },
}

impl<N: HeapName> Caller<N> {
    /// The caller of a pass.
    pub fn new(pass: Pass<Fuel>) -> Caller<N>
        requires { pass.ticket.table ≡ N.heap.table }
    {
        Caller {
            number: pass.ticket.number(),
            pass,
            of: PhantomData,
        }
    }

    /// Its number.
    pub fn number(&self) -> u64
        ensures { result ≡ self.now.number }
    {
        self.number
    }

    /// Its steps ask this gate from now on.
    pub fn set_gate(&mut self, gate: Fuel)
        ensures { self.new.number ≡ self.old.number }
    {
        self.pass.gate = gate;
    }

    /// Gives the pass back.
    pub fn into_pass(self) -> Pass<Fuel>
        ensures { IsSeatOfCaller N.heap self.number result.ticket }
    {
        let Caller {
            number: _,
            pass,
            of: _,
        } = self;
        pass
    }

    /// Carries an operation out, and hands the pairs of a range over. There is no answer where the
    /// store has no unit for it.
    pub fn call<R: Wait, I: Index>(
        &mut self,
        rt: &R,
        store: &Store<N, I>,
        op: &Op,
        pairs: &mut PairList,
    ) -> Option<Result<Receipt, CallRefusal>>
        ensures { self.new.number ≡ self.old.number }
    {
        let layout = store.heap().layout();
        let unit = op.unit(layout)?;
        match *op {
            Op::ORange { from, to, most, .. } if is_range_of(layout, unit, most) => {
                Some(store.orange(rt, &mut self.pass, unit, from, to, most, pairs))
            }
            _ => Some(store.apply(rt, &mut self.pass, op)),
        }
    }

    /// Shifts an amount between the numbers under two keys: the receipts of both. There is no
    /// answer where the store has no map.
    pub fn shift<R: Wait, I: Index>(
        &mut self,
        rt: &R,
        store: &Store<N, I>,
        from: Text,
        to: Text,
        amount: u64,
    ) -> Option<Result<(Receipt, Receipt), ShiftRefusal>>
        ensures { self.new.number ≡ self.old.number }
    {
        if store.heap().layout().maps() == 0 {
            return None;
        }
        Some(store.shift(rt, &mut self.pass, from, to, amount))
    }

    /// Advances the clock.
    pub fn tick<R: Wait, I: Index>(
        &mut self,
        rt: &R,
        store: &Store<N, I>,
    ) -> Result<Epoch, AdvanceRefusal>
        ensures { self.new.number ≡ self.old.number }
    {
        store.tick(rt, &mut self.pass)
    }

    /// Waits until all that it has seen is durable.
    pub fn sync<R: Wait, I: Index>(
        &mut self,
        rt: &R,
        store: &Store<N, I>,
    ) -> Result<Epoch, SyncRefusal>
        ensures { self.new.number ≡ self.old.number }
    {
        store.sync(rt, &mut self.pass)
    }

    /// What it has seen.
    pub fn tell<I: Index>(&mut self, alloc: Global, store: &Store<N, I>) -> Result<News, AllocError>
        ensures same { self.new.number ≡ self.old.number }
        ensures news { IfOk result (λ news. news.table ≡ N.heap.table) }
    {
        tell(alloc, store.heap(), &mut self.pass)
    }

    /// It has now seen what another had.
    pub fn hear<I: Index>(&mut self, store: &Store<N, I>, news: News)
        requires { news.table ≡ N.heap.table }
        ensures { self.new.number ≡ self.old.number }
    {
        hear(store.heap(), &mut self.pass, news);
    }
}

// Whether a range of so many pairs may be asked of a unit.
fn is_range_of(layout: Layout, unit: Unit, most: u64) -> bool
    ensures kind { IsTrue result → kind_of layout unit ≡ Some kinds.Ordered }
    ensures most { IsTrue result → (1 ≤ most) × (most ≤ MOST_PAIRS) }
{
    unit < layout.units()
        && layout.kind(unit) == UnitKind::Ordered
        && 1 <= most
        && most <= MOST_PAIRS as u64
}
