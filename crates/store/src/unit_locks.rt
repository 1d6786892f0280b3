// The locks of the units. A call locks the operation's unit, and no other.
ghost use Rattle.std.specs.Prelude.{◌≡◌, ◌<◌, Ok, Err, OnOk, IfErr};
ghost use Rattle.mont_laws.specs.Effects.{IsOpOf};
ghost use Rattle.heap_pass.specs.KeptReceipt.{KeepsReceipt};
ghost use Rattle.store.specs.StoreCalls.{HasCalled};
ghost use Rattle.store.specs.StoreShown.{OfAnyBase};

use crate::store::Store;
use crate::unit_at::UnitAt;
use heap::Heap;
use heap_pass::{HeapName, Pass, last_receipt};
use index_kit::Index;
use mont_base::{CallRefusal, Gate, Op, Receipt, Unit};
use std::hint::spin_loop;
use std::sync::{Mutex, MutexGuard, Wait};

impl<N: HeapName, I: Index> Store<N, I> {
    // Carries an operation of the unit out, and copies the receipt from the pass. Facts that are
    // proved for every base hold for this store's base.
    #[inline(always)]
    pub(crate) fn call_unit<R: Wait, G: Gate>(
        &self,
        rt: &R,
        pass: &mut Pass<G>,
        unit: Unit,
        op: &Op,
    ) -> Result<Receipt, CallRefusal>
        requires pass { pass.old.ticket.table ≡ N.heap.table }
        requires op { IsOpOf N.heap.opening.layout unit op.now }
        ensures { HasCalled self.now G.cuts G.endless pass.old pass.new op.now result }
    {
        let _heap = self.heap();
        self.perform_locked(rt, pass, unit, op)?;
        Ok(last_receipt(&pass.receipts))
    }

    // Carries an operation of the unit out, under the unit's lock, and keeps the receipt in the
    // pass.
    #[inline(always)]
    fn perform_locked<R: Wait, G: Gate>(
        &self,
        rt: &R,
        pass: &mut Pass<G>,
        unit: Unit,
        op: &Op,
    ) -> Result<(), CallRefusal>
        requires pass { pass.old.ticket.table ≡ N.heap.table }
        requires op { IsOpOf N.heap.opening.layout unit op.now }
        ensures answered { OnOk result (KeepsReceipt pass.old.receipts.items
            pass.new.receipts.items (λ receipt. OfAnyBase N.heap (λ store. HasCalled store
            G.cuts G.endless pass.old pass.new op.now (Ok receipt)))) }
        ensures refused { IfErr result (λ why. OfAnyBase N.heap (λ store. HasCalled store
            G.cuts G.endless pass.old pass.new op.now (Err why))) }
    {
        let heap = &self.heap;
        match self.lock_of(unit, op) {
            0 => call_at(rt, heap, &self.unit_0.part, pass, unit, op),
            1 => call_at(rt, heap, &self.unit_1.part, pass, unit, op),
            2 => call_at(rt, heap, &self.unit_2.part, pass, unit, op),
            3 => call_at(rt, heap, &self.unit_3.part, pass, unit, op),
            4 => call_at(rt, heap, &self.unit_4.part, pass, unit, op),
            5 => call_at(rt, heap, &self.unit_5.part, pass, unit, op),
            6 => call_at(rt, heap, &self.unit_6.part, pass, unit, op),
            7 => call_at(rt, heap, &self.unit_7.part, pass, unit, op),
            8 => call_at(rt, heap, &self.unit_8.part, pass, unit, op),
            9 => call_at(rt, heap, &self.unit_9.part, pass, unit, op),
            10 => call_at(rt, heap, &self.unit_10.part, pass, unit, op),
            11 => call_at(rt, heap, &self.unit_11.part, pass, unit, op),
            12 => call_at(rt, heap, &self.unit_12.part, pass, unit, op),
            13 => call_at(rt, heap, &self.unit_13.part, pass, unit, op),
            14 => call_at(rt, heap, &self.unit_14.part, pass, unit, op),
            15 => call_at(rt, heap, &self.unit_15.part, pass, unit, op),
            _ => unreachable!(),
        }
    }

    // The number of the lock of an operation's unit.
    pub(crate) fn lock_of(&self, unit: Unit, op: &Op) -> u64
        requires { IsOpOf N.heap.opening.layout unit op.now }
        ensures same { result ≡ unit }
        ensures few { result < 16 }
    {
        let _units = self.heap.layout().units();
        let _op = op;
        unit
    }
}

// Carries an operation of the unit with this number out, under its lock, and keeps the receipt in
// the pass.
#[inline(always)]
fn call_at<const UNIT: u64, R: Wait, N: HeapName, I: Index, G: Gate>(
    rt: &R,
    heap: &Heap,
    lock: &Mutex<UnitAt<UNIT, N, I>>,
    pass: &mut Pass<G>,
    unit: Unit,
    op: &Op,
) -> Result<(), CallRefusal>
    requires heap { heap.now ≡ N.heap }
    requires pass { pass.old.ticket.table ≡ N.heap.table }
    requires unit { unit ≡ UNIT }
    requires op { IsOpOf N.heap.opening.layout unit op.now }
    ensures answered { OnOk result (KeepsReceipt pass.old.receipts.items
        pass.new.receipts.items (λ receipt. OfAnyBase N.heap (λ store. HasCalled store
        G.cuts G.endless pass.old pass.new op.now (Ok receipt)))) }
    ensures refused { IfErr result (λ why. OfAnyBase N.heap (λ store. HasCalled store
        G.cuts G.endless pass.old pass.new op.now (Err why))) }
{
    let _unit = unit;
    let mut guard = lock_soon(rt, lock);
    match guard.perform(rt, heap, pass, op) {
        Ok(()) => Ok(()),
        Err(why) => Err(refused(why)),
    }
}

// How often a caller tries a lock that another has before it waits, and how long it rests between.
const TRIES: u64 = 200;

const RESTS: u64 = 2;

// The guard of a lock. To wait puts the thread to sleep, which costs more than a call; so a caller
// tries a while first.
#[inline(always)]
fn lock_soon<'a, T, R: Wait>(rt: &R, lock: &'a Mutex<T>) -> MutexGuard<'a, T> {
    match lock.try_lock() {
        Some(guard) => guard,
        None => lock_late(rt, lock),
    }
}

#[cold]
fn lock_late<'a, T, R: Wait>(rt: &R, lock: &'a Mutex<T>) -> MutexGuard<'a, T> {
    for _try in 0..TRIES {
        for _rest in 0..RESTS {
            spin_loop();
        }
        if let Some(guard) = lock.try_lock() {
            return guard;
        }
    }
    lock.lock(rt)
}

// A refusal as it is. It is moved by a call of its own, so that an answered call copies nothing of
// one.
#[cold]
fn refused(why: CallRefusal) -> CallRefusal
    ensures { result ≡ why }
{
    why
}
