// What the callers of a job ask of a store.
ghost use Rattle.store.specs.Store.{IsWholePass};

use crate::asked_store::AskedStore;
use advance::AdvanceRefusal;
use caller::SyncRefusal;
use heap_pass::{HeapName, Pass};
use index_kit::Index;
use job_worker::Asks;
use mont_base::{CallRefusal, Epoch, Gate, Op, Receipt};
use std::sync::Wait;

impl<'a, N: HeapName, I: Index, G: Gate> Asks<Pass<G>> for AskedStore<'a, N, I> {
    ghost opening = { λ s. s.opening };

    ghost has = { λ s p. IsWholePass s p.ticket p.receipts.items };

    ghost known = { λ p. p.ticket.known };

    ghost cuts = { λ p. G.cuts p.gate };

    ghost endless = { λ p. G.endless p.gate };

    fn call<R: Wait>(&self, rt: &R, pass: &mut Pass<G>, op: &Op) -> Result<Receipt, CallRefusal> {
        let _heap = self.store.heap();
        self.store.apply(rt, pass, op)
    }

    fn tick<R: Wait>(&self, rt: &R, pass: &mut Pass<G>) -> Result<Epoch, AdvanceRefusal> {
        let _heap = self.store.heap();
        self.store.tick(rt, pass)
    }

    fn sync<R: Wait>(&self, rt: &R, pass: &mut Pass<G>) -> Result<Epoch, SyncRefusal> {
        let _heap = self.store.heap();
        self.store.sync(rt, pass)
    }
}
