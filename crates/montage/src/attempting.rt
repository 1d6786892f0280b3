// The advancer of a store moves the clock on beside its callers.
use crate::asked_store::AskedStore;
use advance::AdvanceRefusal;
use heap_pass::HeapName;
use index_kit::Index;
use job_run::Advances;
use mont_base::{Epoch, Gate};
use std::sync::Wait;

impl<'a, N: HeapName, I: Index, A: Gate> Advances<A> for AskedStore<'a, N, I> {
    ghost gate_cuts = { A.cuts };

    ghost gate_endless = { A.endless };

    ghost use Rattle.advance.specs.Attempts.{HasAdvanced};

    ghost tried = { λ _. HasAdvanced A.asked N.heap };

    #[tactic(auto, using(crate::proofs::Attempted::attempted))]
    fn attempt<R: Wait>(&self, rt: &R, gate: &mut A) -> Result<Epoch, AdvanceRefusal> {
        let heap = self.store.heap();
        let mut guard = self.store.advancer().lock(rt);
        let named = &mut *guard;
        named.part.advance(heap, gate)
    }
}
