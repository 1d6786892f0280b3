// The clock is moved on beside the callers.
ghost use Rattle.std.specs.Prelude.{◌≡◌, true};
ghost use Rattle.heap.specs.GateAsked.{IsAskedOften};
ghost use Rattle.advance.specs.Advance.{was_cut};
ghost use Rattle.advance.specs.Attempts.{AreTries, HasAdvanced};

use advance::AdvanceRefusal;
use bank_job::ATTEMPTS;
use heap_pass::HeapName;
use index_kit::Index;
use mont_base::{Epoch, Gate};
use std::sync::Wait;
use store::Store;

// Tries to move the clock on, as often as the bank says.
pub(crate) fn make_attempts<R: Wait, N: HeapName, I: Index, A: Gate>(
    rt: &R,
    store: &Store<N, I>,
    gate: &mut A,
)
    requires endless { A.endless gate.old ≡ true }
    ensures { AreTries (HasAdvanced A.asked N.heap) ATTEMPTS gate.old gate.new }
{
    for _made in 0..ATTEMPTS {
        let _ = attempt(rt, store, gate);
    }
}

// Moves the clock on, or goes on with that.
#[tactic(auto, using(crate::proofs::Attempted::attempted))]
fn attempt<R: Wait, N: HeapName, I: Index, A: Gate>(
    rt: &R,
    store: &Store<N, I>,
    gate: &mut A,
) -> Result<Epoch, AdvanceRefusal>
    ensures gate { IsAskedOften A.cuts A.endless gate.old gate.new (was_cut result) }
    ensures advanced { HasAdvanced A.asked N.heap gate.old gate.new result }
{
    let heap = store.heap();
    let mut guard = store.advancer().lock(rt);
    let named = &mut *guard;
    named.part.advance(heap, gate)
}
