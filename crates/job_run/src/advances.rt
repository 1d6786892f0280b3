// The advancer beside the callers.
ghost use Rattle.std.specs.Prelude.{◌≡◌, ℕ, Bool};
ghost use Rattle.std.specs.declared.result.Result.{Result};
ghost use Rattle.advance.specs.declared.advance_refusal.AdvanceRefusal.{AdvanceRefusal};
ghost use Rattle.heap.specs.GateAsked.{IsAskedOften};
ghost use Rattle.advance.specs.Advance.{was_cut};
ghost use Rattle.advance.specs.Attempts.{HasTried};

use advance::AdvanceRefusal;
use mont_base::Epoch;
use std::sync::Wait;

/// A store whose clock is moved on beside its callers. `A` is the gate by which this is done.
pub trait Advances<A> {
    /// How often the gate cut.
    ghost gate_cuts: { A → ℕ };

    /// Whether the gate never cuts.
    ghost gate_endless: { A → Bool };

    /// What is known of a try to move the clock on: by the gate before it and after, and by what it
    /// answered.
    ghost tried: { Self → A → A → Result ℕ AdvanceRefusal → Type 0 };

    /// Moves the clock on by one, or goes on with that.
    fn attempt<R: Wait>(&self, rt: &R, gate: &mut A) -> Result<Epoch, AdvanceRefusal>
        ensures gate { IsAskedOften gate_cuts gate_endless gate.old gate.new
            (was_cut result) }
        ensures tried { tried self.now gate.old gate.new result };
}

// Tries so many advances, and says whether the gate cut one. None is tried after it.
pub(crate) fn make_attempts<R: Wait, A, S: Advances<A>>(
    rt: &R,
    store: &S,
    attempts: u64,
    gate: &mut A,
) -> bool
    ensures gate { IsAskedOften S.gate_cuts S.gate_endless gate.old gate.new result }
    ensures tries { HasTried (S.tried store.now) attempts gate.old gate.new result }
{
    for _made in 0..attempts {
        if let Err(AdvanceRefusal::Cut) = store.attempt(rt, gate) {
            return true;
        }
    }
    false
}
