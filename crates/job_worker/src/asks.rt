// What a caller asks of a store.
ghost use Rattle.std.specs.Prelude.{◌≡◌, ℕ, Bool, IfOk, IfErr};
ghost use Rattle.heap.specs.GateAsked.{IsAskedOften};
ghost use Rattle.heap_rule.specs.declared.rule.Opening.{Opening};
ghost use Rattle.heap_rule.specs.declared.views.CallerKnown.{CallerKnown};
ghost use Rattle.caller.specs.Continued.{HasContinued};
ghost use Rattle.job_worker.specs.Asking.{HasUnit, KeepsAnswers, HasLearntWhy, HasMoved, HasHeard, HasSynced, LeavesUnsynced, call_was_cut, advance_was_cut, sync_was_cut};

use advance::AdvanceRefusal;
use caller::SyncRefusal;
use mont_base::{CallRefusal, Epoch, Op, Receipt};
use std::sync::Wait;

/// A store that callers share, of whom each works with a pass of its own. `P` is such a pass.
pub trait Asks<P> {
    /// With what the store was opened.
    ghost opening: { Self → Opening };

    /// Whether the pass is one of the store's.
    ghost has: { Self → P → Type 0 };

    /// What the pass shows of its caller.
    ghost known: { P → CallerKnown };

    /// How often the pass's gate cut.
    ghost cuts: { P → ℕ };

    /// Whether that gate never cuts.
    ghost endless: { P → Bool };

    /// Carries an operation out.
    fn call<R: Wait>(&self, rt: &R, pass: &mut P, op: &Op) -> Result<Receipt, CallRefusal>
        requires pass { has self.now pass.old }
        requires op { HasUnit (opening self.now).layout op.now }
        ensures pass { has self.now pass.new }
        ensures gate { IsAskedOften cuts endless pass.old pass.new (call_was_cut result) }
        ensures answered { IfOk result (λ receipt. HasContinued (opening self.now) (known pass.old)
            (known pass.new) op.now receipt) }
        ensures refused { IfErr result (λ why. HasLearntWhy (opening self.now) (known pass.old)
            (known pass.new) op.now why) };

    /// Moves the clock on by one, or goes on with that.
    fn tick<R: Wait>(&self, rt: &R, pass: &mut P) -> Result<Epoch, AdvanceRefusal>
        requires pass { has self.now pass.old }
        ensures pass { has self.now pass.new }
        ensures gate { IsAskedOften cuts endless pass.old pass.new (advance_was_cut result) }
        ensures keeps { KeepsAnswers (known pass.old) (known pass.new) }
        ensures moved { IfOk result (λ clock. HasMoved (opening self.now) (known pass.old)
            (known pass.new) clock) }
        ensures refused { IfErr result (HasHeard (known pass.new)) };

    /// Waits until all that the caller has seen is durable.
    fn sync<R: Wait>(&self, rt: &R, pass: &mut P) -> Result<Epoch, SyncRefusal>
        requires pass { has self.now pass.old }
        ensures pass { has self.now pass.new }
        ensures gate { IsAskedOften cuts endless pass.old pass.new (sync_was_cut result) }
        ensures keeps { KeepsAnswers (known pass.old) (known pass.new) }
        ensures synced { IfOk result (λ clock. HasSynced (known pass.old) (known pass.new) clock) }
        ensures refused { IfErr result (LeavesUnsynced (known pass.new)) };
}
