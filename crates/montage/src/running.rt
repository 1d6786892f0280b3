// A job is run on a store.
ghost use Rattle.std.specs.Prelude.{◌≡◌, ◌⊎◌, Bool, List, Option, Some, All, map, IfOk, OnErr};
ghost use Rattle.heap.specs.GateAsked.{IsAskedOften};
ghost use Rattle.heap_pass.specs.Kept.{IsWhole};
ghost use Rattle.advance.specs.Attempts.{HasAdvanced, HasTried};
ghost use Rattle.job_text.specs.declared.job.Line.{Line as LineModel};
ghost use Rattle.job_text.specs.declared.outcome.Outcome.{Outcome as OutcomeModel};
ghost use Rattle.job_worker.specs.Ending.{MayBeAsked};
ghost use Rattle.job_run.specs.Run.{AreWorked};
ghost use Rattle.store.specs.Store.{AreAllCallers, IsFirstPass, IsWholePass};

use crate::asked_store::AskedStore;
use heap_pass::{HeapName, Pass};
use index_kit::Index;
use job_run::{Ran, run_job};
use job_text::Job;
use mont_base::Gate;
use std::alloc::{AllocError, Global};
use std::sync::Wait;
use std::thread::Threads;
use store::Store;

/// Carries a job out on a store, with a pass for each caller. Each caller's lines have a thread of
/// their own, and so have the attempts to move the clock on, by a gate of their own.
///
/// Where memory is refused, what was done so far stands. The passes are still there, whatever the
/// answer is, so that the store can be stopped with them.
pub fn run<R: Threads + Wait + Sync, N: HeapName + Send, I: Index + Send, G: Gate + Drop + Send>(
    rt: &R,
    alloc: Global,
    store: &Store<N, I>,
    job: &Job,
    passes: &mut Vec<Pass<G>>,
    gate: &mut G,
) -> Result<Ran, AllocError>
    requires passes { All (IsFirstPass N.heap) passes.old.items }
    requires lines { All (λ (l : LineModel). MayBeAsked N.heap.opening.layout l.deed)
        job.now.lines }
    ensures callers { AreAllCallers N.heap (map (λ p. p.ticket) passes.old.items)
        → AreAllCallers N.heap (map (λ p. p.ticket) passes.new.items) }
    ensures whole { All (λ p. IsWhole p.ticket p.receipts.items) passes.new.items }
    ensures worked { IfOk result (λ ran. AreWorked N.heap.opening
        (λ p. IsWholePass N.heap p.ticket p.receipts.items) (λ p. p.ticket.known)
        (λ p. G.cuts p.gate) (λ p. G.endless p.gate) job.now passes.old.items passes.new.items
        (map Some ran.outcomes)) }
    ensures stands { OnErr result ((done : List (Option (List OutcomeModel)))
        × AreWorked N.heap.opening (λ p. IsWholePass N.heap p.ticket p.receipts.items)
        (λ p. p.ticket.known) (λ p. G.cuts p.gate) (λ p. G.endless p.gate) job.now
        passes.old.items passes.new.items done) }
    ensures gate { IfOk result (λ ran. IsAskedOften G.cuts G.endless gate.old gate.new
        ran.advancer_cut) }
    ensures tries { IfOk result (λ ran. HasTried (HasAdvanced G.asked N.heap)
        job.now.attempts gate.old gate.new ran.advancer_cut) }
    ensures untried { OnErr result ((gate.new ≡ gate.old) ⊎ ((cut : Bool)
        × IsAskedOften G.cuts G.endless gate.old gate.new cut
        × HasTried (HasAdvanced G.asked N.heap) job.now.attempts gate.old gate.new
        cut)) }
{
    let _heap = store.heap();
    let asked = AskedStore { store };
    run_job(rt, alloc, &asked, job, passes, gate)
}
