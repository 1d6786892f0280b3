// A run of a job.
ghost use Rattle.std.specs.Prelude.{◌≡◌, ◌⊎◌, Bool, List, Option, Some, All, map, IfOk, OnErr};
ghost use Rattle.std.specs.Thread.{IsSync, IsSend};
ghost use Rattle.heap.specs.GateAsked.{IsAskedOften};
ghost use Rattle.advance.specs.Attempts.{HasTried};
ghost use Rattle.job_text.specs.declared.job.Line.{Line as LineModel};
ghost use Rattle.job_text.specs.declared.outcome.Outcome.{Outcome as OutcomeModel};
ghost use Rattle.job_text.specs.Report.{lines_of};
ghost use Rattle.job_worker.specs.Ending.{MayBeAsked};
ghost use Rattle.job_run.specs.Desks.{AreLeft};
ghost use Rattle.job_run.specs.Run.{IsFresh, IsWorked, AreWorked};

use crate::advances::{Advances, make_attempts};
use crate::desks::{Desk, clear_away, set_out, work_at};
use job_text::{Job, Outcome};
use job_worker::Asks;
use mont_base::Sequence;
use std::alloc::{AllocError, Global};
use std::mem;
use std::sync::Wait;
use std::thread::{Threads, for_each_mut, join_mut};

/// What came of the lines of a job, caller by caller, and whether the advancer's gate cut.
#[derive(Debug, Drop)]
pub struct Ran {
    pub outcomes: Sequence<Sequence<Outcome>>,
    pub advancer_cut: bool,
}

// The same, where the lines of a caller may have lacked memory.
#[derive(Drop)]
struct Done {
    outcomes: Vec<Option<Sequence<Outcome>>>,
    advancer_cut: bool,
}

/// Carries a job out, with a pass for each caller. Each caller's lines have a thread of their own,
/// and so have the attempts to move the clock on. Where a thread can't be started, its work is done
/// in the place of that.
///
/// Where memory is refused, what was done so far stands, and the passes are still there.
pub fn run_job<R: Threads + Wait + Sync, P: Send + Drop, A: Send, S: Asks<P> + Advances<A> + Sync>(
    rt: &R,
    alloc: Global,
    store: &S,
    job: &Job,
    passes: &mut Vec<P>,
    gate: &mut A,
) -> Result<Ran, AllocError>
    requires passes { All (IsFresh (S.has store.now) S.known) passes.old.items }
    requires lines { All (λ (l : LineModel). MayBeAsked (S.opening store.now).layout l.deed)
        job.now.lines }
    ensures worked { IfOk result (λ ran. AreWorked (S.opening store.now) (S.has store.now) S.known
        S.cuts S.endless job.now passes.old.items passes.new.items (map Some ran.outcomes)) }
    ensures stands { OnErr result ((done : List (Option (List OutcomeModel)))
        × AreWorked (S.opening store.now) (S.has store.now) S.known S.cuts S.endless job.now
        passes.old.items passes.new.items done) }
    ensures gate { IfOk result (λ ran. IsAskedOften S.gate_cuts S.gate_endless gate.old gate.new
        ran.advancer_cut) }
    ensures tries { IfOk result (λ ran. HasTried (S.tried store.now) job.now.attempts gate.old
        gate.new ran.advancer_cut) }
    ensures untried { OnErr result ((gate.new ≡ gate.old) ⊎ ((cut : Bool)
        × IsAskedOften S.gate_cuts S.gate_endless gate.old gate.new cut
        × HasTried (S.tried store.now) job.now.attempts gate.old gate.new cut)) }
{
    let done = done_by(rt, alloc, store, job, passes, gate)?;
    Ok(Ran {
        outcomes: gathered(alloc, done.outcomes)?,
        advancer_cut: done.advancer_cut,
    })
}

// What came of the lines of each caller, if they were all carried out, beside the attempts.
fn done_by<R: Threads + Wait + Sync, P: Send + Drop, A: Send, S: Asks<P> + Advances<A> + Sync>(
    rt: &R,
    alloc: Global,
    store: &S,
    job: &Job,
    passes: &mut Vec<P>,
    gate: &mut A,
) -> Result<Done, AllocError>
    requires passes { All (IsFresh (S.has store.now) S.known) passes.old.items }
    requires lines { All (λ (l : LineModel). MayBeAsked (S.opening store.now).layout l.deed)
        job.now.lines }
    ensures worked { IfOk result (λ done. AreWorked (S.opening store.now) (S.has store.now) S.known
        S.cuts S.endless job.now passes.old.items passes.new.items done.outcomes.items) }
    ensures gate { IfOk result (λ done. IsAskedOften S.gate_cuts S.gate_endless gate.old gate.new
        done.advancer_cut) }
    ensures tries { IfOk result (λ done. HasTried (S.tried store.now) job.now.attempts gate.old
        gate.new done.advancer_cut) }
    ensures untouched { OnErr result (passes.new.items ≡ passes.old.items) }
    ensures untried { OnErr result (gate.new ≡ gate.old) }
{
    let callers = passes.len();
    let mut outcomes = Vec::with_capacity(alloc, callers)?;
    let desks = Vec::with_capacity(alloc, callers)?;
    let room = Vec::with_capacity(alloc, callers)?;
    let desks = set_out(mem::replace(passes, room), desks);
    let (desks, advancer_cut) = run_desks(rt, alloc, store, job, gate, desks);
    clear_away(desks, passes, &mut outcomes);
    Ok(Done {
        outcomes,
        advancer_cut,
    })
}

// What the desks are left with, and whether the advancer's gate cut.
fn run_desks<R: Threads + Wait + Sync, P: Send, A: Send, S: Asks<P> + Advances<A> + Sync>(
    rt: &R,
    alloc: Global,
    store: &S,
    job: &Job,
    gate: &mut A,
    mut desks: Vec<Desk<P>>,
) -> (Vec<Desk<P>>, bool)
    requires fresh { All (λ d. IsFresh (S.has store.now) S.known d.pass) desks.items }
    requires lines { All (λ (l : LineModel). MayBeAsked (S.opening store.now).layout l.deed)
        job.now.lines }
    ensures worked { AreLeft (S.opening store.now) (S.has store.now) S.known S.cuts S.endless
        job.now desks.items result.0.items }
    ensures gate { IsAskedOften S.gate_cuts S.gate_endless gate.old gate.new result.1 }
    ensures tries { HasTried (S.tried store.now) job.now.attempts gate.old gate.new result.1 }
{
    let cut = run_beside(rt, alloc, store, job, gate, desks.as_mut_slice());
    (desks, cut)
}

// The callers at their desks, beside the advancer's attempts. Says whether the advancer's gate cut.
fn run_beside<R: Threads + Wait + Sync, P: Send, A: Send, S: Asks<P> + Advances<A> + Sync>(
    rt: &R,
    alloc: Global,
    store: &S,
    job: &Job,
    gate: &mut A,
    desks: &mut [Desk<P>],
) -> bool
    requires fresh { All (λ d. IsFresh (S.has store.now) S.known d.pass) desks.old }
    requires lines { All (λ (l : LineModel). MayBeAsked (S.opening store.now).layout l.deed)
        job.now.lines }
    ensures worked { AreLeft (S.opening store.now) (S.has store.now) S.known S.cuts S.endless
        job.now desks.old desks.new }
    ensures gate { IsAskedOften S.gate_cuts S.gate_endless gate.old gate.new result }
    ensures tries { HasTried (S.tried store.now) job.now.attempts gate.old gate.new result }
{
    let (cut, ()) = join_mut(
        rt,
        &mut || -> bool
            ensures { IsAskedOften S.gate_cuts S.gate_endless gate.entry.now gate.exit.now result
                × HasTried (S.tried store.entry.now) job.entry.now.attempts gate.entry.now
                gate.exit.now result }
        { make_attempts(rt, store, job.attempts, gate) },
        &mut ||
            requires { IsSync R.row × IsSync S.row × IsSend P.row
                × All (λ d. IsFresh (S.has store.now) S.known d.pass) desks.now
                × All (λ (l : LineModel). MayBeAsked (S.opening store.now).layout l.deed)
                job.now.lines }
            ensures { AreLeft (S.opening store.entry.now) (S.has store.entry.now) S.known S.cuts
                S.endless job.entry.now desks.entry.now desks.exit.now }
        { work_all(rt, alloc, store, job, desks) },
    );
    cut
}

// All callers at their desks, each in a thread of its own.
fn work_all<R: Threads + Wait + Sync, P: Send, S: Asks<P> + Sync>(
    rt: &R,
    alloc: Global,
    store: &S,
    job: &Job,
    desks: &mut [Desk<P>],
)
    requires fresh { All (λ d. IsFresh (S.has store.now) S.known d.pass) desks.old }
    requires lines { All (λ (l : LineModel). MayBeAsked (S.opening store.now).layout l.deed)
        job.now.lines }
    ensures worked { AreLeft (S.opening store.now) (S.has store.now) S.known S.cuts S.endless
        job.now desks.old desks.new }
{
    let threads = desks.len().max(1);
    for_each_mut(
        rt,
        desks,
        threads,
        &|caller: usize, desk: &mut Desk<P>|
            requires { IsFresh (S.has store.now) S.known desk.now.pass
                × All (λ (l : LineModel). MayBeAsked (S.opening store.now).layout l.deed)
                job.now.lines }
            ensures { IsWorked (S.opening store.entry.now) (S.has store.entry.now) S.known S.cuts
                S.endless (lines_of job.entry.now caller) desk.entry.now.pass desk.exit.now.pass
                desk.exit.now.done }
        { work_at(rt, alloc, store, job, caller, desk) },
    );
}

// The outcomes of all callers, where none lacked memory.
fn gathered(
    alloc: Global,
    done: Vec<Option<Sequence<Outcome>>>,
) -> Result<Sequence<Sequence<Outcome>>, AllocError>
    ensures { IfOk result (λ outcomes. done.items ≡ map Some outcomes) }
{
    let mut outcomes = Sequence::new(alloc);
    for of_caller in done {
        outcomes.push(of_caller.ok_or(AllocError)?)?;
    }
    Ok(outcomes)
}
