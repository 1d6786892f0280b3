// Where each caller works.
ghost use Rattle.std.specs.Prelude.{◌≡◌, ◌≤◌, [], length, map, vec_capacity, All};
ghost use Rattle.job_text.specs.declared.job.Line.{Line as LineModel};
ghost use Rattle.job_text.specs.Report.{lines_of};
ghost use Rattle.job_worker.specs.Ending.{MayBeAsked};
ghost use Rattle.job_run.specs.Desks.{empty_desk};
ghost use Rattle.job_run.specs.Run.{IsFresh, IsWorked};

use job_text::{Job, Outcome};
use job_worker::{Asks, work};
use mont_base::Sequence;
use std::alloc::{AllocError, Global};
use std::sync::Wait;

// The pass of a caller, and what came of its lines, once they were all carried out.
#[derive(Drop)]
pub(crate) struct Desk<P> {
    pub(crate) pass: P,
    pub(crate) done: Option<Sequence<Outcome>>,
}

// A desk for each pass, in a vector that has room for them.
pub(crate) fn set_out<P: Drop>(passes: Vec<P>, mut desks: Vec<Desk<P>>) -> Vec<Desk<P>>
    requires none { desks.items ≡ [] }
    requires room { length passes.items ≤ vec_capacity desks }
    ensures { result.items ≡ map empty_desk passes.items }
{
    for pass in passes {
        desks.push_reserved(Desk { pass, done: None });
    }
    desks
}

// Puts the passes and the outcomes of all desks into vectors that have room for them.
pub(crate) fn clear_away<P: Drop>(
    desks: Vec<Desk<P>>,
    passes: &mut Vec<P>,
    done: &mut Vec<Option<Sequence<Outcome>>>,
)
    requires none { (passes.old.items ≡ []) × (done.old.items ≡ []) }
    requires room { length desks.items ≤ vec_capacity passes.old }
    requires rows { length desks.items ≤ vec_capacity done.old }
    ensures passes { passes.new.items ≡ map (λ d. d.pass) desks.items }
    ensures done { done.new.items ≡ map (λ d. d.done) desks.items }
{
    for desk in desks {
        let Desk { pass, done: made } = desk;
        passes.push_reserved(pass);
        done.push_reserved(made);
    }
}

// Carries out what the job asks of the caller.
pub(crate) fn work_at<R: Wait, P, S: Asks<P>>(
    rt: &R,
    alloc: Global,
    store: &S,
    job: &Job,
    caller: usize,
    desk: &mut Desk<P>,
)
    requires fresh { IsFresh (S.has store.now) S.known desk.old.pass }
    requires lines { All (λ (l : LineModel). MayBeAsked (S.opening store.now).layout l.deed)
        job.now.lines }
    ensures { IsWorked (S.opening store.now) (S.has store.now) S.known S.cuts S.endless
        (lines_of job.now caller) desk.old.pass desk.new.pass desk.new.done }
{
    desk.done = outcomes_of(rt, alloc, store, job, caller as u64, &mut desk.pass);
}

// What came of the lines of the caller. None where memory was refused.
fn outcomes_of<R: Wait, P, S: Asks<P>>(
    rt: &R,
    alloc: Global,
    store: &S,
    job: &Job,
    caller: u64,
    pass: &mut P,
) -> Option<Sequence<Outcome>>
    requires fresh { IsFresh (S.has store.now) S.known pass.old }
    requires lines { All (λ (l : LineModel). MayBeAsked (S.opening store.now).layout l.deed)
        job.now.lines }
    ensures { IsWorked (S.opening store.now) (S.has store.now) S.known S.cuts S.endless
        (lines_of job.now caller) pass.old pass.new result }
{
    match work(rt, alloc, store, pass, caller, job.lines.as_slice()) {
        Ok(outcomes) => Some(Sequence::from_vec(outcomes)),
        Err(AllocError) => None,
    }
}
