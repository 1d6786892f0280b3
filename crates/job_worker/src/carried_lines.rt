// How one line is carried out.
ghost use Rattle.std.specs.Prelude.{◌≡◌, false, IfOk, IfErr, OnErr};
ghost use Rattle.heap.specs.GateAsked.{IsAskedOften};
ghost use Rattle.job_text.specs.declared.job.Deed.TheVariants as deeds;
ghost use Rattle.job_text.specs.Outcomes.{is_cut};
ghost use Rattle.job_worker.specs.Asking.{HasUnit, KeepsAnswers};
ghost use Rattle.job_worker.specs.Ending.{MayBeAsked, Ends};
ghost use Rattle.job_worker.specs.Worked.{line_was_cut};

use crate::asks::Asks;
use crate::outcomes::{call_outcome, is_full, unsynced};
use advance::AdvanceRefusal;
use job_text::{Deed, Outcome};
use mont_base::Op;
use std::alloc::AllocError;
use std::sync::Wait;

// Carries a line out. Want of memory is the one answer that isn't an outcome.
pub fn carry_out_line<R: Wait, P, S: Asks<P>>(
    rt: &R,
    store: &S,
    pass: &mut P,
    deed: &Deed,
) -> Result<Outcome, AllocError>
    requires pass { S.has store.now pass.old }
    requires deed { MayBeAsked (S.opening store.now).layout deed.now }
    ensures pass { S.has store.now pass.new }
    ensures gate { IsAskedOften S.cuts S.endless pass.old pass.new (line_was_cut result) }
    ensures ends { IfOk result (λ x. Ends (S.opening store.now) (S.known pass.old)
        (S.known pass.new) deed.now x) }
    ensures keeps { OnErr result (KeepsAnswers (S.known pass.old) (S.known pass.new)) }
{
    match deed {
        Deed::Call { op } => call_line(rt, store, pass, op),
        Deed::Tick => Ok(tick_line(rt, store, pass)),
        Deed::Sync => Ok(sync_line(rt, store, pass)),
    }
}

// Makes the call. Where its unit is full, the caller syncs once and makes it a second time.
fn call_line<R: Wait, P, S: Asks<P>>(
    rt: &R,
    store: &S,
    pass: &mut P,
    op: &Op,
) -> Result<Outcome, AllocError>
    requires pass { S.has store.now pass.old }
    requires op { HasUnit (S.opening store.now).layout op.now }
    ensures pass { S.has store.now pass.new }
    ensures gate { IsAskedOften S.cuts S.endless pass.old pass.new (line_was_cut result) }
    ensures ends { IfOk result (λ x. Ends (S.opening store.now) (S.known pass.old)
        (S.known pass.new) (deeds.Call op.now) x) }
    ensures keeps { OnErr result (KeepsAnswers (S.known pass.old) (S.known pass.new)) }
{
    let first = store.call(rt, pass, op);
    if !is_full(&first) {
        return call_outcome(first);
    }
    if let Err(why) = store.sync(rt, pass) {
        return Ok(unsynced(why));
    }
    call_outcome(store.call(rt, pass, op))
}

// Moves the clock on. While a unit is within an earlier epoch, this is tried again.
fn tick_line<R: Wait, P, S: Asks<P>>(rt: &R, store: &S, pass: &mut P) -> Outcome
    requires pass { S.has store.now pass.old }
    ensures pass { S.has store.now pass.new }
    ensures gate { IsAskedOften S.cuts S.endless pass.old pass.new (is_cut result) }
    ensures ends { Ends (S.opening store.now) (S.known pass.old) (S.known pass.new) deeds.Tick
        result }
{
    for _ in rt.forever() {
        match store.tick(rt, pass) {
            Ok(epoch) => return Outcome::Ticked { epoch },
            Err(AdvanceRefusal::NotYet { cut: false, .. }) => {}
            Err(AdvanceRefusal::NotYet { unit, epoch, .. }) => {
                return Outcome::Stuck { unit, epoch };
            }
            Err(AdvanceRefusal::Cut) => return Outcome::Cut,
            Err(AdvanceRefusal::ClockEnd) => return Outcome::ClockEnd,
        }
    }
    unreachable!()
}

// Waits until all that the caller has seen is durable.
fn sync_line<R: Wait, P, S: Asks<P>>(rt: &R, store: &S, pass: &mut P) -> Outcome
    requires pass { S.has store.now pass.old }
    ensures pass { S.has store.now pass.new }
    ensures gate { IsAskedOften S.cuts S.endless pass.old pass.new (is_cut result) }
    ensures ends { Ends (S.opening store.now) (S.known pass.old) (S.known pass.new) deeds.Sync
        result }
{
    match store.sync(rt, pass) {
        Ok(epoch) => Outcome::Synced { epoch },
        Err(why) => unsynced(why),
    }
}
