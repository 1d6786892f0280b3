// Calls on an engine. Each tells by None or false that its gate cut.
ghost use Rattle.std.specs.Prelude.{◌≡◌, true, IfOk, IfSome, IsSome};
ghost use Rattle.machine_cases.specs.Working.{IsIdle, IsOperating, CanBeStopped};

use crate::engine::Engine;
use crate::line_fault::LineFault;
use crate::permits::{permit_change, permit_leave, permit_read};
use advance::AdvanceRefusal;
use mont_base::{Change, Cut, Epoch, Op, Reply, Slot};
use op_guard::{Guard, GuardRefusal, abandon, begin, change, commit, read};
use std::alloc::Global;
use std::sync::Wait;

/// An operation with its reply, and what it does to records.
#[derive(Drop)]
pub struct Call {
    pub op: Op,
    pub reply: Reply,
    pub changes: Vec<Change>,
}

/// Carries an operation out, and tells whether the gate let all its steps be made.
pub fn operate<R: Wait>(
    rt: &R,
    alloc: Global,
    engine: &mut Engine,
    call: &Call,
) -> Result<bool, LineFault>
    requires { IsIdle engine.old }
    ensures made { IfOk result (λ made. made ≡ true → IsIdle engine.new) }
    ensures home { IfOk result (λ _. CanBeStopped engine.new) }
{
    let need = call.changes.len() as u64;
    match start(rt, engine, need)? {
        Some(guard) => finish(alloc, engine, guard, call),
        None => Ok(false),
    }
}

/// Begins an operation.
pub fn start<R: Wait>(rt: &R, engine: &mut Engine, need: u64) -> Result<Option<Guard>, LineFault>
    requires { IsIdle engine.old }
    ensures made { IfOk result (λ begun. IfSome begun (λ guard. IsOperating guard engine.new)) }
    ensures home { IfOk result (λ _. CanBeStopped engine.new) }
{
    if need == 0 {
        return Err(LineFault::Unclear);
    }
    engine.pass.reserve()?;
    match begin(rt, &engine.heap, &mut engine.region, need, &mut engine.pass) {
        Ok(guard) => Ok(Some(guard)),
        Err(GuardRefusal::Cut) => Ok(None),
        Err(GuardRefusal::Full { free, clock, .. }) => Err(LineFault::Full { free, clock }),
    }
}

// Writes the changes, and commits.
fn finish(alloc: Global, engine: &mut Engine, guard: Guard, call: &Call) -> Result<bool, LineFault>
    requires { IsOperating guard engine.old }
    ensures made { IfOk result (λ made. made ≡ true → IsIdle engine.new) }
    ensures home { IfOk result (λ _. CanBeStopped engine.new) }
{
    let mut guard = guard;
    match write_all(alloc, engine, &mut guard, &call.changes) {
        Ok(true) => Ok(end(alloc, engine, guard, &call.op, &call.reply)?.is_some()),
        other => {
            spend(guard);
            other
        }
    }
}

// Writes the changes in their order.
fn write_all(
    alloc: Global,
    engine: &mut Engine,
    guard: &mut Guard,
    changes: &[Change],
) -> Result<bool, LineFault>
    requires { IsOperating guard.old engine.old }
    ensures made { IfOk result (λ made. made ≡ true → IsOperating guard.new engine.new) }
    ensures home { IfOk result (λ _. CanBeStopped engine.new) }
{
    for one in changes {
        if write(alloc, engine, guard, one)?.is_none() {
            return Ok(false);
        }
    }
    Ok(true)
}

/// Writes a change, and answers its slot.
pub fn write(
    alloc: Global,
    engine: &mut Engine,
    guard: &mut Guard,
    one: &Change,
) -> Result<Option<Slot>, LineFault>
    requires { IsOperating guard.old engine.old }
    ensures made { IfOk result (λ wrote. IsSome wrote → IsOperating guard.new engine.new) }
    ensures home { IfOk result (λ _. CanBeStopped engine.new) }
{
    if guard.written >= guard.need {
        return Err(LineFault::Unclear);
    }
    permit_change(alloc, engine.heap.layout(), &engine.region, one)?;
    let wrote = change(
        guard,
        &engine.heap,
        &mut engine.region,
        one,
        &mut engine.pass,
    );
    Ok(wrote.ok())
}

/// Commits, and answers the epoch of the entry.
pub fn end(
    alloc: Global,
    engine: &mut Engine,
    guard: Guard,
    op: &Op,
    reply: &Reply,
) -> Result<Option<Epoch>, LineFault>
    requires { IsOperating guard engine.old }
    ensures made { IfOk result (λ answered. IsSome answered → IsIdle engine.new) }
    ensures home { IfOk result (λ _. CanBeStopped engine.new) }
{
    match permit_leave(alloc, engine, &guard, op, reply) {
        Ok(()) => {
            let committed = commit(
                guard,
                &engine.heap,
                &mut engine.region,
                &mut engine.pass,
                op,
                reply,
            );
            match committed {
                Ok(receipt) => Ok(Some(receipt.entry.epoch)),
                Err(Cut) => Ok(None),
            }
        }
        Err(fail) => {
            spend(guard);
            Err(fail)
        }
    }
}

/// Begins an operation, and gives it up.
pub fn give_up<R: Wait>(rt: &R, engine: &mut Engine, need: u64) -> Result<bool, LineFault>
    requires { IsIdle engine.old }
    ensures made { IfOk result (λ made. made ≡ true → IsIdle engine.new) }
    ensures home { IfOk result (λ _. CanBeStopped engine.new) }
{
    let Some(guard) = start(rt, engine, need)? else {
        return Ok(false);
    };
    if guard.written != 0 {
        spend(guard);
        return Err(LineFault::Unclear);
    }
    let given_up = abandon(guard, &engine.heap, &mut engine.region, &mut engine.pass);
    Ok(given_up.is_ok())
}

/// Takes a guard apart.
pub fn spend(guard: Guard) {
    let Guard {
        unit: _,
        by: _,
        epoch: _,
        need: _,
        written: _,
    } = guard;
}

/// Answers what changes nothing.
pub fn answer_read(
    alloc: Global,
    engine: &mut Engine,
    op: &Op,
    reply: &Reply,
) -> Result<bool, LineFault>
    requires { IsIdle engine.old }
    ensures made { IfOk result (λ made. made ≡ true → IsIdle engine.new) }
    ensures home { IfOk result (λ _. CanBeStopped engine.new) }
{
    engine.pass.reserve()?;
    permit_read(alloc, engine, op, reply)?;
    let answered = read(
        &engine.heap,
        &mut engine.region,
        &mut engine.pass,
        op,
        reply,
    );
    Ok(answered.is_ok())
}

/// Moves the clock on.
#[tactic(auto, using(crate::proofs::Calls::same_advancer))]
pub fn tick(engine: &mut Engine) -> Result<bool, LineFault>
    requires { IsIdle engine.old }
    ensures { IfOk result (λ _. IsIdle engine.new) }
{
    let advanced = engine.advancer.advance(&engine.heap, &mut engine.pass.gate);
    match advanced {
        Ok(_clock) => Ok(true),
        Err(AdvanceRefusal::Cut) => Ok(false),
        Err(AdvanceRefusal::NotYet { .. }) => Err(LineFault::Held),
        Err(AdvanceRefusal::ClockEnd) => Err(LineFault::NotAllowed),
    }
}

/// Closes what the durable clock lets be closed.
pub fn reclaim(engine: &mut Engine) -> bool
    requires { IsIdle engine.old }
{
    let reclaimed = engine.region.reclaim(&engine.heap, &mut engine.pass.gate);
    reclaimed.is_ok()
}

/// The caller loads the durable clock.
pub fn see_durable(engine: &mut Engine) -> bool
    requires { IsIdle engine.old }
    ensures { IsIdle engine.new }
{
    let seen = engine
        .heap
        .seen_durable(&mut engine.pass.ticket, &mut engine.pass.gate);
    seen.is_ok()
}
