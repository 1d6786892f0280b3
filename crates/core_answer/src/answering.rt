// How a unit answers a caller: by leaving the epoch in which it has written, or by a read.
ghost use Rattle.std.specs.Prelude.{◌≡◌, ◌↔◌, [], length, IfOk, IsTrue, OnOk, OnErr};
ghost use Rattle.core_steps.specs.Stages.{epoch_of};
ghost use Rattle.core_steps.specs.CallAnswers.{HasNumbers, CanLeave, CanRead, entry_of, after_leave, after_read, after_answer};
ghost use Rattle.core_steps.specs.Events.{IsAllowed, after};
ghost use Rattle.core_answer.specs.Answering.{IsReadyToLeave, IsReadyToRead};

use crate::core_words::{clock, store};
use crate::judging::answers;
use crate::lists::{joined, shorten};
use crate::newest::Newest;
use crate::stages::{epoch_of, is_idle, is_unfrozen};
use crate::superseding::retired_by_all;
use crate::written::are_effects;
use core_steps::{CallerPart, Core, Event, UnitPart, UnitStage};
use mont_base::{Effect, Entry, Epoch, LAST, Layout, Op, Receipt, Reply, Sequence, Unit};
use std::alloc::{AllocError, Global};

/// Whether the unit may leave its epoch with this answer: what it has written are the effects of
/// the operation, and the reply is that of the state which its records show.
pub fn can_leave(
    alloc: Global,
    layout: Layout,
    unit: Unit,
    part: &UnitPart,
    caller: &CallerPart,
    op: &Op,
    reply: &Reply,
) -> Result<bool, AllocError>
    ensures { IfOk result (λ b. IsTrue b ↔ CanLeave layout unit part.now caller.now op.now reply.now
        (epoch_of part.now.stage)) }
{
    if !is_ready_to_leave(part, caller) {
        return Ok(false);
    }
    let newest = Newest::among(alloc, part.records.as_slice())?;
    match answers(alloc, layout, unit, &newest, op, reply)? {
        Some(effects) => Ok(are_effects(unit, &newest, &effects, part.written.as_slice())),
        None => Ok(false),
    }
}

fn is_ready_to_leave(part: &UnitPart, caller: &CallerPart) -> bool
    ensures { IsTrue result ↔ IsReadyToLeave part.now caller.now (epoch_of part.now.stage) }
{
    let UnitStage::Within { epoch } = part.stage else {
        return false;
    };
    if part.writing.is_some() || part.written.is_empty() {
        return false;
    }
    is_unfrozen(part) && has_numbers(part, caller) && caller.newest <= epoch
}

// Whether there are numbers for one more entry.
fn has_numbers(part: &UnitPart, caller: &CallerPart) -> bool
    ensures { IsTrue result ↔ HasNumbers part.now caller.now }
{
    part.history.len() <= LAST && caller.calls <= LAST
}

/// Whether the unit may answer so with a read: the operation changes nothing, and the reply is that
/// of the state which its records show.
pub fn can_read(
    alloc: Global,
    layout: Layout,
    unit: Unit,
    part: &UnitPart,
    caller: &CallerPart,
    op: &Op,
    reply: &Reply,
) -> Result<bool, AllocError>
    ensures { IfOk result (λ b. IsTrue b
        ↔ CanRead layout unit part.now caller.now op.now reply.now) }
{
    if !is_ready_to_read(part, caller) {
        return Ok(false);
    }
    let newest = Newest::among(alloc, part.records.as_slice())?;
    match answers(alloc, layout, unit, &newest, op, reply)? {
        Some(effects) => Ok(is_nothing(&effects)),
        None => Ok(false),
    }
}

fn is_nothing(effects: &[Effect]) -> bool
    ensures { IsTrue result ↔ (effects.now ≡ []) }
{
    effects.is_empty()
}

fn is_ready_to_read(part: &UnitPart, caller: &CallerPart) -> bool
    ensures { IsTrue result ↔ IsReadyToRead part.now caller.now }
{
    is_unfrozen(part) && part.stage == UnitStage::Idle && has_numbers(part, caller)
}

/// The unit leaves its epoch: what it has written becomes records, what that supersedes retires,
/// and the caller has its answer.
pub fn leave(
    alloc: Global,
    core: &mut Core,
    unit: Unit,
    caller: u64,
    op: &Op,
    reply: &Reply,
) -> Result<(), AllocError>
    requires { IsAllowed core.old (Event.Leave unit caller op.now reply.now) }
    ensures ok { OnOk result
        (core.new ≡ after core.old (Event.Leave unit caller op.now reply.now)) }
    ensures err { OnErr result (core.new ≡ core.old) }
{
    if unit >= core.units.len() || caller >= core.callers.len() {
        return Ok(());
    }
    let part = core.units.item_mut(unit);
    let of_caller = core.callers.item_mut(caller);
    let entry = entry_of(caller, of_caller, op, reply, epoch_of(part.stage));
    leave_with(alloc, part, of_caller, unit, &entry)?;
    store(&mut core.told, unit, 0);
    Ok(())
}

/// The caller has its answer, and nothing else changes.
pub fn read(
    alloc: Global,
    core: &mut Core,
    unit: Unit,
    caller: u64,
    op: &Op,
    reply: &Reply,
) -> Result<(), AllocError>
    requires { IsAllowed core.old (Event.Read unit caller op.now reply.now) }
    ensures ok { OnOk result
        (core.new ≡ after core.old (Event.Read unit caller op.now reply.now)) }
    ensures err { OnErr result (core.new ≡ core.old) }
{
    if unit >= core.units.len() || caller >= core.callers.len() {
        return Ok(());
    }
    let clock = clock(core);
    let part = core.units.item_mut(unit);
    let of_caller = core.callers.item_mut(caller);
    let entry = entry_of(caller, of_caller, op, reply, clock);
    answer(alloc, part, of_caller, unit, &entry)
}

fn entry_of(caller: u64, part: &CallerPart, op: &Op, reply: &Reply, epoch: Epoch) -> Entry
    ensures { result ≡ entry_of caller part.now op.now reply.now epoch }
{
    Entry {
        caller,
        call: part.calls,
        op: *op,
        reply: *reply,
        epoch,
    }
}

// What was written becomes records, what it supersedes retires, and the caller has the answer.
fn leave_with(
    alloc: Global,
    part: &mut UnitPart,
    caller: &mut CallerPart,
    unit: Unit,
    entry: &Entry,
) -> Result<(), AllocError>
    requires { HasNumbers part.old caller.old }
    ensures unit { OnOk result (part.new ≡ after_leave part.old entry.now) }
    ensures caller { OnOk result
        (caller.new ≡ after_answer caller.old unit (length part.old.history) entry.now) }
    ensures unit_kept { OnErr result (part.new ≡ part.old) }
    ensures caller_kept { OnErr result (caller.new ≡ caller.old) }
{
    let newest = Newest::among(alloc, part.records.as_slice())?;
    let retiring = retired_by_all(alloc, &newest, part.written.as_slice())?;
    let records = joined(alloc, part.records.as_slice(), part.written.as_slice())?;
    let retired = joined(alloc, part.retired.as_slice(), &retiring)?;
    answer(alloc, part, caller, unit, entry)?;
    part.stage = UnitStage::Idle;
    part.records = records;
    part.retired = retired;
    part.written = Sequence::new(alloc);
    Ok(())
}

// Adds an entry to the unit's history, and its receipt to the caller's, who has seen it then.
fn answer(
    alloc: Global,
    part: &mut UnitPart,
    caller: &mut CallerPart,
    unit: Unit,
    entry: &Entry,
) -> Result<(), AllocError>
    requires { HasNumbers part.old caller.old }
    ensures unit { OnOk result (part.new ≡ after_read part.old entry.now) }
    ensures caller { OnOk result
        (caller.new ≡ after_answer caller.old unit (length part.old.history) entry.now) }
    ensures unit_kept { OnErr result (part.new ≡ part.old) }
    ensures caller_kept { OnErr result (caller.new ≡ caller.old) }
{
    let place = part.history.len();
    let receipts = caller.receipts.len();
    caller.receipts.push(Receipt {
        unit,
        place,
        entry: *entry,
    })?;
    if let Err(error) = part.history.push(*entry) {
        shorten(alloc, &mut caller.receipts, receipts);
        return Err(error);
    }
    caller.calls += 1;
    store(&mut caller.fronts, unit, place + 1);
    caller.newest = entry.epoch;
    Ok(())
}
