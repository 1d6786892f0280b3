// A unit leaves its epoch, and what is kept of its newest records goes along.
ghost use Rattle.std.specs.Prelude.{◌≡◌, ◌++◌, List, length, OnOk};
ghost use Rattle.std.specs.BTreeMap.{values};
ghost use Rattle.mont_base.specs.declared.record.Held.{Held};
ghost use Rattle.mont_laws.specs.Retiring.{retired_by, retired_by_all};
ghost use Rattle.core_steps.specs.CallAnswers.{HasNumbers, entry_of, after_leave, after_read, after_answer};
ghost use Rattle.core_steps.specs.Events.{IsAllowed, after};
ghost use Rattle.core_answer.specs.Newest.{HaveSameNewest};
ghost use Rattle.replay.specs.NewestBeside.{IsKeptOf};

use crate::newest_kept::NewestKept;
use core_answer::core_words::store;
use core_answer::stages::epoch_of;
use core_steps::{CallerPart, Core, Event, Retired, UnitPart, UnitStage};
use mont_base::{Entry, Epoch, Held, Kind, Op, Receipt, Reply, Sequence, Unit};
use std::alloc::{AllocError, Global};

/// The unit leaves its epoch: what it has written becomes records, what that supersedes retires,
/// and the caller has its answer. The newest records are those after it.
pub fn leave(
    alloc: Global,
    core: &mut Core,
    newest: &mut NewestKept,
    unit: Unit,
    caller: u64,
    op: &Op,
    reply: &Reply,
) -> Result<(), AllocError>
    requires allowed { IsAllowed core.old (Event.Leave unit caller op.now reply.now) }
    requires newest { IsKeptOf (values newest.old.records) core.old.units unit }
    ensures ok { OnOk result
        (core.new ≡ after core.old (Event.Leave unit caller op.now reply.now)) }
    ensures newest { OnOk result (IsKeptOf (values newest.new.records) core.new.units unit) }
{
    if unit >= core.units.len() || caller >= core.callers.len() {
        return Ok(());
    }
    let part = core.units.item_mut(unit);
    let of_caller = core.callers.item_mut(caller);
    let entry = entry_of(caller, of_caller, op, reply, epoch_of(part.stage));
    leave_with(alloc, part, of_caller, newest, unit, &entry)?;
    store(&mut core.told, unit, 0);
    Ok(())
}

fn entry_of(caller: u64, part: &CallerPart, op: &Op, reply: &Reply, epoch: Epoch) -> Entry
    ensures { result ≡ entry_of caller part.now op.now reply.now epoch }
{
    Entry {
        caller,
        call: part.calls,
        op: *op,
        reply: *reply,
        epoch,
    }
}

fn leave_with(
    alloc: Global,
    part: &mut UnitPart,
    caller: &mut CallerPart,
    newest: &mut NewestKept,
    unit: Unit,
    entry: &Entry,
) -> Result<(), AllocError>
    requires numbers { HasNumbers part.old caller.old }
    requires newest { HaveSameNewest (values newest.old.records) part.old.records }
    ensures unit { OnOk result (part.new ≡ after_leave part.old entry.now) }
    ensures caller { OnOk result
        (caller.new ≡ after_answer caller.old unit (length part.old.history) entry.now) }
    ensures newest { OnOk result (HaveSameNewest (values newest.new.records) part.new.records) }
{
    retire_all(&mut part.retired, newest, part.written.as_slice())?;
    keep_all(newest, part.written.as_slice())?;
    push_all(&mut part.records, part.written.as_slice())?;
    part.written = Sequence::new(alloc);
    part.stage = UnitStage::Idle;
    answer(part, caller, unit, entry)
}

// Adds an entry to the unit's history, and its receipt to the caller's, who has seen it then.
fn answer(
    part: &mut UnitPart,
    caller: &mut CallerPart,
    unit: Unit,
    entry: &Entry,
) -> Result<(), AllocError>
    requires { HasNumbers part.old caller.old }
    ensures unit { OnOk result (part.new ≡ after_read part.old entry.now) }
    ensures caller { OnOk result
        (caller.new ≡ after_answer caller.old unit (length part.old.history) entry.now) }
{
    let place = part.history.len();
    caller.receipts.push(Receipt {
        unit,
        place,
        entry: *entry,
    })?;
    part.history.push(*entry)?;
    caller.calls += 1;
    store(&mut caller.fronts, unit, place + 1);
    caller.newest = entry.epoch;
    Ok(())
}

// Adds what written records retire of the newest records before them, in the order of closing.
fn retire_all(
    retired: &mut Sequence<Retired>,
    newest: &NewestKept,
    written: &[Held],
) -> Result<(), AllocError>
    ensures { OnOk result (retired.new
        ≡ retired.old ++ retired_by_all (values newest.now.records) written.now) }
{
    for held in written {
        retire(retired, newest.get(held.label.identity), held)?;
    }
    Ok(())
}

// Adds the version before a record, and an anti-payload itself after its victim.
fn retire(
    retired: &mut Sequence<Retired>,
    victim: Option<Held>,
    held: &Held,
) -> Result<(), AllocError>
    ensures { OnOk result (retired.new ≡ retired.old ++ retired_by victim held.now) }
{
    let Some(victim) = victim else {
        return Ok(());
    };
    let epoch = held.label.epoch;
    retired.push(Retired {
        slot: victim.slot,
        epoch,
    })?;
    if held.label.kind == Kind::Delete {
        retired.push(Retired {
            slot: held.slot,
            epoch,
        })?;
    }
    Ok(())
}

// Keeps the newest among the records and those that are written after them.
fn keep_all(newest: &mut NewestKept, written: &[Held]) -> Result<(), AllocError>
    ensures { OnOk result ((records : List Held)
        → HaveSameNewest (values newest.old.records) records
        → HaveSameNewest (values newest.new.records) (records ++ written.now)) }
{
    for held in written {
        newest.keep(held)?;
    }
    Ok(())
}

// Adds records after others.
fn push_all(records: &mut Sequence<Held>, written: &[Held]) -> Result<(), AllocError>
    ensures { OnOk result (records.new ≡ records.old ++ written.now) }
{
    for held in written {
        records.push(*held)?;
    }
    Ok(())
}
