// Whether a region may make a call, decided by what its readers tell: a seat shows its part to
// proofs alone.
ghost use Rattle.std.specs.Prelude.{◌≡◌, ◌≤◌, false, map, IfOk, IsTrue, OnOk};
ghost use Rattle.mont_base.specs.declared.constants.TheConstants.{LAST};
ghost use Rattle.core_steps.specs.CallAnswers.{CanLeave, CanRead};
ghost use Rattle.slots.specs.declared.books.Written as one_written;
ghost use Rattle.slots.specs.Books.{Agrees};
ghost use Rattle.slots.specs.WrittenRecords.{CanPut, IsLiveAt, NamesLive, is_insert, serial_in};
ghost use Rattle.machine_cases.specs.Permits.{StandsFor};
ghost use Rattle.machine_cases.specs.Working.{IsIdle, IsOperating};

use crate::engine::Engine;
use crate::found_records::records_of;
use crate::line_fault::LineFault;
use core_answer::answering::{can_leave, can_read};
use core_steps::{CallerPart, UnitPart, UnitStage};
use heap::Ticket;
use mont_base::{Change, Held, Kind, LAST, Layout, Op, Reply, Sequence, Slot};
use op_guard::Guard;
use payload::newest_of;
use slots::{Region, Written};
use std::alloc::{AllocError, Global};

/// Refuses a change that the region can't write.
pub fn permit_change(
    alloc: Global,
    layout: Layout,
    region: &Region,
    change: &Change,
) -> Result<(), LineFault>
    requires agrees { Agrees region.now }
    requires layout { region.now.books.layout ≡ layout }
    ensures { OnOk result (CanPut region.now.books region.now.seat.known.part.records change.now) }
{
    let records = records_of(alloc, layout, region)?;
    if !names_live(&records, change) || ends_serial(change) {
        return Err(LineFault::NotAllowed);
    }
    match region.count_end(&[*change], false) {
        Some(_which) => Err(LineFault::NotAllowed),
        None => Ok(()),
    }
}

// Whether what the change supersedes is the live record of its identity.
fn names_live(records: &[Held], change: &Change) -> bool
    ensures { IsTrue result → NamesLive records.now change.now }
{
    match change {
        Change::Insert { .. } => true,
        Change::Replace { slot, identity, .. } => is_live_at(records, *slot, *identity),
        Change::Remove { slot, identity } => is_live_at(records, *slot, *identity),
    }
}

fn is_live_at(records: &[Held], slot: Slot, identity: u64) -> bool
    ensures { IsTrue result → IsLiveAt records.now slot identity }
{
    match newest_of(identity, records) {
        Some(newest) => newest.slot == slot && newest.label.kind != Kind::Delete,
        None => false,
    }
}

// Whether the first word of an insertion is no serial.
fn ends_serial(change: &Change) -> bool
    ensures { result ≡ false → IsTrue (is_insert change.now) → serial_in change.now ≤ LAST }
{
    match change {
        Change::Insert { body } => body[0] > LAST,
        Change::Replace { .. } | Change::Remove { .. } => false,
    }
}

/// Refuses an answer with which the unit can't leave its epoch.
pub fn permit_leave(
    alloc: Global,
    engine: &Engine,
    guard: &Guard,
    op: &Op,
    reply: &Reply,
) -> Result<(), LineFault>
    requires { IsOperating guard.now engine.now }
    ensures { OnOk result (CanLeave engine.now.heap.opening.layout engine.now.region.books.unit
        engine.now.region.seat.known.part engine.now.pass.ticket.known.part
        op.now reply.now guard.now.epoch) }
{
    let layout = engine.heap.layout();
    let epoch = guard.epoch;
    let part = part_of(alloc, layout, &engine.region, UnitStage::Within { epoch })?;
    let caller = caller_of(alloc, &engine.pass.ticket);
    let unit = engine.region.unit();
    permitted(can_leave(alloc, layout, unit, &part, &caller, op, reply)?)
}

/// Refuses an answer that isn't a read's.
pub fn permit_read(alloc: Global, engine: &Engine, op: &Op, reply: &Reply) -> Result<(), LineFault>
    requires { IsIdle engine.now }
    ensures { OnOk result (CanRead engine.now.heap.opening.layout engine.now.region.books.unit
        engine.now.region.seat.known.part engine.now.pass.ticket.known.part op.now reply.now) }
{
    let layout = engine.heap.layout();
    let part = part_of(alloc, layout, &engine.region, UnitStage::Idle)?;
    let caller = caller_of(alloc, &engine.pass.ticket);
    let unit = engine.region.unit();
    permitted(can_read(alloc, layout, unit, &part, &caller, op, reply)?)
}

fn permitted(may: bool) -> Result<(), LineFault>
    ensures { OnOk result (IsTrue may) }
{
    if may {
        Ok(())
    } else {
        Err(LineFault::NotAllowed)
    }
}

// A unit at this stage with the records of the region and what it has written. It has no entry:
// whether there is a number for one more is tested here.
fn part_of(
    alloc: Global,
    layout: Layout,
    region: &Region,
    stage: UnitStage,
) -> Result<UnitPart, LineFault>
    requires agrees { Agrees region.now }
    requires layout { region.now.books.layout ≡ layout }
    ensures { IfOk result (λ part. StandsFor stage region.now part) }
{
    if region.places() > LAST {
        return Err(LineFault::NotAllowed);
    }
    let records = records_of(alloc, layout, region)?;
    let written = held_of(alloc, region.written())?;
    Ok(UnitPart {
        stage,
        history: Sequence::new(alloc),
        records: Sequence::from_vec(records),
        retired: Sequence::new(alloc),
        written: Sequence::from_vec(written),
        writing: None,
        lost: Sequence::new(alloc),
        durable: 0,
        frozen: None,
    })
}

fn held_of(alloc: Global, written: &[Written]) -> Result<Vec<Held>, AllocError>
    ensures { IfOk result (λ v. v.items
        ≡ map (λ (w : one_written.Written). w.held) written.now) }
{
    let mut records = Vec::new(alloc);
    for one in written {
        records.push(one.held)?;
    }
    Ok(records)
}

// A caller with the calls and the newest epoch of the ticket.
fn caller_of(alloc: Global, ticket: &Ticket) -> CallerPart
    ensures calls { result.calls ≡ ticket.now.known.part.calls }
    ensures newest { result.newest ≡ ticket.now.known.part.newest }
{
    CallerPart {
        calls: ticket.calls(),
        receipts: Sequence::new(alloc),
        fronts: Sequence::new(alloc),
        synced: Sequence::new(alloc),
        newest: ticket.newest(),
        durable: 0,
        cuts: Sequence::new(alloc),
        marks: Sequence::new(alloc),
    }
}
