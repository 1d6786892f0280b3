// How a planned operation is carried out: one step where it changes nothing, else the steps of a
// guard.
ghost use Rattle.std.specs.Prelude.{◌≡◌, ◌≤◌, ◌+◌, [], length, None, IfOk, OnOk, IfErr, OnErr, is_err};
ghost use Rattle.heap.specs.GateAsked.{IsAskedOften};
ghost use Rattle.heap_pass.specs.Spare.{spare_of};
ghost use Rattle.slots.specs.Books.{Agrees};
ghost use Rattle.op_guard.specs.Regions.{IsReady, IsUnderWay, WasHalted};
ghost use Rattle.structure_call.specs.Planning.{IsPlan, first_at_end};
ghost use Rattle.structure_call.specs.Standing.{IsStanding};
ghost use Rattle.heap_pass.specs.KeptReceipt.{KeepsReceipt};
ghost use Rattle.structure_call.specs.Carrying.{CanPutAll, HasWrittenAll, LeavesUncarried};
ghost use Rattle.structure_call.specs.Calling.{HasCarriedOut, was_cut};

use crate::refusing::{or_cut, or_refused};
use heap::Heap;
use heap_pass::Pass;
use mont_base::{CallRefusal, Change, Cut, Gate, Op, Reply, Slot};
use op_guard::{Guard, begin, change, keep_commit, keep_read};
use slots::Region;
use std::sync::Wait;

/// Carries a planned operation out, keeps the receipt in the pass, and answers the slot of the last
/// change, if there was one.
///
/// It may wait for the clock to stand still.
pub fn carry_out<R: Wait, G: Gate>(
    rt: &R,
    heap: &Heap,
    region: &mut Region,
    pass: &mut Pass<G>,
    op: &Op,
    reply: &Reply,
    changes: &[Change],
) -> Result<Option<Slot>, CallRefusal>
    requires ready { IsReady heap.now region.old }
    requires pass { pass.old.ticket.table ≡ heap.now.table }
    requires spare { 1 ≤ spare_of pass.old.receipts }
    requires plan { IsPlan region.old op.now reply.now changes.now }
    requires numbers { first_at_end pass.old.ticket.known.part region.old changes.now ≡ None }
    ensures gate { IsAskedOften G.cuts G.endless pass.old.gate pass.new.gate (was_cut result) }
    ensures carried { IfOk result (λ slot. KeepsReceipt pass.old.receipts.items
        pass.new.receipts.items (HasCarriedOut heap.now region.old region.new pass.old.ticket
        pass.new.ticket op.now reply.now changes.now slot)) }
    ensures spare { OnOk result (spare_of pass.new.receipts + 1 ≡ spare_of pass.old.receipts) }
    ensures kept { OnErr result (pass.new.receipts ≡ pass.old.receipts) }
    ensures refused { IfErr result (λ why. LeavesUncarried heap.now region.old region.new
        pass.old.ticket pass.new.ticket (length changes.now) why) }
    ensures agrees { Agrees region.new }
    ensures stands { IsStanding heap.now region.new }
{
    if changes.is_empty() {
        answer(heap, region, pass, op, reply)?;
        return Ok(None);
    }
    let unit = region.unit();
    let begun = begin(rt, heap, region, changes.len() as u64, pass);
    let guard = or_refused(begun, unit)?;
    let written = write_all(guard, heap, region, changes, pass);
    let (guard, slot) = or_cut(written, unit)?;
    match keep_commit(guard, heap, region, pass, op, reply) {
        Ok(()) => Ok(slot),
        Err(_) => Err(CallRefusal::Cut { unit }),
    }
}

/// Carries a planned operation out that changes nothing, as one step, and keeps the receipt in the
/// pass.
#[inline(always)]
pub fn answer<G: Gate>(
    heap: &Heap,
    region: &mut Region,
    pass: &mut Pass<G>,
    op: &Op,
    reply: &Reply,
) -> Result<(), CallRefusal>
    requires ready { IsReady heap.now region.old }
    requires pass { pass.old.ticket.table ≡ heap.now.table }
    requires spare { 1 ≤ spare_of pass.old.receipts }
    requires plan { IsPlan region.old op.now reply.now [] }
    requires numbers { first_at_end pass.old.ticket.known.part region.old [] ≡ None }
    ensures gate { IsAskedOften G.cuts G.endless pass.old.gate pass.new.gate (was_cut result) }
    ensures carried { OnOk result (KeepsReceipt pass.old.receipts.items pass.new.receipts.items
        (HasCarriedOut heap.now region.old region.new pass.old.ticket pass.new.ticket op.now
        reply.now [] None)) }
    ensures spare { OnOk result (spare_of pass.new.receipts + 1 ≡ spare_of pass.old.receipts) }
    ensures kept { OnErr result (pass.new.receipts ≡ pass.old.receipts) }
    ensures refused { IfErr result (λ why. LeavesUncarried heap.now region.old region.new
        pass.old.ticket pass.new.ticket 0 why) }
    ensures agrees { Agrees region.new }
    ensures stands { IsStanding heap.now region.new }
{
    match keep_read(heap, region, pass, op, reply) {
        Ok(()) => Ok(()),
        Err(_) => Err(CallRefusal::Cut {
            unit: region.unit(),
        }),
    }
}

// Writes the record of each change, in their order, and answers the slot of the last one with the
// guard. After a cut the guard is spent.
fn write_all<G: Gate>(
    mut guard: Guard,
    heap: &Heap,
    region: &mut Region,
    changes: &[Change],
    pass: &mut Pass<G>,
) -> Result<(Guard, Option<Slot>), Cut>
    requires under_way { IsUnderWay heap.now guard region.old }
    requires needed { guard.written + length changes.now ≤ guard.need }
    requires pass { pass.old.ticket.table ≡ heap.now.table }
    requires by { guard.by ≡ pass.old.ticket.known.caller }
    requires may { CanPutAll region.old.books region.old.seat.known.part.records changes.now }
    ensures gate { IsAskedOften G.cuts G.endless pass.old.gate pass.new.gate (is_err result) }
    ensures receipts { pass.new.receipts ≡ pass.old.receipts }
    ensures written { IfOk result (λ done. HasWrittenAll heap.now region.old region.new guard
        done.0 changes.now done.1) }
    ensures caller { OnOk result (pass.new.ticket ≡ pass.old.ticket) }
    ensures cut { OnErr result (WasHalted heap.now region.old region.new pass.old.ticket
        pass.new.ticket) }
{
    let mut slot = None;
    for one in changes {
        match change(&mut guard, heap, region, one, pass) {
            Ok(written) => slot = Some(written),
            Err(cut) => {
                spend(guard);
                return Err(cut);
            }
        }
    }
    Ok((guard, slot))
}

// Takes a guard apart whose unit was halted.
fn spend(guard: Guard) {
    let Guard {
        unit: _,
        by: _,
        epoch: _,
        need: _,
        written: _,
    } = guard;
}
