// How an operation ends: its slots are listed for the advancer, and the unit leaves with one entry.
ghost use Rattle.std.specs.Prelude.{◌≡◌, ◌≤◌, ◌+◌, [], ◌∷◌, ◌++◌, IfOk, OnOk, OnErr, is_err};
ghost use Rattle.core_steps.specs.CallAnswers.{CanLeave};
ghost use Rattle.heap.specs.GateAsked.{IsAskedOften};
ghost use Rattle.heap_pass.specs.KeptReceipt.{KeepsReceipt};
ghost use Rattle.heap_pass.specs.Spare.{spare_of};
ghost use Rattle.op_guard.specs.Answered.{HasCommitted};
ghost use Rattle.op_guard.specs.Regions.{IsUnderWay, KeepsStage, WasHalted};

use crate::answer_place::{answer_place, keep};
use crate::guard::Guard;
use crate::halting::or_halt;
use heap::Heap;
use heap_pass::{Pass, last_receipt};
use mont_base::{Cut, Gate, Op, Receipt, Reply};
use slots::Region;

/// Ends an operation whose changes are all written: the unit leaves its epoch with one entry, and
/// the pass keeps the receipt.
pub fn keep_commit<G: Gate>(
    guard: Guard,
    heap: &Heap,
    region: &mut Region,
    pass: &mut Pass<G>,
    op: &Op,
    reply: &Reply,
) -> Result<(), Cut>
    requires under_way { IsUnderWay heap.now guard region.old }
    requires pass { pass.old.ticket.table ≡ heap.now.table }
    requires by { guard.by ≡ pass.old.ticket.known.caller }
    requires spare { 1 ≤ spare_of pass.old.receipts }
    requires may { CanLeave heap.now.opening.layout region.old.books.unit
        region.old.seat.known.part pass.old.ticket.known.part op.now reply.now guard.epoch }
    ensures gate { IsAskedOften G.cuts G.endless pass.old.gate pass.new.gate (is_err result) }
    ensures committed { OnOk result (KeepsReceipt pass.old.receipts.items
        pass.new.receipts.items (HasCommitted heap.now region.old region.new pass.old.ticket
        pass.new.ticket op.now reply.now guard.epoch)) }
    ensures spare { OnOk result (spare_of pass.new.receipts + 1
        ≡ spare_of pass.old.receipts) }
    ensures kept { OnErr result (pass.new.receipts ≡ pass.old.receipts) }
    ensures cut { OnErr result (WasHalted heap.now region.old region.new pass.old.ticket
        pass.new.ticket) }
    ensures stage { OnErr result (KeepsStage region.old region.new) }
{
    let Guard {
        unit: _,
        by: _,
        epoch: _,
        need: _,
        written: _,
    } = guard;
    let place = answer_place(region, &pass.ticket);
    region.list_written(heap);
    let left = heap.leave_epoch(
        region.seat_mut(),
        &mut pass.ticket,
        op,
        reply,
        &mut pass.gate,
    );
    let epoch = or_halt(left, heap, region, &mut pass.ticket)?;
    keep(region, &mut pass.receipts, place, op, reply, epoch);
    Ok(())
}

/// The same as `keep_commit`, and answers a copy of the receipt.
pub fn commit<G: Gate>(
    guard: Guard,
    heap: &Heap,
    region: &mut Region,
    pass: &mut Pass<G>,
    op: &Op,
    reply: &Reply,
) -> Result<Receipt, Cut>
    requires under_way { IsUnderWay heap.now guard region.old }
    requires pass { pass.old.ticket.table ≡ heap.now.table }
    requires by { guard.by ≡ pass.old.ticket.known.caller }
    requires spare { 1 ≤ spare_of pass.old.receipts }
    requires may { CanLeave heap.now.opening.layout region.old.books.unit
        region.old.seat.known.part pass.old.ticket.known.part op.now reply.now guard.epoch }
    ensures gate { IsAskedOften G.cuts G.endless pass.old.gate pass.new.gate (is_err result) }
    ensures committed { IfOk result (λ receipt. HasCommitted heap.now region.old region.new
        pass.old.ticket pass.new.ticket op.now reply.now guard.epoch receipt) }
    ensures receipts { IfOk result (λ receipt. pass.new.receipts.items
        ≡ pass.old.receipts.items ++ receipt ∷ []) }
    ensures spare { OnOk result (spare_of pass.new.receipts + 1
        ≡ spare_of pass.old.receipts) }
    ensures kept { OnErr result (pass.new.receipts ≡ pass.old.receipts) }
    ensures cut { OnErr result (WasHalted heap.now region.old region.new pass.old.ticket
        pass.new.ticket) }
    ensures stage { OnErr result (KeepsStage region.old region.new) }
{
    keep_commit(guard, heap, region, pass, op, reply)?;
    Ok(last_receipt(&pass.receipts))
}
