// An operation that changes nothing.
ghost use Rattle.std.specs.Prelude.{◌≡◌, ◌≤◌, ◌+◌, [], ◌∷◌, ◌++◌, IfOk, OnOk, OnErr, is_err};
ghost use Rattle.core_steps.specs.CallAnswers.{CanRead};
ghost use Rattle.heap.specs.GateAsked.{IsAskedOften};
ghost use Rattle.heap_pass.specs.KeptReceipt.{KeepsReceipt};
ghost use Rattle.heap_pass.specs.Spare.{spare_of};
ghost use Rattle.op_guard.specs.Answered.{HasRead};
ghost use Rattle.op_guard.specs.Regions.{IsReady, WasHalted};

use crate::answer_place::{answer_place, keep};
use crate::halting::or_halt;
use heap::Heap;
use heap_pass::{Pass, last_receipt};
use mont_base::{Cut, Gate, Op, Receipt, Reply};
use slots::Region;

/// Answers a caller with what changes nothing, and keeps the receipt in the pass. The entry's epoch
/// is the clock.
#[inline(always)]
pub fn keep_read<G: Gate>(
    heap: &Heap,
    region: &mut Region,
    pass: &mut Pass<G>,
    op: &Op,
    reply: &Reply,
) -> Result<(), Cut>
    requires ready { IsReady heap.now region.old }
    requires pass { pass.old.ticket.table ≡ heap.now.table }
    requires spare { 1 ≤ spare_of pass.old.receipts }
    requires may { CanRead heap.now.opening.layout region.old.books.unit
        region.old.seat.known.part pass.old.ticket.known.part op.now reply.now }
    ensures gate { IsAskedOften G.cuts G.endless pass.old.gate pass.new.gate (is_err result) }
    ensures read { OnOk result (KeepsReceipt pass.old.receipts.items pass.new.receipts.items
        (HasRead heap.now region.old region.new pass.old.ticket pass.new.ticket op.now
        reply.now)) }
    ensures spare { OnOk result (spare_of pass.new.receipts + 1
        ≡ spare_of pass.old.receipts) }
    ensures kept { OnErr result (pass.new.receipts ≡ pass.old.receipts) }
    ensures cut { OnErr result (WasHalted heap.now region.old region.new pass.old.ticket
        pass.new.ticket) }
{
    let place = answer_place(region, &pass.ticket);
    let answered = heap.read_epoch(
        region.seat_mut(),
        &mut pass.ticket,
        op,
        reply,
        &mut pass.gate,
    );
    let epoch = or_halt(answered, heap, region, &mut pass.ticket)?;
    keep(region, &mut pass.receipts, place, op, reply, epoch);
    Ok(())
}

/// The same as `keep_read`, and answers a copy of the receipt.
pub fn read<G: Gate>(
    heap: &Heap,
    region: &mut Region,
    pass: &mut Pass<G>,
    op: &Op,
    reply: &Reply,
) -> Result<Receipt, Cut>
    requires ready { IsReady heap.now region.old }
    requires pass { pass.old.ticket.table ≡ heap.now.table }
    requires spare { 1 ≤ spare_of pass.old.receipts }
    requires may { CanRead heap.now.opening.layout region.old.books.unit
        region.old.seat.known.part pass.old.ticket.known.part op.now reply.now }
    ensures gate { IsAskedOften G.cuts G.endless pass.old.gate pass.new.gate (is_err result) }
    ensures read { IfOk result (λ receipt. HasRead heap.now region.old region.new
        pass.old.ticket pass.new.ticket op.now reply.now receipt) }
    ensures receipts { IfOk result (λ receipt. pass.new.receipts.items
        ≡ pass.old.receipts.items ++ receipt ∷ []) }
    ensures spare { OnOk result (spare_of pass.new.receipts + 1
        ≡ spare_of pass.old.receipts) }
    ensures kept { OnErr result (pass.new.receipts ≡ pass.old.receipts) }
    ensures cut { OnErr result (WasHalted heap.now region.old region.new pass.old.ticket
        pass.new.ticket) }
{
    keep_read(heap, region, pass, op, reply)?;
    Ok(last_receipt(&pass.receipts))
}
