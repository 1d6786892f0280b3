// How an operation's changes are written, and how one is given up that has none.
ghost use Rattle.std.specs.Prelude.{◌≡◌, ◌<◌, IfOk, OnOk, OnErr, is_err};
ghost use Rattle.heap.specs.GateAsked.{IsAskedOften};
ghost use Rattle.slots.specs.WrittenRecords.{CanPut};
ghost use Rattle.op_guard.specs.Regions.{IsUnderWay, KeepsStage, WasHalted};
ghost use Rattle.op_guard.specs.Guarding.{HasChanged, WentBack};

use crate::guard::Guard;
use crate::halting::or_halt;
use heap::Heap;
use heap_pass::Pass;
use mont_base::{Change, Cut, Gate, Slot};
use slots::Region;

/// Writes the record of one change, and answers its slot.
pub fn change<G: Gate>(
    guard: &mut Guard,
    heap: &Heap,
    region: &mut Region,
    change: &Change,
    pass: &mut Pass<G>,
) -> Result<Slot, Cut>
    requires under_way { IsUnderWay heap.now guard.old region.old }
    requires needed { guard.old.written < guard.old.need }
    requires pass { pass.old.ticket.table ≡ heap.now.table }
    requires by { guard.old.by ≡ pass.old.ticket.known.caller }
    requires may { CanPut region.old.books region.old.seat.known.part.records change.now }
    ensures gate { IsAskedOften G.cuts G.endless pass.old.gate pass.new.gate (is_err result) }
    ensures receipts { pass.new.receipts ≡ pass.old.receipts }
    ensures changed { IfOk result (λ slot. HasChanged heap.now region.old region.new guard.old
        guard.new change.now slot) }
    ensures same { OnErr result (guard.new ≡ guard.old) }
    ensures caller { OnOk result (pass.new.ticket ≡ pass.old.ticket) }
    ensures cut { OnErr result (WasHalted heap.now region.old region.new pass.old.ticket
        pass.new.ticket) }
    ensures stage { OnErr result (KeepsStage region.old region.new) }
{
    let put = region.put_record(heap, change, guard.epoch, &mut pass.gate);
    let slot = or_halt(put, heap, region, &mut pass.ticket)?;
    guard.written += 1;
    Ok(slot)
}

/// Gives up an operation of which nothing is written.
pub fn abandon<G: Gate>(
    guard: Guard,
    heap: &Heap,
    region: &mut Region,
    pass: &mut Pass<G>,
) -> Result<(), Cut>
    requires under_way { IsUnderWay heap.now guard region.old }
    requires nothing { guard.written ≡ 0 }
    requires pass { pass.old.ticket.table ≡ heap.now.table }
    requires by { guard.by ≡ pass.old.ticket.known.caller }
    ensures gate { IsAskedOften G.cuts G.endless pass.old.gate pass.new.gate (is_err result) }
    ensures receipts { pass.new.receipts ≡ pass.old.receipts }
    ensures back { OnOk result (WentBack heap.now region.old region.new) }
    ensures caller { OnOk result (pass.new.ticket ≡ pass.old.ticket) }
    ensures cut { OnErr result (WasHalted heap.now region.old region.new pass.old.ticket
        pass.new.ticket) }
{
    let Guard {
        unit: _,
        by: _,
        epoch: _,
        need: _,
        written: _,
    } = guard;
    let withdrawn = heap.withdraw(region.seat_mut(), &mut pass.gate);
    or_halt(withdrawn, heap, region, &mut pass.ticket)
}
