// How the records of both units are written.
ghost use Rattle.std.specs.Prelude.{◌≡◌, ℕ, OnOk, OnErr, is_err};
ghost use Rattle.heap.specs.GateAsked.{IsAskedOften};
ghost use Rattle.slots.specs.WrittenRecords.{CanPut};
ghost use Rattle.op_guard.specs.Guarding.{HasChanged};
ghost use Rattle.op_guard.specs.Regions.{IsUnderWay, KeepsStage, WasHalted};
ghost use Rattle.xfer.specs.Pairs.{IsPairUnderWay, WereCutBehind, half_of};
ghost use Rattle.xfer.specs.PairEnding.{HasWrittenPair};

use crate::pair_guard::{PairGuard, spend};
use heap::Heap;
use heap_pass::Pass;
use mont_base::{Change, Cut, Epoch, Gate, Unit};
use op_guard::{Guard, change, halt};
use slots::Region;

/// Writes the record of one change in each unit, in the lower one first.
///
/// A cut halts both units; the guard then tells in which of them it fell.
pub fn write_pair<G: Gate>(
    guard: &mut PairGuard,
    heap: &Heap,
    low: &mut Region,
    high: &mut Region,
    low_change: &Change,
    high_change: &Change,
    pass: &mut Pass<G>,
) -> Result<(), Cut>
    requires under_way { IsPairUnderWay heap.now guard.old low.old high.old }
    requires nothing { guard.old.written ≡ 0 }
    requires pass { pass.old.ticket.table ≡ heap.now.table }
    requires by { guard.old.by ≡ pass.old.ticket.known.caller }
    requires low_may { CanPut low.old.books low.old.seat.known.part.records low_change.now }
    requires high_may { CanPut high.old.books high.old.seat.known.part.records high_change.now }
    ensures gate { IsAskedOften G.cuts G.endless pass.old.gate pass.new.gate (is_err result) }
    ensures receipts { pass.new.receipts ≡ pass.old.receipts }
    ensures written { OnOk result (HasWrittenPair heap.now low.old low.new high.old high.new
        guard.old guard.new low_change.now high_change.now) }
    ensures caller { OnOk result (pass.new.ticket ≡ pass.old.ticket) }
    ensures guard { OnErr result (guard.new
        ≡ record guard.old { written = guard.new.written }) }
    ensures cut { OnErr result (WereCutBehind heap.now guard.new.written low.old low.new high.old
        high.new pass.old.ticket pass.new.ticket) }
    ensures stage { OnErr result (KeepsStage low.old low.new × KeepsStage high.old high.new) }
{
    let (by, epoch) = (guard.by, guard.epoch);
    if let Err(cut) = write_one(guard.low, by, epoch, heap, low, low_change, pass) {
        halt(heap, high, &mut pass.ticket);
        return Err(cut);
    }
    guard.written = 1;
    if let Err(cut) = write_one(guard.high, by, epoch, heap, high, high_change, pass) {
        halt(heap, low, &mut pass.ticket);
        return Err(cut);
    }
    guard.written = 2;
    Ok(())
}

// Writes the record of one change in a unit of the two.
fn write_one<G: Gate>(
    unit: Unit,
    by: u64,
    epoch: Epoch,
    heap: &Heap,
    region: &mut Region,
    one: &Change,
    pass: &mut Pass<G>,
) -> Result<(), Cut>
    requires under_way { IsUnderWay heap.now (half_of unit by epoch 0) region.old }
    requires pass { pass.old.ticket.table ≡ heap.now.table }
    requires by { by ≡ pass.old.ticket.known.caller }
    requires may { CanPut region.old.books region.old.seat.known.part.records one.now }
    ensures gate { IsAskedOften G.cuts G.endless pass.old.gate pass.new.gate (is_err result) }
    ensures receipts { pass.new.receipts ≡ pass.old.receipts }
    ensures written { OnOk result ((slot : ℕ) × HasChanged heap.now region.old region.new
        (half_of unit by epoch 0) (half_of unit by epoch 1) one.now slot) }
    ensures caller { OnOk result (pass.new.ticket ≡ pass.old.ticket) }
    ensures cut { OnErr result (WasHalted heap.now region.old region.new pass.old.ticket
        pass.new.ticket) }
    ensures stage { OnErr result (KeepsStage region.old region.new) }
{
    let mut guard = Guard {
        unit,
        by,
        epoch,
        need: 1,
        written: 0,
    };
    let written = change(&mut guard, heap, region, one, pass);
    spend(guard);
    written?;
    Ok(())
}
