// How a planned operation on each of two units is carried out, both at one epoch or neither. Each
// changes one record.
ghost use Rattle.std.specs.Prelude.{◌≡◌, ◌≤◌, ◌<◌, ◌+◌, [], ◌∷◌, ◌++◌, None, Some, IfOk, IfErr};
ghost use Rattle.mont_base.specs.declared.constants.TheConstants.{LAST};
ghost use Rattle.heap.specs.GateAsked.{IsAskedOften};
ghost use Rattle.heap_pass.specs.Spare.{spare_of};
ghost use Rattle.op_guard.specs.Regions.{IsReady};
ghost use Rattle.structure_call.specs.Planning.{first_at_end};
ghost use Rattle.slots.specs.Books.{IsRegionOf, Agrees};
ghost use Rattle.xfer.specs.Pairs.{unit_at_hand};
ghost use Rattle.shard_map.specs.PairCarrying.{IsPlanned, HasCarriedPair, LeavesPairUncarried, TellsUnbegun, cut_behind, receipts_kept, slot_first, was_cut};

use heap::Heap;
use heap_pass::Pass;
use mont_base::{Change, Epoch, Gate, Op, Receipt, Reply, Slot, Unit};
use slots::Region;
use std::sync::Wait;
use structure_call::take_note;
use xfer::{PairGuard, PairReceipt, PairRefusal, begin_pair, commit_pair, write_pair};

// An operation that changes one record, what it is answered, and the change.
#[derive(Clone, Copy)]
pub(crate) struct PlannedChange {
    pub(crate) op: Op,
    pub(crate) reply: Reply,
    pub(crate) change: Change,
}

// An operation that was carried out, and the slot of its record, if there is one.
#[derive(Clone, Copy)]
pub(crate) struct CarriedOne {
    pub(crate) receipt: Receipt,
    pub(crate) slot: Option<Slot>,
}

// Both operations were carried out.
#[derive(Clone, Copy)]
pub(crate) struct CarriedPair {
    pub(crate) low: CarriedOne,
    pub(crate) high: CarriedOne,
}

// Why one of them wasn't.
#[derive(Clone, Copy)]
pub(crate) enum PairUncarried {
    // Of this unit.
    Full {
        unit: Unit,
        need: u64,
        free: u64,
        clock: Epoch,
    },
    // In this unit, where that of the lower unit was carried out first or wasn't.
    Cut {
        unit: Unit,
        first: Option<CarriedOne>,
    },
}

// Carries a planned operation on each of two units out, and keeps the receipts in the pass.
//
// It may wait for the clock to stand still.
pub(crate) fn carry_out_pair<R: Wait, G: Gate>(
    rt: &R,
    heap: &Heap,
    low: &mut Region,
    high: &mut Region,
    pass: &mut Pass<G>,
    low_plan: &PlannedChange,
    high_plan: &PlannedChange,
) -> Result<CarriedPair, PairUncarried>
    requires low { IsReady heap.now low.old }
    requires high { IsReady heap.now high.old }
    requires order { low.old.books.unit < high.old.books.unit }
    requires pass { pass.old.ticket.table ≡ heap.now.table }
    requires spare { 2 ≤ spare_of pass.old.receipts }
    requires low_plan { IsPlanned low.old low_plan.now }
    requires high_plan { IsPlanned high.old high_plan.now }
    requires low_numbers { first_at_end pass.old.ticket.known.part low.old
        (low_plan.now.change ∷ []) ≡ None }
    requires high_numbers { first_at_end pass.old.ticket.known.part high.old
        (high_plan.now.change ∷ []) ≡ None }
    requires second { pass.old.ticket.known.part.calls + 1 ≤ LAST }
    ensures gate { IsAskedOften G.cuts G.endless pass.old.gate pass.new.gate (was_cut result) }
    ensures carried { IfOk result (λ both. HasCarriedPair heap.now low.old low.new high.old
        high.new pass.old.ticket pass.new.ticket low_plan.now high_plan.now both) }
    ensures receipts { IfOk result (λ both. pass.new.receipts.items
        ≡ pass.old.receipts.items ++ both.low.receipt ∷ both.high.receipt ∷ []) }
    ensures kept { IfErr result (λ why. pass.new.receipts.items
        ≡ pass.old.receipts.items ++ receipts_kept why) }
    ensures refused { IfErr result (λ why. LeavesPairUncarried heap.now low.old low.new high.old
        high.new pass.old.ticket pass.new.ticket low_plan.now why) }
{
    let mut guard = match begin_pair(rt, heap, low, high, pass) {
        Ok(guard) => guard,
        Err(why) => return Err(unbegun(why, heap, low, high, pass)),
    };
    let (low_change, high_change) = (&low_plan.change, &high_plan.change);
    if let Err(_cut) = write_pair(&mut guard, heap, low, high, low_change, high_change, pass) {
        return Err(PairUncarried::Cut {
            unit: spend(guard),
            first: None,
        });
    }
    let (low_slot, high_slot) = (slot_first(low), slot_first(high));
    let committed = commit_pair(
        guard,
        heap,
        low,
        high,
        pass,
        &low_plan.op,
        &low_plan.reply,
        &high_plan.op,
        &high_plan.reply,
    );
    match committed {
        Ok(receipts) => Ok(carried(receipts, low_slot, high_slot)),
        Err(cut) => Err(cut_behind(cut.first, low.unit(), high.unit(), low_slot)),
    }
}

// Why no operation was begun. Where a unit is full, of which the caller has taken a note, it takes
// one of the other.
fn unbegun<G: Gate>(
    why: PairRefusal,
    heap: &Heap,
    low: &mut Region,
    high: &mut Region,
    pass: &mut Pass<G>,
) -> PairUncarried
    requires low { IsRegionOf heap.now low.old × Agrees low.old }
    requires high { IsRegionOf heap.now high.old × Agrees high.old }
    requires pass { pass.old.ticket.table ≡ heap.now.table }
    ensures gate { pass.new.gate ≡ pass.old.gate }
    ensures receipts { pass.new.receipts ≡ pass.old.receipts }
    ensures told { TellsUnbegun heap.now low.old low.new high.old high.new pass.old.ticket
        pass.new.ticket why result }
{
    match why {
        PairRefusal::Full {
            unit,
            need,
            free,
            clock,
        } => {
            if unit == low.unit() {
                take_note(heap, high, pass);
            } else {
                take_note(heap, low, pass);
            }
            PairUncarried::Full {
                unit,
                need,
                free,
                clock,
            }
        }
        PairRefusal::Cut { unit } => PairUncarried::Cut { unit, first: None },
    }
}

// The cut while both units were to leave. Where the lower one had left, its operation was carried
// out.
fn cut_behind(first: Option<Receipt>, low: Unit, high: Unit, slot: Option<Slot>) -> PairUncarried
    ensures { result ≡ cut_behind first low high slot }
{
    match first {
        None => PairUncarried::Cut {
            unit: low,
            first: None,
        },
        Some(receipt) => PairUncarried::Cut {
            unit: high,
            first: Some(CarriedOne { receipt, slot }),
        },
    }
}

// The slot of the record that was written first, if there is one.
fn slot_first(region: &Region) -> Option<Slot>
    ensures { result ≡ slot_first region.now.books.written }
{
    match region.written().first() {
        Some(one) => Some(one.held.slot),
        None => None,
    }
}

// Both receipts with the slots of the records.
fn carried(receipts: PairReceipt, low: Option<Slot>, high: Option<Slot>) -> CarriedPair
    ensures { result ≡ record {
      low = record { receipt = receipts.low; slot = low };
      high = record { receipt = receipts.high; slot = high };
    } }
{
    CarriedPair {
        low: CarriedOne {
            receipt: receipts.low,
            slot: low,
        },
        high: CarriedOne {
            receipt: receipts.high,
            slot: high,
        },
    }
}

// Takes a guard apart after a cut, and answers the unit in which it fell.
fn spend(guard: PairGuard) -> Unit
    ensures { result ≡ unit_at_hand guard }
{
    let unit = guard.unit_at_hand();
    let PairGuard {
        low: _,
        high: _,
        by: _,
        epoch: _,
        written: _,
    } = guard;
    unit
}
