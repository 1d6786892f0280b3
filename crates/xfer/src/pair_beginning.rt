// How an operation of two units begins: room is made in both, and they register at one epoch.
ghost use Rattle.std.specs.Prelude.{◌≡◌, ◌<◌, IfOk, OnOk, IfErr};
ghost use Rattle.heap.specs.GateAsked.{IsAskedOften};
ghost use Rattle.op_guard.specs.Guarding.{HasLearntOf};
ghost use Rattle.op_guard.specs.Regions.{IsReady};
ghost use Rattle.xfer.specs.PairBeginning.{HasFreeSlot, HasBegunPair, HasRoomIn, HasTriedPair, HalvesRefusal, LeavesPairRefused, WasPairCut, was_cut};

use crate::pair_guard::{PairGuard, PairRefusal, spend};
use heap::Heap;
use heap_pass::Pass;
use mont_base::{Gate, Unit};
use op_guard::{AtRefusal, Guard, GuardRefusal, abandon, begin, begin_at, halt, make_room};
use slots::Region;
use std::sync::Wait;

/// Begins an operation that needs a slot of each of two units. The seats of both take a note of the
/// pass, a unit without a free slot closes what may be closed, and both register at one epoch that
/// isn't below anything that the caller has seen.
///
/// It may wait for the clock to stand still.
pub fn begin_pair<R: Wait, G: Gate>(
    rt: &R,
    heap: &Heap,
    low: &mut Region,
    high: &mut Region,
    pass: &mut Pass<G>,
) -> Result<PairGuard, PairRefusal>
    requires low { IsReady heap.now low.old }
    requires high { IsReady heap.now high.old }
    requires order { low.old.books.unit < high.old.books.unit }
    requires pass { pass.old.ticket.table ≡ heap.now.table }
    ensures gate { IsAskedOften G.cuts G.endless pass.old.gate pass.new.gate (was_cut result) }
    ensures receipts { pass.new.receipts ≡ pass.old.receipts }
    ensures begun { IfOk result (λ guard. HasBegunPair heap.now low.old low.new high.old high.new
        pass.old.ticket guard) }
    ensures caller { OnOk result (pass.new.ticket ≡ pass.old.ticket) }
    ensures refused { IfErr result (λ refusal. LeavesPairRefused heap.now low.old low.new
        high.old high.new pass.old.ticket pass.new.ticket refusal) }
{
    make_rooms(heap, low, high, pass)?;
    for _ in rt.forever() {
        if let Some(guard) = register_both(rt, heap, low, high, pass)? {
            return Ok(guard);
        }
    }
    unreachable!()
}

// Makes room for one record in each unit, in the lower one first.
fn make_rooms<G: Gate>(
    heap: &Heap,
    low: &mut Region,
    high: &mut Region,
    pass: &mut Pass<G>,
) -> Result<(), PairRefusal>
    requires low { IsReady heap.now low.old }
    requires high { IsReady heap.now high.old }
    requires pass { pass.old.ticket.table ≡ heap.now.table }
    ensures gate { IsAskedOften G.cuts G.endless pass.old.gate pass.new.gate (was_cut result) }
    ensures receipts { pass.new.receipts ≡ pass.old.receipts }
    ensures low { OnOk result (HasRoomIn heap.now low.old low.new pass.old.ticket) }
    ensures high { OnOk result (HasRoomIn heap.now high.old high.new pass.old.ticket) }
    ensures learnt { OnOk result (HasLearntOf high.new pass.old.ticket) }
    ensures caller { OnOk result (pass.new.ticket ≡ pass.old.ticket) }
    ensures refused { IfErr result (λ refusal. LeavesPairRefused heap.now low.old low.new
        high.old high.new pass.old.ticket pass.new.ticket refusal) }
{
    if let Err(why) = make_room(heap, low, 1, pass) {
        return Err(refused(why, low.unit(), heap, high, pass));
    }
    if let Err(why) = make_room(heap, high, 1, pass) {
        return Err(refused(why, high.unit(), heap, low, pass));
    }
    Ok(())
}

// One try to register both: nothing, where the clock has moved in between. The lower unit has then
// gone back.
fn register_both<R: Wait, G: Gate>(
    rt: &R,
    heap: &Heap,
    low: &mut Region,
    high: &mut Region,
    pass: &mut Pass<G>,
) -> Result<Option<PairGuard>, PairRefusal>
    requires low { IsReady heap.now low.old }
    requires high { IsReady heap.now high.old }
    requires low_room { HasFreeSlot low.old }
    requires high_room { HasFreeSlot high.old }
    requires pass { pass.old.ticket.table ≡ heap.now.table }
    requires learnt { HasLearntOf high.old pass.old.ticket }
    ensures gate { IsAskedOften G.cuts G.endless pass.old.gate pass.new.gate (was_cut result) }
    ensures receipts { pass.new.receipts ≡ pass.old.receipts }
    ensures caller { OnOk result (pass.new.ticket ≡ pass.old.ticket) }
    ensures tried { IfOk result (λ found. HasTriedPair heap.now low.old low.new high.old high.new
        pass.old.ticket found) }
    ensures refused { IfErr result (λ refusal. WasPairCut heap.now low.old low.new high.old
        high.new pass.old.ticket pass.new.ticket refusal) }
{
    let guard = match begin(rt, heap, low, 1, pass) {
        Ok(guard) => guard,
        Err(why) => return Err(refused(why, low.unit(), heap, high, pass)),
    };
    match begin_at(heap, high, guard.epoch, 1, pass) {
        Ok(other) => Ok(Some(paired(guard, other))),
        Err(AtRefusal::Moved { clock: _ }) => match abandon(guard, heap, low, pass) {
            Ok(()) => Ok(None),
            Err(_cut) => {
                halt(heap, high, &mut pass.ticket);
                Err(PairRefusal::Cut { unit: low.unit() })
            }
        },
        Err(AtRefusal::Cut) => {
            spend(guard);
            halt(heap, low, &mut pass.ticket);
            Err(PairRefusal::Cut { unit: high.unit() })
        }
    }
}

// What a refusal of one unit is to both: where the caller was cut in it, the other one is halted.
fn refused<G: Gate>(
    why: GuardRefusal,
    unit: Unit,
    heap: &Heap,
    other: &mut Region,
    pass: &mut Pass<G>,
) -> PairRefusal
    requires other { IsReady heap.now other.old }
    requires pass { pass.old.ticket.table ≡ heap.now.table }
    ensures gate { pass.new.gate ≡ pass.old.gate }
    ensures receipts { pass.new.receipts ≡ pass.old.receipts }
    ensures refusal { HalvesRefusal heap.now other.old other.new pass.old.ticket pass.new.ticket
        why unit result }
{
    match why {
        GuardRefusal::Full { need, free, clock } => PairRefusal::Full {
            unit,
            need,
            free,
            clock,
        },
        GuardRefusal::Cut => {
            halt(heap, other, &mut pass.ticket);
            PairRefusal::Cut { unit }
        }
    }
}

// The guards of two units, of which nothing is written, as one.
fn paired(low: Guard, high: Guard) -> PairGuard
    ensures { result ≡ record {
      low = low.unit;
      high = high.unit;
      by = low.by;
      epoch = low.epoch;
      written = 0;
    } }
{
    let pair = PairGuard {
        low: low.unit,
        high: high.unit,
        by: low.by,
        epoch: low.epoch,
        written: 0,
    };
    spend(low);
    spend(high);
    pair
}
