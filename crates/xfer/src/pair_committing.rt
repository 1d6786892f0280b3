// How an operation of two units ends: each unit leaves with an entry, the lower one first.
ghost use Rattle.std.specs.Prelude.{◌≡◌, ◌≤◌, ◌+◌, [], ◌∷◌, ◌++◌, IfOk, OnOk, IfErr, is_err, option_to_list};
ghost use Rattle.mont_base.specs.declared.constants.TheConstants.{LAST};
ghost use Rattle.core_steps.specs.CallAnswers.{CanLeave};
ghost use Rattle.heap.specs.GateAsked.{IsAskedOften};
ghost use Rattle.heap_pass.specs.Spare.{spare_of};
ghost use Rattle.xfer.specs.Pairs.{IsPairUnderWay, low_half, high_half};
ghost use Rattle.xfer.specs.PairEnding.{HasCommittedPair, LeavesPairCut};

use crate::pair_guard::{PairCut, PairGuard, PairReceipt, spend};
use heap::Heap;
use heap_pass::Pass;
use mont_base::{Gate, Op, Reply};
use op_guard::{Guard, commit, halt};
use slots::Region;

/// Ends an operation whose records are written: both units leave the epoch with one entry each, the
/// lower one first, and the pass keeps both receipts.
///
/// A cut before the lower unit has left adds no entry and halts both units. After that it halts
/// the higher unit alone, the lower unit's entry stands alone, and the pass keeps its receipt.
pub fn commit_pair<G: Gate>(
    guard: PairGuard,
    heap: &Heap,
    low: &mut Region,
    high: &mut Region,
    pass: &mut Pass<G>,
    low_op: &Op,
    low_reply: &Reply,
    high_op: &Op,
    high_reply: &Reply,
) -> Result<PairReceipt, PairCut>
    requires under_way { IsPairUnderWay heap.now guard low.old high.old }
    requires pass { pass.old.ticket.table ≡ heap.now.table }
    requires by { guard.by ≡ pass.old.ticket.known.caller }
    requires spare { 2 ≤ spare_of pass.old.receipts }
    requires low_may { CanLeave heap.now.opening.layout low.old.books.unit
        low.old.seat.known.part pass.old.ticket.known.part low_op.now low_reply.now guard.epoch }
    requires high_may { CanLeave heap.now.opening.layout high.old.books.unit
        high.old.seat.known.part pass.old.ticket.known.part high_op.now high_reply.now
        guard.epoch }
    requires second { pass.old.ticket.known.part.calls + 1 ≤ LAST }
    ensures gate { IsAskedOften G.cuts G.endless pass.old.gate pass.new.gate (is_err result) }
    ensures committed { IfOk result (λ receipts. HasCommittedPair heap.now low.old low.new
        high.old high.new pass.old.ticket pass.new.ticket low_op.now low_reply.now high_op.now
        high_reply.now guard.epoch receipts) }
    ensures receipts { IfOk result (λ receipts. pass.new.receipts.items
        ≡ pass.old.receipts.items ++ receipts.low ∷ receipts.high ∷ []) }
    ensures spare { OnOk result (spare_of pass.new.receipts + 2
        ≡ spare_of pass.old.receipts) }
    ensures kept { IfErr result (λ cut. pass.new.receipts.items
        ≡ pass.old.receipts.items ++ option_to_list cut.first) }
    ensures cut { IfErr result (λ cut. LeavesPairCut heap.now low.old low.new high.old high.new
        pass.old.ticket pass.new.ticket low_op.now low_reply.now guard.epoch cut.first) }
{
    let (low_guard, high_guard) = halves(guard);
    let left = commit(low_guard, heap, low, pass, low_op, low_reply);
    let Ok(first) = left else {
        spend(high_guard);
        halt(heap, high, &mut pass.ticket);
        return Err(PairCut { first: None });
    };
    match commit(high_guard, heap, high, pass, high_op, high_reply) {
        Ok(second) => Ok(PairReceipt {
            low: first,
            high: second,
        }),
        Err(_cut) => Err(PairCut { first: Some(first) }),
    }
}

// The guards of the two units, in each of which so many of its one record are written.
fn halves(guard: PairGuard) -> (Guard, Guard)
    ensures low { result.0 ≡ low_half guard }
    ensures high { result.1 ≡ high_half guard }
{
    let PairGuard {
        low,
        high,
        by,
        epoch,
        written,
    } = guard;
    let low_guard = Guard {
        unit: low,
        by,
        epoch,
        need: 1,
        written: written.min(1),
    };
    let high_guard = Guard {
        unit: high,
        by,
        epoch,
        need: 1,
        written: written.saturating_sub(1),
    };
    (low_guard, high_guard)
}
