// A shift: an amount goes from the number under a key of one map unit to the number under a key of
// another, both or neither.
ghost use Rattle.std.specs.Prelude.{◌≡◌, ◌<◌, ◌≤◌, [], ◌∷◌, ◌++◌, true, None, IfOk, IfErr};
ghost use Rattle.heap.specs.GateAsked.{IsAskedOften};
ghost use Rattle.heap_pass.specs.Spare.{spare_of};
ghost use Rattle.op_guard.specs.Regions.{IsReady};
ghost use Rattle.structure_call.specs.Standing.{IsStanding};
ghost use Rattle.shard_map.specs.PairCarrying.{IsPlanned, HasCarriedPair, LeavesPairUncarried};
ghost use Rattle.shard_map.specs.PairCarrying as carrying;
ghost use Rattle.shard_map.specs.MapCall.{HasRoomFor};
ghost use Rattle.shard_map.specs.MapShift.{HasShifted, KeepBoth, LeavesShift, MayBeShifted, ReplacesRecord, StandsBehind, WereNoted, end_of_pair, places_left, receipts_kept, was_checked, was_cut};
ghost use Rattle.shard_map.specs.MovedNumbers.{of_high, of_low};

use crate::map_call::follow;
use crate::map_shard::MapShard;
use crate::moved_numbers::in_order;
use crate::pair_carrying::{CarriedPair, PairUncarried, PlannedChange, carry_out_pair};
use crate::shift_planning::plan_shift;
use crate::shift_refusal::ShiftRefusal;
use heap::Heap;
use heap_pass::Pass;
use index_kit::Index;
use mont_base::{Gate, Op, Receipt, Text};
use std::sync::Wait;
use structure_call::take_note;

/// Takes an amount from the number under one key and adds it to the number under another, each of a
/// map unit: two entries of one epoch. The units are handed in by their numbers, and `up` says
/// whether `from` is a key of the lower one. Answers the receipts of `from` and of `to`; the pass
/// keeps both, that of the lower unit first. It may wait for the clock to stand still.
///
/// Memory is taken before the first step; a refusal for want of it leaves all as it was but for
/// spare room.
pub fn shift<R: Wait, G: Gate, I: Index, J: Index>(
    rt: &R,
    heap: &Heap,
    low: &mut MapShard<I>,
    high: &mut MapShard<J>,
    pass: &mut Pass<G>,
    up: bool,
    from: &Text,
    to: &Text,
    amount: u64,
) -> Result<(Receipt, Receipt), ShiftRefusal>
    requires low { IsStanding heap.now low.old.region }
    requires high { IsStanding heap.now high.old.region }
    requires order { low.old.region.books.unit < high.old.region.books.unit }
    requires pass { pass.old.ticket.table ≡ heap.now.table }
    requires keys { KeepBoth up low.old.region high.old.region from.now to.now }
    ensures gate { IsAskedOften G.cuts G.endless pass.old.gate pass.new.gate (was_cut result) }
    ensures shifted { IfOk result (λ receipts. HasShifted heap.now up low.old.region
        low.new.region high.old.region high.new.region pass.old.ticket pass.new.ticket from.now
        to.now amount receipts) }
    ensures receipts { IfOk result (λ receipts. pass.new.receipts.items
        ≡ pass.old.receipts.items ++ of_low up receipts ∷ of_high up receipts ∷ []) }
    ensures kept { IfErr result (λ why. pass.new.receipts.items
        ≡ pass.old.receipts.items ++ receipts_kept why) }
    ensures refused { IfErr result (λ why. LeavesShift heap.now up low.old.region low.new.region
        high.old.region high.new.region pass.old.ticket pass.new.ticket from.now to.now amount
        why) }
    ensures checked { was_checked result ≡ true → MayBeShifted up low.old.region high.old.region
        pass.old.ticket.known.part from.now to.now amount }
    ensures low { StandsBehind heap.now low.old low.new }
    ensures high { StandsBehind heap.now high.old high.new }
{
    let (low_plan, high_plan) = match plan_shift(low, high, &pass.ticket, up, from, to, amount) {
        Ok(plans) => plans,
        Err(why) => {
            take_notes(heap, low, high, pass);
            return Err(why);
        }
    };
    let Ok(()) = pass.reserve_two() else {
        return Err(ShiftRefusal::Memory);
    };
    match put_both(rt, heap, low, high, pass, &low_plan, &high_plan) {
        Ok(both) => Ok(in_order(up, both.low.receipt, both.high.receipt)),
        Err(why) => Err(ShiftRefusal::of(why)),
    }
}

// The pass takes a note of both units.
fn take_notes<G: Gate, I: Index, J: Index>(
    heap: &Heap,
    low: &mut MapShard<I>,
    high: &mut MapShard<J>,
    pass: &mut Pass<G>,
)
    requires low { IsStanding heap.now low.old.region }
    requires high { IsStanding heap.now high.old.region }
    requires pass { pass.old.ticket.table ≡ heap.now.table }
    ensures gate { pass.new.gate ≡ pass.old.gate }
    ensures receipts { pass.new.receipts ≡ pass.old.receipts }
    ensures noted { WereNoted heap.now low.old.region low.new.region high.old.region
        high.new.region pass.old.ticket pass.new.ticket }
    ensures low { StandsBehind heap.now low.old low.new }
    ensures high { StandsBehind heap.now high.old high.new }
{
    take_note(heap, &mut low.region, pass);
    take_note(heap, &mut high.region, pass);
}

// Carries two planned puts out, at one epoch or neither, and the indexes follow.
fn put_both<R: Wait, G: Gate, I: Index, J: Index>(
    rt: &R,
    heap: &Heap,
    low: &mut MapShard<I>,
    high: &mut MapShard<J>,
    pass: &mut Pass<G>,
    low_plan: &PlannedChange,
    high_plan: &PlannedChange,
) -> Result<CarriedPair, PairUncarried>
    requires low { IsReady heap.now low.old.region }
    requires high { IsReady heap.now high.old.region }
    requires order { low.old.region.books.unit < high.old.region.books.unit }
    requires pass { pass.old.ticket.table ≡ heap.now.table }
    requires spare { 2 ≤ spare_of pass.old.receipts }
    requires low_plan { IsPlanned low.old.region low_plan.now }
    requires high_plan { IsPlanned high.old.region high_plan.now }
    requires numbers { end_of_pair pass.old.ticket.known.part low.old.region high.old.region
        low_plan.now.change high_plan.now.change ≡ None }
    requires there { ReplacesRecord low_plan.now.change
        × ReplacesRecord high_plan.now.change }
    ensures gate { IsAskedOften G.cuts G.endless pass.old.gate pass.new.gate
        (carrying.was_cut result) }
    ensures carried { IfOk result (λ both. HasCarriedPair heap.now low.old.region low.new.region
        high.old.region high.new.region pass.old.ticket pass.new.ticket low_plan.now
        high_plan.now both) }
    ensures receipts { IfOk result (λ both. pass.new.receipts.items
        ≡ pass.old.receipts.items ++ both.low.receipt ∷ both.high.receipt ∷ []) }
    ensures kept { IfErr result (λ why. pass.new.receipts.items
        ≡ pass.old.receipts.items ++ carrying.receipts_kept why) }
    ensures refused { IfErr result (λ why. LeavesPairUncarried heap.now low.old.region
        low.new.region high.old.region high.new.region pass.old.ticket pass.new.ticket
        low_plan.now why) }
    ensures low { StandsBehind heap.now low.old low.new }
    ensures high { StandsBehind heap.now high.old high.new }
{
    let carried = carry_out_pair(
        rt,
        heap,
        &mut low.region,
        &mut high.region,
        pass,
        low_plan,
        high_plan,
    );
    match carried {
        Ok(both) => {
            follow(&mut low.index, &low_plan.op, both.low.slot);
            follow(&mut high.index, &high_plan.op, both.high.slot);
            Ok(both)
        }
        Err(why) => {
            follow_alone(&mut low.index, &low_plan.op, &why);
            Err(why)
        }
    }
}

// The index of the lower unit follows its operation where that was carried out alone.
fn follow_alone<I: Index>(index: &mut I, op: &Op, why: &PairUncarried)
    requires { HasRoomFor (I.places index.old) (I.spare index.old) op.now }
    ensures { I.places index.new ≡ places_left (I.places index.old) op.now why.now }
{
    if let PairUncarried::Cut {
        first: Some(first),
        ..
    } = why
    {
        follow(index, op, first.slot);
    }
}
