// How an operation begins: the unit hears of the pass, room is made where there is too little, and
// the unit registers.
ghost use Rattle.std.specs.Prelude.{◌≡◌, ◌≤◌, IfOk, OnOk, IfErr, OnErr, is_err, length};
ghost use Rattle.mont_base.specs.declared.constants.TheConstants.{FIRST_CLOCK, LAST};
ghost use Rattle.heap.specs.GateAsked.{IsAskedOften};
ghost use Rattle.heap_rule.specs.Views.{learnt_more};
ghost use Rattle.op_guard.specs.Regions.{IsReady, IsRunning, KeepsUnit, WasHalted, region_shown};
ghost use Rattle.op_guard.specs.Guarding.{HasBegun, HasLearntOf, HasMadeRoom, LeavesRefused, LeavesUnbegun, was_cut, was_cut_at};

use crate::guard::{AtRefusal, Guard, GuardRefusal};
use crate::halting::{halt, or_halt};
use announce::{RegisterRefusal, register, register_at};
use heap::{Heap, Ticket};
use heap_pass::Pass;
use mont_base::{Epoch, Gate};
use slots::Region;
use std::sync::Wait;

/// Begins an operation that needs so many slots: the unit's seat takes a note of the pass, closes
/// what may be closed where fewer are free, and registers at an epoch that isn't below anything
/// that the caller has seen.
///
/// It may wait for the clock to stand still.
pub fn begin<R: Wait, G: Gate>(
    rt: &R,
    heap: &Heap,
    region: &mut Region,
    need: u64,
    pass: &mut Pass<G>,
) -> Result<Guard, GuardRefusal>
    requires ready { IsReady heap.now region.old }
    requires pass { pass.old.ticket.table ≡ heap.now.table }
    requires some { 1 ≤ need }
    ensures gate { IsAskedOften G.cuts G.endless pass.old.gate pass.new.gate (was_cut result) }
    ensures receipts { pass.new.receipts ≡ pass.old.receipts }
    ensures begun { IfOk result (λ guard. HasBegun heap.now region.old region.new pass.old.ticket
        need guard) }
    ensures caller { OnOk result (pass.new.ticket ≡ pass.old.ticket) }
    ensures refused { IfErr result (λ refusal. LeavesRefused heap.now region.old region.new
        pass.old.ticket pass.new.ticket need refusal) }
{
    make_room(heap, region, need, pass)?;
    let registered = register(rt, heap, region.seat_mut(), &mut pass.gate);
    let epoch = or_halt(registered, heap, region, &mut pass.ticket)?;
    Ok(Guard {
        unit: region.unit(),
        by: pass.ticket.number(),
        epoch,
        need,
        written: 0,
    })
}

/// Begins an operation that needs so many slots, at this epoch alone: the clock is looked at once
/// after the announcement. So many slots have to be free, and the unit's seat has to have taken a
/// note of the pass.
pub fn begin_at<G: Gate>(
    heap: &Heap,
    region: &mut Region,
    epoch: Epoch,
    need: u64,
    pass: &mut Pass<G>,
) -> Result<Guard, AtRefusal>
    requires ready { IsReady heap.now region.old }
    requires pass { pass.old.ticket.table ≡ heap.now.table }
    requires some { 1 ≤ need }
    requires room { need ≤ length region.old.books.free }
    requires learnt { HasLearntOf region.old pass.old.ticket }
    requires first { FIRST_CLOCK ≤ epoch }
    requires last { epoch ≤ LAST }
    ensures gate { IsAskedOften G.cuts G.endless pass.old.gate pass.new.gate
        (was_cut_at result) }
    ensures receipts { pass.new.receipts ≡ pass.old.receipts }
    ensures begun { IfOk result (λ guard. HasBegun heap.now region.old region.new pass.old.ticket
        need guard) }
    ensures epoch { IfOk result (λ guard. guard.epoch ≡ epoch) }
    ensures caller { OnOk result (pass.new.ticket ≡ pass.old.ticket) }
    ensures refused { IfErr result (λ refusal. LeavesUnbegun heap.now region.old region.new
        pass.old.ticket pass.new.ticket epoch refusal) }
{
    match register_at(heap, region.seat_mut(), epoch, &mut pass.gate) {
        Ok(()) => Ok(Guard {
            unit: region.unit(),
            by: pass.ticket.number(),
            epoch,
            need,
            written: 0,
        }),
        Err(RegisterRefusal::Moved { clock }) => Err(AtRefusal::Moved { clock }),
        Err(RegisterRefusal::Cut) => {
            halt(heap, region, &mut pass.ticket);
            Err(AtRefusal::Cut)
        }
    }
}

/// Makes room for so many slots: the unit's seat takes a note of the pass, and closes what the
/// durable clock lets be closed, where fewer are free.
pub fn make_room<G: Gate>(
    heap: &Heap,
    region: &mut Region,
    need: u64,
    pass: &mut Pass<G>,
) -> Result<(), GuardRefusal>
    requires ready { IsReady heap.now region.old }
    requires pass { pass.old.ticket.table ≡ heap.now.table }
    requires some { 1 ≤ need }
    ensures gate { IsAskedOften G.cuts G.endless pass.old.gate pass.new.gate (was_cut result) }
    ensures receipts { pass.new.receipts ≡ pass.old.receipts }
    ensures ready { OnOk result (IsReady heap.now region.new) }
    ensures room { OnOk result (need ≤ length region.new.books.free) }
    ensures keeps { OnOk result (KeepsUnit region.old region.new) }
    ensures learnt { OnOk result (region.new.seat.known.learnt
        ≡ learnt_more region.old.seat.known.learnt pass.old.ticket.known.part) }
    ensures made { OnOk result (HasMadeRoom region.old region.new pass.old.ticket need) }
    ensures caller { OnOk result (pass.new.ticket ≡ pass.old.ticket) }
    ensures refused { IfErr result (λ refusal. LeavesRefused heap.now region.old region.new
        pass.old.ticket pass.new.ticket need refusal) }
{
    show(heap, region, &mut pass.ticket);
    if region.free() >= need {
        return Ok(());
    }
    let reclaimed = region.reclaim(heap, &mut pass.gate);
    let clock = or_halt(reclaimed, heap, region, &mut pass.ticket)?;
    let free = region.free();
    if free >= need {
        return Ok(());
    }
    heap.hear_unit(&mut pass.ticket, region.seat_mut());
    Err(GuardRefusal::Full { need, free, clock })
}

// The unit's seat takes a note of the caller.
fn show(heap: &Heap, region: &mut Region, ticket: &mut Ticket)
    requires ready { IsReady heap.now region.old }
    requires ticket { ticket.old.table ≡ heap.now.table }
    ensures region { region.new ≡ region_shown region.old ticket.old }
    ensures ready { IsReady heap.now region.new }
    ensures caller { ticket.new ≡ ticket.old }
{
    heap.show_unit(ticket, region.seat_mut());
}
