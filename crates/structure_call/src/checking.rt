// What is decided of a call before it takes memory.
ghost use Rattle.std.specs.Prelude.{◌≡◌, None, All, OnOk, OnErr, IfErr};
ghost use Rattle.slots.specs.Books.{Agrees};
ghost use Rattle.slots.specs.WrittenRecords.{NamesLive};
ghost use Rattle.structure_call.specs.Planning.{adds_item, first_at_end};
ghost use Rattle.structure_call.specs.Checking.{WasNoted, WasHaltedBefore, EndsCount};

use heap::Heap;
use heap_pass::Pass;
use mont_base::{CallRefusal, Change, Gate, LAST, Which};
use slots::Region;

/// Refuses a call of a unit in which a caller was cut. The pass then takes a note of the unit.
#[inline(always)]
pub fn check_running<G: Gate>(
    heap: &Heap,
    region: &mut Region,
    pass: &mut Pass<G>,
) -> Result<(), CallRefusal>
    requires region { region.old.seat.table ≡ heap.now.table }
    requires agrees { Agrees region.old }
    requires pass { pass.old.ticket.table ≡ heap.now.table }
    ensures gate { pass.new.gate ≡ pass.old.gate }
    ensures receipts { pass.new.receipts ≡ pass.old.receipts }
    ensures agrees { Agrees region.new }
    ensures ok { OnOk result ((region.old.books.halted ≡ None) × (region.new ≡ region.old)
        × (pass.new.ticket ≡ pass.old.ticket)) }
    ensures halted { IfErr result (λ why. WasHaltedBefore heap.now region.old region.new
        pass.old.ticket pass.new.ticket why) }
{
    let Some(by) = region.halted() else {
        return Ok(());
    };
    take_note(heap, region, pass);
    Err(CallRefusal::Halted {
        unit: region.unit(),
        by,
    })
}

/// Refuses a call that would be given a number above the last one. The pass then takes a note of
/// the unit. `serial` says whether the changes add an item to a queue.
#[inline(always)]
pub fn check_numbers<G: Gate>(
    heap: &Heap,
    region: &mut Region,
    pass: &mut Pass<G>,
    changes: &[Change],
    serial: bool,
) -> Result<(), CallRefusal>
    requires region { region.old.seat.table ≡ heap.now.table }
    requires agrees { Agrees region.old }
    requires pass { pass.old.ticket.table ≡ heap.now.table }
    requires named { All (NamesLive region.old.seat.known.part.records) changes.now }
    requires serial { serial ≡ adds_item region.old.books changes.now }
    ensures gate { pass.new.gate ≡ pass.old.gate }
    ensures receipts { pass.new.receipts ≡ pass.old.receipts }
    ensures agrees { Agrees region.new }
    ensures ok { OnOk result (
        (first_at_end pass.old.ticket.known.part region.old changes.now ≡ None)
        × (region.new ≡ region.old) × (pass.new.ticket ≡ pass.old.ticket)) }
    ensures ends { IfErr result (λ why. EndsCount heap.now region.old region.new
        pass.old.ticket pass.new.ticket changes.now why) }
{
    let which = if pass.ticket.calls() > LAST {
        Some(Which::Call)
    } else {
        region.count_end(changes, serial)
    };
    let Some(which) = which else {
        return Ok(());
    };
    take_note(heap, region, pass);
    Err(CallRefusal::CountEnd { which })
}

/// The pass takes a note of the unit.
pub fn take_note<G: Gate>(heap: &Heap, region: &mut Region, pass: &mut Pass<G>)
    requires region { region.old.seat.table ≡ heap.now.table }
    requires agrees { Agrees region.old }
    requires pass { pass.old.ticket.table ≡ heap.now.table }
    ensures gate { pass.new.gate ≡ pass.old.gate }
    ensures receipts { pass.new.receipts ≡ pass.old.receipts }
    ensures noted { WasNoted heap.now region.old region.new pass.old.ticket pass.new.ticket }
{
    heap.hear_unit(&mut pass.ticket, region.seat_mut());
}
