// A unit in which a caller was cut is halted.
ghost use Rattle.std.specs.Prelude.{◌≡◌, false, OnOk, OnErr};
ghost use Rattle.op_guard.specs.Regions.{IsRunning, KeepsStage, WasHalted};

use heap::{Heap, Ticket};
use mont_base::Cut;
use slots::Region;

/// Halts a unit for good, as one in which the caller was cut. No gate is asked.
pub fn halt(heap: &Heap, region: &mut Region, ticket: &mut Ticket)
    requires runs { IsRunning heap.now region.old }
    requires home { region.old.seat.known.turn.out ≡ false }
    requires ticket { ticket.old.table ≡ heap.now.table }
    ensures halted { WasHalted heap.now region.old region.new ticket.old ticket.new }
    ensures stage { KeepsStage region.old region.new }
{
    region.halt(heap, ticket);
}

// Hands an answer of the unit's steps on. Where the gate cut, the unit is halted by the caller.
pub(crate) fn or_halt<T>(
    answer: Result<T, Cut>,
    heap: &Heap,
    region: &mut Region,
    ticket: &mut Ticket,
) -> Result<T, Cut>
    requires runs { OnErr answer (IsRunning heap.now region.old) }
    requires home { OnErr answer (region.old.seat.known.turn.out ≡ false) }
    requires ticket { ticket.old.table ≡ heap.now.table }
    ensures same { result ≡ answer }
    ensures ok { OnOk answer ((region.new ≡ region.old) × (ticket.new ≡ ticket.old)) }
    ensures cut { OnErr answer (WasHalted heap.now region.old region.new ticket.old
        ticket.new) }
    ensures stage { KeepsStage region.old region.new }
{
    match answer {
        Ok(value) => Ok(value),
        Err(cut) => {
            halt(heap, region, ticket);
            Err(cut)
        }
    }
}
