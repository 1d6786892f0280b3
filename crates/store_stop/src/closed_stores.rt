// The end of a store of which its words alone are taken.
ghost use Rattle.std.specs.Prelude.{◌≡◌, map, IfOk};
ghost use Rattle.heap.specs.Stops.{AreAllSeats, AreAtHome};
ghost use Rattle.store_stop.specs.ClosedStores.{IsClosedOn};

use heap::{AdvSeat, Heap, Seats, Ticket, UnitSeat};
use heap_pass::Pass;
use mont_base::{Gate, Words};
use std::alloc::{AllocError, Global};

/// Takes back all seats of a heap and the passes of all its callers, by their numbers, of which any
/// may have forgotten receipts. It needs room for the words and the callers alone, however many
/// calls were answered. After want of memory the heap is gone.
pub fn close_store<G: Gate + Drop>(
    alloc: Global,
    heap: Heap,
    units: Vec<UnitSeat>,
    advancer: AdvSeat,
    passes: Vec<Pass<G>>,
) -> Result<Words, AllocError>
    requires seats { AreAllSeats
        heap units.items advancer (map (λ p. p.ticket) passes.items) }
    requires home { AreAtHome units.items }
    ensures closed { IfOk result (IsClosedOn heap.opening (map (λ p. p.ticket) passes.items)) }
{
    let callers = tickets_of(alloc, passes)?;
    let seats = Seats {
        units,
        advancer,
        callers,
    };
    heap.stop(alloc, seats)
}

// The tickets of passes.
fn tickets_of<G: Gate + Drop>(
    alloc: Global,
    passes: Vec<Pass<G>>,
) -> Result<Vec<Ticket>, AllocError>
    ensures { IfOk result (λ tickets. tickets.items ≡ map (λ p. p.ticket) passes.items) }
{
    let mut tickets = Vec::with_capacity(alloc, passes.len())?;
    for pass in passes {
        let Pass {
            ticket,
            gate: _,
            receipts: _,
            apart: _,
        } = pass;
        tickets.push(ticket)?;
    }
    Ok(tickets)
}
