// What a store leaves when it is stopped, and what it promises of it.
ghost use Rattle.std.specs.Prelude.{◌≡◌, ◌↔◌, map, All, IfOk, IsTrue};
ghost use Rattle.core_steps.specs.CallerClauses.{receipts_of};
ghost use Rattle.heap.specs.Stops.{AreAllSeats, AreAtHome};
ghost use Rattle.heap_pass.specs.Kept.{IsWhole};
ghost use Rattle.plain.specs.States.{states_of};
ghost use Rattle.store_stop.specs.Headline.{IsBaseOf, IsStopped, StoppedStoresOutliveCrashes, parts_shown};

use crate::told_histories::told_histories;
use heap::{AdvSeat, Heap, Seats, Ticket, UnitSeat};
use heap_pass::Pass;
use mont_base::{Entry, Epoch, Gate, Receipt, Sequence, Words};
use plain::Contents;
use std::alloc::{AllocError, Global};

/// The words of a store that was stopped, and what was done in it.
#[derive(Debug, Drop)]
pub struct Stopped {
    pub words: Words,
    /// The clock when the store was opened.
    pub base_clock: Epoch,
    /// What the store held then.
    pub base: Contents,
    /// The history of each unit.
    pub histories: Sequence<Sequence<Entry>>,
}

/// Whether each of the passes has all of its receipts still.
pub fn are_whole<G: Gate>(passes: &[Pass<G>]) -> bool
    ensures { IsTrue result ↔ All (λ p. IsWhole p.ticket p.receipts.items) passes.now }
{
    passes.iter().all(|pass| pass.is_whole())
}

/// Takes back all seats of a heap and the passes of all its callers, by their numbers. Each pass
/// has to have all of its receipts still, since the histories are told by these. It looks at each
/// receipt once for each unit. After want of memory the heap is gone.
pub fn stop_store<G: Gate + Drop>(
    alloc: Global,
    heap: Heap,
    units: Vec<UnitSeat>,
    advancer: AdvSeat,
    passes: Vec<Pass<G>>,
    base_clock: Epoch,
    base: Contents,
) -> Result<Stopped, AllocError>
    requires seats { AreAllSeats
        heap units.items advancer (map (λ p. p.ticket) passes.items) }
    requires home { AreAtHome units.items }
    requires whole { All (λ p. IsWhole p.ticket p.receipts.items) passes.items }
    requires base { IsBaseOf heap.opening base_clock (states_of base) }
    ensures stopped { IfOk result (λ stopped. IsStopped heap.opening.layout base_clock base
        (map (λ p. p.ticket) passes.items) stopped) }
{
    let (callers, receipts) = taken_apart(alloc, passes)?;
    let histories = told_histories(alloc, heap.layout().units(), receipts.as_slice())?;
    let seats = Seats {
        units,
        advancer,
        callers,
    };
    let words = heap.stop(alloc, seats)?;
    Ok(Stopped {
        words,
        base_clock,
        base,
        histories,
    })
}

/// From an image that a crash permits of a stopped store recovery rebuilds, of each unit, the state
/// to which a front of its history leads: up to the same epoch in all units, and with every
/// answered call that its caller knew to be durable.
pub fn stopped_stores_outlive_crashes()
    ensures { StoppedStoresOutliveCrashes }
{}

// The tickets of passes, and the receipts of each.
fn taken_apart<G: Gate + Drop>(
    alloc: Global,
    passes: Vec<Pass<G>>,
) -> Result<(Vec<Ticket>, Vec<Sequence<Receipt>>), AllocError>
    requires { All (λ p. IsWhole p.ticket p.receipts.items) passes.items }
    ensures tickets { IfOk result (λ r. r.0.items ≡ map (λ p. p.ticket) passes.items) }
    ensures receipts { IfOk result (λ r. r.1.items
        ≡ map receipts_of (parts_shown r.0.items)) }
{
    let mut tickets = Vec::with_capacity(alloc, passes.len())?;
    let mut receipts = Vec::with_capacity(alloc, passes.len())?;
    for pass in passes {
        let Pass {
            ticket,
            gate: _,
            receipts: kept,
            apart: _,
        } = pass;
        tickets.push(ticket)?;
        receipts.push(Sequence::from_vec(kept))?;
    }
    Ok((tickets, receipts))
}
