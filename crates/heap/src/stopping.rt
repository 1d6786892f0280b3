// The end of a heap.
ghost use Rattle.std.specs.Prelude.{◌≡◌, ℕ, ◌+◌, ◌<◌, ◌≤◌, true, false, take, drop, slice_index_or, IfOk};
ghost use Rattle.mont_base.specs.Layout.{words_of};
ghost use Rattle.heap_rule.specs.Views.{with_callers, with_units};
ghost use Rattle.heap.specs.Stops.{AreAllSeats, AreAtHome, AreUnitsOf, AreCallersOf, StopsAt, StoppedWordsHoldCuts, units_view, callers_view};

use crate::heap::Heap;
use crate::opening::Seats;
use crate::seats::{AdvSeat, Ticket, UnitSeat};
use atomic_table::{Closed, Seat};
use heap_rule::{Cell, TakesCallers, TakesUnits, View};
use mont_base::{Layout, Sequence, Words};
use std::alloc::{AllocError, Global};

impl Heap {
    /// Takes all seats back, and gives all current and all durable words. The advancer's list may
    /// be out. After want of memory the heap is gone.
    pub fn stop(self, alloc: Global, seats: Seats) -> Result<Words, AllocError>
        requires seats { AreAllSeats
            self seats.units.items seats.advancer seats.callers.items }
        requires home { AreAtHome seats.units.items }
        ensures { IfOk result (λ words. StopsAt self.opening
            seats.units.items seats.advancer seats.callers.items words) }
    {
        let Seats {
            units,
            advancer,
            callers,
        } = seats;
        let AdvSeat {
            seat: mut all,
            part: _,
            clock: _,
            durable: _,
            emptied: _,
        } = advancer;
        self.gather_units(&mut all, units);
        self.gather_callers(&mut all, callers);
        let Heap { table, layout } = self;
        let closed = table.close_with(all);
        let words = both_memories(alloc, layout, &closed);
        let_go(closed);
        words
    }

    // What the units' seats know comes to one seat.
    fn gather_units(&self, all: &mut Seat<Cell, View>, units: Vec<UnitSeat>)
        requires heap { all.old.table_id ≡ self.now.table }
        requires units { AreUnitsOf self.now units.items }
        requires home { AreAtHome units.items }
        ensures heap { all.new.table_id ≡ all.old.table_id }
        ensures view { all.new.me
            ≡ (with_units all.old.me.0 (units_view units.items), all.old.me.1) }
    {
        for unit in units {
            let UnitSeat {
                seat,
                unit: _,
                epoch: _,
                entries: _,
                newest: _,
                durable: _,
            } = unit;
            self.table.shared.join_seat::<TakesUnits>(all, seat);
        }
    }

    // And what the tickets know.
    fn gather_callers(&self, all: &mut Seat<Cell, View>, callers: Vec<Ticket>)
        requires heap { all.old.table_id ≡ self.now.table }
        requires callers { AreCallersOf self.now callers.items }
        ensures heap { all.new.table_id ≡ all.old.table_id }
        ensures view { all.new.me
            ≡ (with_callers all.old.me.0 (callers_view callers.items), all.old.me.1) }
    {
        for ticket in callers {
            let Ticket {
                seat,
                number: _,
                calls: _,
                fronts: _,
                synced: _,
                newest: _,
                durable: _,
            } = ticket;
            self.table.shared.join_seat::<TakesCallers>(all, seat);
        }
    }
}

/// From every image that a crash permits of the words of a heap that was stopped, recovery rebuilds
/// of each unit exactly the operations up to two epochs before the image's clock.
pub fn stopped_words_hold_cuts()
    ensures { StoppedWordsHoldCuts }
{}

// The current words and the durable words of a table that nobody shares any more.
fn both_memories(
    alloc: Global,
    layout: Layout,
    closed: &Closed<Cell, Global>,
) -> Result<Words, AllocError>
    requires full { (k : ℕ) → k < closed.now.words.len
        → slice_index_or closed.now.words.filled k false ≡ true }
    requires inside { words_of layout + words_of layout ≤ closed.now.words.len }
    ensures { IfOk result (λ words. (words.layout ≡ layout)
        × (words.cur ≡ take (words_of layout) (drop 0 closed.now.words.items))
        × (words.dur ≡ take (words_of layout) (drop (words_of layout) closed.now.words.items))) }
{
    let count = layout.words();
    Ok(Words {
        layout,
        cur: words_from(alloc, closed, 0, count)?,
        dur: words_from(alloc, closed, count, count)?,
    })
}

// So many words from a place on.
fn words_from(
    alloc: Global,
    closed: &Closed<Cell, Global>,
    first: u64,
    count: u64,
) -> Result<Sequence<u64>, AllocError>
    requires full { (k : ℕ) → k < closed.now.words.len
        → slice_index_or closed.now.words.filled k false ≡ true }
    requires inside { first + count ≤ closed.now.words.len }
    ensures { IfOk result (λ words. words ≡ take count (drop first closed.now.words.items)) }
{
    let mut words = Vec::with_capacity(alloc, count as usize)?;
    for place in 0..count {
        words.push_reserved(closed.word((first + place) as usize));
    }
    Ok(Sequence::from_vec(words))
}

// The lists go, and then the table.
fn let_go(closed: Closed<Cell, Global>)
    requires { (k : ℕ) → k < closed.slots.len → slice_index_or closed.slots.filled k false ≡ true }
{
    let mut closed = closed;
    let mut slot = 0;
    while slot < closed.slot_count() {
        drop(closed.take(slot));
        slot += 1;
    }
    closed.free();
}
