// The region of a unit: its seat, and the books of its slots.
ghost use Rattle.std.specs.Prelude.{◌≡◌, length, Some, None, IsTrue};
ghost use Rattle.std.specs.Borrow.{sem};
ghost use Rattle.std.specs.Option.{option_copied};
ghost use Rattle.mont_base.specs.Layout.{units_of};
ghost use Rattle.core_steps.specs.Stages.{is_within};
ghost use Rattle.heap_rule.specs.Views.{are_clean, home_turn, unit_frozen, unit_gave, caller_cut};
ghost use Rattle.slots.specs.Books.{Agrees, IsRegionOf, record_in};
ghost use Rattle.slots.specs.Lending.{LendsSeat};

use crate::books::{Books, Written};
use heap::{Heap, Ticket, UnitSeat};
use mont_base::{Epoch, Held, Slot, Unit};
use std::marker::Model;

/// The slots of a unit, with the unit's seat.
///
/// Contracts see what the seat shows, and the books of the slots. From an answer of the seat until
/// `left` the books are those of before it; at any other time they agree with the seat, and every
/// call but `seat_mut` and `left` needs that.
#[derive(Drop)]
pub struct Region {
    pub(crate) seat: UnitSeat,
    pub(crate) books: Books,
}

impl Model for Region {
    ghost use Rattle.slots.specs.Books.{RegionShown};

    ghost Value = { RegionShown };

    ghost view = { λ r. record { seat = r.seat; books = r.books } };
}

impl Region {
    /// The unit's number.
    pub fn unit(&self) -> Unit
        ensures { result ≡ self.now.books.unit }
    {
        self.books.unit
    }

    /// How many slots are free.
    pub fn free(&self) -> u64
        ensures { result ≡ length self.now.books.free }
    {
        self.books.free.len() as u64
    }

    /// How many entries the unit's history has.
    pub fn places(&self) -> u64
        ensures { result ≡ self.now.books.places }
    {
        self.books.places
    }

    /// The epoch of the last entry; 0 where there is none.
    pub fn newest(&self) -> Epoch
        ensures { result ≡ self.now.books.newest }
    {
        self.books.newest
    }

    /// The caller by whom the unit was halted for good.
    pub fn halted(&self) -> Option<u64>
        ensures { result ≡ self.now.books.halted }
    {
        self.books.halted
    }

    /// How many slots that a crash left open aren't closed yet.
    pub fn lost(&self) -> u64
        ensures { result ≡ length self.now.books.lost }
    {
        self.books.lost.len() as u64
    }

    /// The serial that the next item is to be given; 1 where the unit is no queue.
    pub fn next_serial(&self) -> u64
        ensures { result ≡ self.now.books.serial }
    {
        self.books.serial
    }

    /// What was written in the epoch that the unit hasn't left, in the order in which it was.
    pub fn written(&self) -> &[Written]
        ensures { result.now ≡ self.now.books.written }
    {
        self.books.written()
    }

    /// The record that stands in a slot.
    pub fn find_record(&self, slot: Slot) -> Option<&Held>
        requires { Agrees self.now }
        ensures { option_copied result ≡ record_in self.now.seat.known.part.records slot }
    {
        self.books.find(slot)
    }

    /// Lends the seat for the steps that aren't the region's own.
    pub fn seat_mut(&mut self) -> &mut UnitSeat
        ensures* lends { sem 𝓛 (LendsSeat self.entry result) }
        ensures value { result.now ≡ self.old.seat }
    {
        &mut self.seat
    }

    /// Pushes the slots of what was written after the unit's list of its epoch, in their order.
    pub fn list_written(&mut self, heap: &Heap)
        requires heap { IsRegionOf heap.now self.old }
        requires agrees { Agrees self.old }
        requires within { IsTrue (is_within self.old.seat.known.part.stage) }
        requires home { self.old.seat.known.turn ≡ home_turn }
        ensures books { self.new.books ≡ self.old.books }
        ensures seat { self.new.seat ≡ record {
          table = self.old.seat.table;
          known = unit_gave self.old.seat.known;
        } }
    {
        heap.list_written(&mut self.seat, self.books.written());
    }

    /// Halts the unit for good, as one in which the caller was cut. No gate is asked.
    pub fn halt(&mut self, heap: &Heap, ticket: &mut Ticket)
        requires heap { IsRegionOf heap.now self.old }
        requires ticket { ticket.old.table ≡ heap.now.table }
        requires agrees { Agrees self.old }
        requires running { self.old.books.halted ≡ None }
        requires clean { IsTrue (are_clean (units_of heap.now.opening.layout)
            self.old.seat.known.clean) }
        ensures seat { self.new.seat ≡ record {
          table = self.old.seat.table;
          known = unit_frozen self.old.seat.known ticket.old.known.caller;
        } }
        ensures books { self.new.books
            ≡ record self.old.books { halted = Some ticket.old.known.caller } }
        ensures caller { ticket.new ≡ record {
          table = ticket.old.table;
          known = caller_cut ticket.old.known self.old.seat.known;
        } }
        ensures agrees { Agrees self.new }
    {
        heap.freeze(&mut self.seat, ticket);
        self.books.halted = Some(ticket.number());
    }

    /// Gives the seat back, and drops the rest.
    pub fn into_seat(self) -> UnitSeat
        ensures { result ≡ self.seat }
    {
        let Region { seat, books: _ } = self;
        seat
    }
}
