// Notes: what a unit, the advancer or a caller has learnt goes to another. No word changes, and no
// gate is asked. A ticket hears a unit by a load, which can tell what a join can't.
ghost use Rattle.std.specs.Prelude.{◌≡◌, ℕ, length};
ghost use Rattle.heap_rule.specs.Plays.{IsNotBeyond, HasSeenAll};
ghost use Rattle.heap_rule.specs.SoundUnits.{IsSoundUnit};
ghost use Rattle.heap_rule.specs.Views.{pair_view, the_unit, the_caller, unit_shown, advancer_shown, caller_heard, note_of_unit, note_of_advancer};

use crate::heap::Heap;
use crate::seats::{AdvSeat, Ticket, UnitSeat};
use atomic_table::Seat;
use heap_rule::{
    Callers, Cell, HearsAdvancer, HearsUnit, Opened, ShowsCaller, TakesCallers, View, Whole,
};
use std::marker::Brand;

impl Heap {
    /// The unit's seat takes a note of the ticket.
    pub fn show_unit(&self, ticket: &mut Ticket, seat: &mut UnitSeat)
        requires heap { seat.old.table ≡ self.now.table }
        requires ticket { ticket.old.table ≡ self.now.table }
        ensures unit { seat.new ≡ record {
          table = seat.old.table;
          known = unit_shown seat.old.known ticket.old.known;
        } }
        ensures caller { ticket.new ≡ ticket.old }
    {
        let shared = &self.table.shared;
        let whole = shared.split_seat::<Whole>(&mut ticket.seat);
        shared.join_seat::<ShowsCaller>(&mut seat.seat, whole);
        ticket.seat = shared.split_seat::<Callers>(&mut seat.seat);
    }

    /// The advancer's seat takes a note of the ticket.
    pub fn show_advancer(&self, ticket: &mut Ticket, seat: &mut AdvSeat)
        requires heap { seat.old.table ≡ self.now.table }
        requires ticket { ticket.old.table ≡ self.now.table }
        ensures advancer { seat.new ≡ record {
          table = seat.old.table;
          known = advancer_shown seat.old.known ticket.old.known;
        } }
        ensures caller { ticket.new ≡ ticket.old }
    {
        let shared = &self.table.shared;
        let whole = shared.split_seat::<Whole>(&mut ticket.seat);
        shared.join_seat::<ShowsCaller>(&mut seat.seat, whole);
        ticket.seat = shared.split_seat::<Callers>(&mut seat.seat);
    }

    /// The ticket takes a note of the unit's seat, and has then seen all entries of the unit. What
    /// the invariant tells of the unit stands there with it.
    pub fn hear_unit(&self, ticket: &mut Ticket, seat: &mut UnitSeat)
        requires heap { seat.old.table ≡ self.now.table }
        requires ticket { ticket.old.table ≡ self.now.table }
        ensures unit { seat.new ≡ seat.old }
        ensures caller { ticket.new ≡ record {
          table = ticket.old.table;
          known = caller_heard ticket.old.known
              (note_of_unit (length ticket.old.known.part.fronts) seat.old.known);
        } }
        ensures front { IsNotBeyond ticket.old.known seat.old.known }
        ensures all { HasSeenAll ticket.new.known seat.old.known }
        ensures sound { (now durable : ℕ)
            × IsSoundUnit self.now.opening now durable seat.old.known }
    {
        let shared = &self.table.shared;
        let whole = shared.split_seat::<Whole>(&mut ticket.seat);
        shared.join_seat::<TakesCallers>(&mut seat.seat, whole);
        self.load_heard::<Brand>(&mut seat.seat);
        ticket.seat = shared.split_seat::<Callers>(&mut seat.seat);
        ticket.fronts.set(seat.unit, seat.entries);
        ticket.newest = ticket.newest.max(seat.newest);
        ticket.durable = ticket.durable.max(seat.durable);
    }

    // The load by which the caller takes the note, by a seat that has both parts.
    fn load_heard<N: Opened>(&self, seat: &mut Seat<Cell, View>)
        requires heap { seat.old.table_id ≡ self.now.table }
        requires view { seat.old.me.0
            ≡ pair_view (the_unit seat.old.me.0) (the_caller seat.old.me.0) }
        requires opening { N.opening ≡ self.now.opening }
        ensures seat { seat.new.table_id ≡ seat.old.table_id }
        ensures view { seat.new.me
            ≡ (
              pair_view (the_unit seat.old.me.0)
                  (caller_heard (the_caller seat.old.me.0)
                  (note_of_unit (length (the_caller seat.old.me.0).part.fronts)
                  (the_unit seat.old.me.0))),
              seat.old.me.1,
            ) }
        ensures front { IsNotBeyond (the_caller seat.old.me.0) (the_unit seat.old.me.0) }
        ensures all { HasSeenAll
            (caller_heard (the_caller seat.old.me.0)
            (note_of_unit (length (the_caller seat.old.me.0).part.fronts)
            (the_unit seat.old.me.0)))
            (the_unit seat.old.me.0) }
        ensures sound { (now durable : ℕ)
            × IsSoundUnit N.opening now durable (the_unit seat.old.me.0) }
    {
        let _clock = self.table.shared.load::<HearsUnit<N>>(seat, 0);
    }

    /// The ticket takes a note of the advancer's seat.
    pub fn hear_advancer(&self, ticket: &mut Ticket, seat: &mut AdvSeat)
        requires heap { seat.old.table ≡ self.now.table }
        requires ticket { ticket.old.table ≡ self.now.table }
        ensures advancer { seat.new ≡ seat.old }
        ensures caller { ticket.new ≡ record {
          table = ticket.old.table;
          known = caller_heard ticket.old.known
              (note_of_advancer (length ticket.old.known.part.fronts) seat.old.known);
        } }
    {
        let shared = &self.table.shared;
        let whole = shared.split_seat::<Whole>(&mut ticket.seat);
        shared.join_seat::<HearsAdvancer>(&mut seat.seat, whole);
        ticket.seat = shared.split_seat::<Callers>(&mut seat.seat);
        ticket.durable = ticket.durable.max(seat.durable);
    }
}
