// How every part learns that no unit has a slot open beyond the cut: a ticket takes a note of each
// unit, and each unit and the advancer take one of the ticket.
ghost use Rattle.std.specs.Prelude.{◌≡◌, [], length, All};
ghost use Rattle.core_steps.specs.Places.{EachAt};
ghost use Rattle.found_regions.specs.FoundRegion.{IsRegionFound, IsRegionSwept};
ghost use Rattle.heap_rule.specs.Views.{advancer_shown, caller_heard, note_of_unit, unit_shown};
ghost use Rattle.mont_base.specs.Layout.{units_of};
ghost use Rattle.recover.specs.FoundTicket.{IsTicketFound, knows_all};

use heap::{AdvSeat, Heap, Ticket};
use slots::Region;

/// Carries what is known of each unit to all units and to the advancer.
pub(crate) fn carry_notes(
    heap: &Heap,
    regions: &mut [Region],
    ticket: &mut Ticket,
    advancer: &mut AdvSeat,
)
    requires many { length regions.old ≡ units_of heap.now.opening.layout }
    requires found { EachAt (IsRegionFound heap.now) regions.old }
    requires none { All (λ r. r.books.lost ≡ []) regions.old }
    requires ticket { IsTicketFound heap.now 0 ticket.old }
    requires advancer { advancer.old.table ≡ heap.now.table }
    ensures many { length regions.new ≡ length regions.old }
    ensures found { EachAt (IsRegionFound heap.now) regions.new }
    ensures swept { All (IsRegionSwept heap.now) regions.new }
    ensures ticket { IsTicketFound heap.now 0 ticket.new }
    ensures advancer { advancer.new ≡ record {
      table = advancer.old.table;
      known = advancer_shown advancer.old.known ticket.new.known;
    } }
    ensures known { knows_all heap.now ticket.new.known.clean }
{
    hear_all(heap, regions, ticket);
    show_all(heap, regions, ticket);
    heap.show_advancer(ticket, advancer);
}

// The ticket takes a note of each unit.
fn hear_all(heap: &Heap, regions: &mut [Region], ticket: &mut Ticket)
    requires many { length regions.old ≡ units_of heap.now.opening.layout }
    requires found { EachAt (IsRegionFound heap.now) regions.old }
    requires none { All (λ r. r.books.lost ≡ []) regions.old }
    requires ticket { IsTicketFound heap.now 0 ticket.old }
    ensures regions { regions.new ≡ regions.old }
    ensures ticket { IsTicketFound heap.now 0 ticket.new }
    ensures known { knows_all heap.now ticket.new.known.clean }
{
    for unit in 0..regions.len() {
        hear(heap, &mut regions[unit], ticket);
    }
}

// Each unit takes a note of the ticket.
fn show_all(heap: &Heap, regions: &mut [Region], ticket: &mut Ticket)
    requires found { EachAt (IsRegionFound heap.now) regions.old }
    requires none { All (λ r. r.books.lost ≡ []) regions.old }
    requires ticket { ticket.old.table ≡ heap.now.table }
    requires known { knows_all heap.now ticket.old.known.clean }
    ensures many { length regions.new ≡ length regions.old }
    ensures found { EachAt (IsRegionFound heap.now) regions.new }
    ensures swept { All (IsRegionSwept heap.now) regions.new }
    ensures ticket { ticket.new ≡ ticket.old }
{
    for unit in 0..regions.len() {
        show(heap, &mut regions[unit], ticket);
    }
}

// The ticket takes a note of a unit.
fn hear(heap: &Heap, region: &mut Region, ticket: &mut Ticket)
    requires region { region.old.seat.table ≡ heap.now.table }
    requires ticket { ticket.old.table ≡ heap.now.table }
    ensures region { region.new ≡ region.old }
    ensures ticket { ticket.new ≡ record {
      table = ticket.old.table;
      known = caller_heard ticket.old.known
          (note_of_unit (length ticket.old.known.part.fronts) region.old.seat.known);
    } }
{
    heap.hear_unit(ticket, region.seat_mut());
}

// The unit takes a note of the ticket.
fn show(heap: &Heap, region: &mut Region, ticket: &mut Ticket)
    requires region { region.old.seat.table ≡ heap.now.table }
    requires ticket { ticket.old.table ≡ heap.now.table }
    ensures region { region.new ≡ record region.old {
      seat = record {
        table = region.old.seat.table;
        known = unit_shown region.old.seat.known ticket.old.known;
      };
    } }
    ensures ticket { ticket.new ≡ ticket.old }
{
    heap.show_unit(ticket, region.seat_mut());
}
