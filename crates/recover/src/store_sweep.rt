// How a store that was opened from an image is swept: its slots beyond the cut are closed, and then
// every part is told of it.
ghost use Rattle.std.specs.Prelude.{◌≡◌, ◌<◌, ◌≤◌, length, OnOk, is_err};
ghost use Rattle.core_steps.specs.Places.{EachAt};
ghost use Rattle.found_regions.specs.FoundRegion.{IsRegionFound};
ghost use Rattle.heap.specs.GateAsked.{IsAskedOften};
ghost use Rattle.mont_base.specs.Layout.{units_of};
ghost use Rattle.recover.specs.FoundTicket.{IsTicketFound};
ghost use Rattle.recover.specs.Recovery.{AreSwept, IsAdvancerFound, lost_in};

use crate::clean_notes::carry_notes;
use crate::lost_slots::close_lost_slots;
use heap::{AdvSeat, Heap, Ticket};
use mont_base::{Cut, Gate};
use slots::Region;

// Closes every slot beyond the cut, and then tells every part of it.
pub(crate) fn close_and_tell<G: Gate>(
    heap: &Heap,
    regions: &mut Vec<Region>,
    tickets: &mut Vec<Ticket>,
    advancer: &mut AdvSeat,
    gate: &mut G,
) -> Result<(), Cut>
    requires units { length regions.old.items ≡ units_of heap.now.opening.layout }
    requires found { EachAt (IsRegionFound heap.now) regions.old.items }
    requires some { 0 < length tickets.old.items }
    requires tickets { EachAt (IsTicketFound heap.now) tickets.old.items }
    requires advancer { IsAdvancerFound heap.now advancer.old }
    ensures gate { IsAskedOften G.cuts G.endless gate.old gate.new (is_err result) }
    ensures units { length regions.new.items ≡ length regions.old.items }
    ensures found { EachAt (IsRegionFound heap.now) regions.new.items }
    ensures fewer { lost_in regions.new.items ≤ lost_in regions.old.items }
    ensures callers { length tickets.new.items ≡ length tickets.old.items }
    ensures tickets { EachAt (IsTicketFound heap.now) tickets.new.items }
    ensures advancer { IsAdvancerFound heap.now advancer.new }
    ensures swept { OnOk result (AreSwept heap.now regions.new.items advancer.new) }
{
    close_lost_slots(heap, regions.as_mut_slice(), gate)?;
    let ticket = &mut tickets[0];
    carry_notes(heap, regions.as_mut_slice(), ticket, advancer);
    Ok(())
}
