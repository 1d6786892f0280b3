// How the slots that are open beyond the cut are closed.
ghost use Rattle.std.specs.Prelude.{◌≡◌, ◌≤◌, [], length, All, OnOk, is_err};
ghost use Rattle.core_steps.specs.Places.{EachAt};
ghost use Rattle.found_regions.specs.FoundRegion.{IsRegionFound};
ghost use Rattle.heap.specs.GateAsked.{IsAskedOften};
ghost use Rattle.recover.specs.Recovery.{lost_in};

use heap::Heap;
use mont_base::{Cut, Gate};
use slots::Region;

/// Closes those of all units, one unit after the other. After a cut it can be called again.
pub(crate) fn close_lost_slots<G: Gate>(
    heap: &Heap,
    regions: &mut [Region],
    gate: &mut G,
) -> Result<(), Cut>
    requires found { EachAt (IsRegionFound heap.now) regions.old }
    ensures gate { IsAskedOften G.cuts G.endless gate.old gate.new (is_err result) }
    ensures many { length regions.new ≡ length regions.old }
    ensures found { EachAt (IsRegionFound heap.now) regions.new }
    ensures fewer { lost_in regions.new ≤ lost_in regions.old }
    ensures none { OnOk result (All (λ r. r.books.lost ≡ []) regions.new) }
{
    for unit in 0..regions.len() {
        close_lost(heap, &mut regions[unit], gate)?;
    }
    Ok(())
}

// Closes those of one unit.
fn close_lost<G: Gate>(heap: &Heap, region: &mut Region, gate: &mut G) -> Result<(), Cut>
    requires found { IsRegionFound heap.now region.old.seat.known.unit region.old }
    ensures gate { IsAskedOften G.cuts G.endless gate.old gate.new (is_err result) }
    ensures found { IsRegionFound heap.now region.old.seat.known.unit region.new }
    ensures fewer { length region.new.books.lost ≤ length region.old.books.lost }
    ensures none { OnOk result (region.new.books.lost ≡ []) }
{
    let many = region.lost();
    for _turn in 0..many {
        region.sweep_one(heap, gate)?;
    }
    Ok(())
}
