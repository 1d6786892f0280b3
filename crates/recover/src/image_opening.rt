// How a store is opened from an image.
ghost use Rattle.std.specs.Prelude.{◌≡◌, ◌<◌, ◌≤◌, false, length, map, IfErr, IfOk, OnOk};
ghost use Rattle.core_steps.specs.Opened.{slots_beyond};
ghost use Rattle.core_steps.specs.Places.{EachAt};
ghost use Rattle.found_regions.specs.FoundRegion.{records_found};
ghost use Rattle.heap.specs.Opens.{dealt_units};
ghost use Rattle.heap_rule.specs.Views.{first_unit};
ghost use Rattle.image_units.specs.FirstRefusal.{IsFirstRefusal};
ghost use Rattle.image_units.specs.Found.{AreFoundUnits, IsFoundImage};
ghost use Rattle.mont_base.specs.Image.{IsWellFormed};
ghost use Rattle.mont_base.specs.Layout.{units_of};
ghost use Rattle.recover.specs.Recovery.{IsRegionOpened, lost_in};
ghost use Rattle.scan.specs.Scanned.{all_slots, lost_among};

use crate::recovered::Recovered;
use heap::{Heap, Seats, UnitSeat};
use image_units::{FoundImage, FoundUnit, RecoverRefusal, find_units};
use mont_base::{Held, Layout, Object, Sequence, Slot, Unit};
use mont_image::Image;
use slots::Region;
use std::alloc::{AllocError, Global};
use std::thread::Threads;

/// The store of an image, with a ticket for each of its callers. How it is found is the same for
/// any number of workers. The image is refused for its first fault in the order of
/// `RecoverRefusal`, or for want of memory.
pub fn recover(
    rt: &(impl Threads + Sync),
    alloc: Global,
    image: &Image,
    workers: u64,
    callers: u64,
) -> Result<Recovered, RecoverRefusal>
    requires workers { (1 ≤ workers) × (workers ≤ 64) }
    requires callers { (1 ≤ callers) × (callers ≤ 8) }
    requires new { image.now.old ≡ false }
    ensures opening { IfOk result (λ r. r.heap.opening ≡ record {
      layout = image.now.layout;
      words = image.now.words;
      callers = callers;
    }) }
    ensures accepted { OnOk result (IsWellFormed image.now.layout image.now.words) }
    ensures unswept { IfOk result (λ r. lost_in r.regions
        ≡ length (lost_among image.now.words (all_slots image.now.layout))) }
    ensures refused { IfErr result (IsFirstRefusal image.now.layout image.now.words) }
{
    let found = find_units(rt, alloc, image, workers)?;
    let words = image.words.as_slice();
    Ok(open_image(alloc, image.layout, words, found, callers)?)
}

// The store of an image that recovery accepts, with what it holds.
fn open_image(
    alloc: Global,
    layout: Layout,
    words: &[u64],
    found: FoundImage,
    callers: u64,
) -> Result<Recovered, AllocError>
    requires callers { (1 ≤ callers) × (callers ≤ 8) }
    requires accepted { IsWellFormed layout words.now }
    requires found { IsFoundImage layout words.now found }
    ensures opening { IfOk result (λ r. r.heap.opening
        ≡ record { layout = layout; words = words.now; callers = callers }) }
    ensures unswept { IfOk result (λ r. lost_in r.regions
        ≡ length (lost_among words.now (all_slots layout))) }
{
    let clock = words[0];
    let FoundImage {
        units: found,
        contents,
    } = found;
    let (heap, seats) = Heap::of_words(alloc, layout, words, callers)?;
    let Seats {
        units,
        advancer,
        callers: tickets,
    } = seats;
    let regions = regions_of(alloc, &heap, layout, units, found.as_slice())?;
    let objects = objects_of(alloc, found)?;
    Ok(Recovered {
        heap,
        clock,
        contents,
        objects,
        regions,
        tickets,
        advancer,
        swept: false,
    })
}

// The objects of all units.
fn objects_of(alloc: Global, found: Sequence<FoundUnit>) -> Result<Vec<Vec<Object>>, AllocError>
    ensures { IfOk result (λ objects. map (λ v. v.items) objects.items
        ≡ map (λ f. f.objects) found) }
{
    let units = found.into_vec();
    let mut objects = Vec::with_capacity(alloc, units.len())?;
    for unit in units {
        let FoundUnit {
            records: _,
            lost: _,
            objects: live,
        } = unit;
        objects.push(live.into_vec())?;
    }
    Ok(objects)
}

// The regions of all units.
fn regions_of(
    alloc: Global,
    heap: &Heap,
    layout: Layout,
    seats: Vec<UnitSeat>,
    found: &[FoundUnit],
) -> Result<Vec<Region>, AllocError>
    requires layout { layout ≡ heap.now.opening.layout }
    requires accepted { IsWellFormed layout heap.now.opening.words }
    requires seats { seats.items ≡ dealt_units heap.now.table heap.now.opening
        (units_of heap.now.opening.layout) }
    requires many { length found.now ≡ units_of layout }
    requires found { AreFoundUnits layout heap.now.opening.words found.now }
    ensures many { IfOk result (λ regions. length regions.items
        ≡ units_of heap.now.opening.layout) }
    ensures opened { IfOk result (λ regions. EachAt (IsRegionOpened heap.now) regions.items) }
{
    let mut regions = Vec::with_capacity(alloc, seats.len())?;
    for seat in seats {
        let unit = regions.len();
        let of_unit = &found[unit];
        let records = of_unit.records.as_slice();
        let lost = of_unit.lost.as_slice();
        let region = region_of(alloc, heap, layout, unit as Unit, seat, records, lost)?;
        regions.push_reserved(region);
    }
    Ok(regions)
}

// The region of a unit.
fn region_of(
    alloc: Global,
    heap: &Heap,
    layout: Layout,
    unit: Unit,
    seat: UnitSeat,
    records: &[Held],
    lost: &[Slot],
) -> Result<Region, AllocError>
    requires layout { layout ≡ heap.now.opening.layout }
    requires accepted { IsWellFormed layout heap.now.opening.words }
    requires inside { unit < units_of layout }
    requires seat { seat
        ≡ record { table = heap.now.table; known = first_unit heap.now.opening unit } }
    requires records { records.now ≡ records_found heap.now unit }
    requires lost { lost.now ≡ slots_beyond layout heap.now.opening.words unit }
    ensures { IfOk result (λ region. IsRegionOpened heap.now unit region) }
{
    let region = Region::recovered(alloc, layout, unit, seat, records, lost)?;
    Ok(region)
}
