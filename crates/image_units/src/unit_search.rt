// How an image is looked through, unit by unit.
ghost use Rattle.std.specs.Prelude.{◌≡◌, ◌<◌, ◌≤◌, false, IfErr, IfOk, OnOk};
ghost use Rattle.mont_base.specs.Image.{IsWellFormed};
ghost use Rattle.mont_base.specs.Layout.{units_of};
ghost use Rattle.image_units.specs.FirstRefusal.{IsFirstRefusal};
ghost use Rattle.image_units.specs.Found.{IsFoundImage, IsFoundUnit, IsScanned};

use crate::found::{FoundImage, FoundUnit};
use crate::found_versions::check_versions;
use crate::recovery_refusal::RecoverRefusal;
use crate::unit_slots::{records_between, slots_between};
use mont_base::{Sequence, Unit};
use mont_image::Image;
use payload::live_objects;
use plain::{Contents, build};
use scan::{Scan, scan};
use std::alloc::{AllocError, Global};
use std::thread::Threads;

/// What the image holds of each unit, and the structures that recovery rebuilds of it, for any
/// number of workers the same. The image is refused for the first fault in the order of
/// `RecoverRefusal`, or for want of memory.
pub fn find_units(
    rt: &(impl Threads + Sync),
    alloc: Global,
    image: &Image,
    workers: u64,
) -> Result<FoundImage, RecoverRefusal>
    requires some { 1 ≤ workers }
    requires few { workers ≤ 64 }
    requires new { image.now.old ≡ false }
    ensures found { IfOk result (IsFoundImage image.now.layout image.now.words) }
    ensures accepted { OnOk result (IsWellFormed image.now.layout image.now.words) }
    ensures refused { IfErr result (IsFirstRefusal image.now.layout image.now.words) }
{
    let all = scan(rt, alloc, image, workers)?;
    check_versions(alloc, all.records.as_slice())?;
    build_units(alloc, image, &all)
}

// What was found of each unit, with the structures that their objects make.
fn build_units(alloc: Global, image: &Image, all: &Scan) -> Result<FoundImage, RecoverRefusal>
    requires new { image.now.old ≡ false }
    requires scanned { IsScanned image.now.layout image.now.words all.now }
    ensures found { IfOk result (IsFoundImage image.now.layout image.now.words) }
    ensures accepted { OnOk result (IsWellFormed image.now.layout image.now.words) }
    ensures refused { IfErr result (IsFirstRefusal image.now.layout image.now.words) }
{
    let mut units = Sequence::new(alloc);
    let mut states = Sequence::new(alloc);
    for unit in 0..image.layout.units() {
        let found = find_unit(alloc, image, all, unit)?;
        match build(alloc, image.layout, unit, found.objects.as_slice()) {
            Ok(state) => states.push(state)?,
            Err(refusal) => return Err(RecoverRefusal::of_build(unit, refusal)),
        }
        units.push(found)?;
    }
    let contents = Contents { units: states };
    Ok(FoundImage { units, contents })
}

// What was found of one unit.
fn find_unit(alloc: Global, image: &Image, all: &Scan, unit: Unit) -> Result<FoundUnit, AllocError>
    requires scanned { IsScanned image.now.layout image.now.words all.now }
    requires unit { unit < units_of image.now.layout }
    ensures { IfOk result (IsFoundUnit image.now.layout image.now.words unit) }
{
    let slots = image.layout.slots();
    let first = unit * slots;
    let end = first + slots;
    let records = records_between(all.records.as_slice(), first, end);
    let lost = slots_between(all.lost.as_slice(), first, end);
    Ok(FoundUnit {
        records: Sequence::from_vec(records.to_vec(alloc)?),
        lost: Sequence::from_vec(lost.to_vec(alloc)?),
        objects: Sequence::from_vec(live_objects(alloc, records)?),
    })
}
