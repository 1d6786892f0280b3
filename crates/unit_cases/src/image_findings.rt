// What recovery finds in an image.
ghost use Rattle.std.specs.Prelude.{◌≡◌, ◌<◌, ◌≤◌, length, IfOk, MatchOption};
ghost use Rattle.mont_base.specs.declared.constants.TheConstants.{LAST};
ghost use Rattle.mont_base.specs.Layout.{units_of, words_of};
ghost use Rattle.mont_base.specs.Image.{clock_of, IsWellFormed, IsRecovered};
ghost use Rattle.plain.specs.States.{states_of};
ghost use Rattle.unit_cases.specs.Told.{AreUnitRecords};

use mont_base::{Held, Layout, Object, ObjectFault, Slot, Unit};
use payload::live_objects;
use plain::{BuildRefusal, Contents, build, is_well_formed, records, recover};
use std::alloc::{AllocError, Global};

/// What recovery rebuilds of an image, where it accepts it.
pub fn recovered(
    alloc: Global,
    layout: Layout,
    image: &[u64],
) -> Result<Option<Contents>, AllocError>
    ensures { IfOk result (λ found. MatchOption found (¬ IsWellFormed layout image.now)
        (λ c. IsWellFormed layout image.now × IsRecovered layout image.now (states_of c))) }
{
    if is_well_formed(alloc, layout, image)? {
        Ok(Some(recover(alloc, layout, image)?))
    } else {
        Ok(None)
    }
}

/// The records of a unit, its live objects, and the first of these with a fault.
#[derive(Drop)]
pub struct UnitRecords {
    pub held: Vec<Held>,
    pub live: Vec<Object>,
    pub fault: Option<(Slot, ObjectFault)>,
}

/// The records of a unit of an image that recovery keeps, and what is found in them.
pub fn unit_records(
    alloc: Global,
    layout: Layout,
    image: &[u64],
    unit: Unit,
) -> Result<UnitRecords, AllocError>
    requires size { length image.now ≡ words_of layout }
    requires clock { clock_of image.now ≤ LAST }
    requires unit { unit < units_of layout }
    ensures { IfOk result (AreUnitRecords layout image.now unit) }
{
    let held = records(alloc, layout, image, unit)?;
    let live = live_objects(alloc, &held)?;
    let fault = match build(alloc, layout, unit, &live) {
        Ok(_state) => None,
        Err(BuildRefusal::Object { slot, fault }) => Some((slot, fault)),
        Err(BuildRefusal::Memory) => return Err(AllocError),
    };
    Ok(UnitRecords { held, live, fault })
}
