// What recovery from an image rebuilds.
ghost use Rattle.std.specs.Prelude.{IfOk};
ghost use Rattle.mont_base.specs.Image.{IsWellFormed, IsRecovered};
ghost use Rattle.plain.specs.States.{states_of};

use crate::contents::Contents;
use crate::image::records;
use crate::structure::{BuildRefusal, build};
use mont_base::{Layout, Sequence};
use payload::live_objects;
use std::alloc::{AllocError, Global};

/// Rebuilds the structure of each unit from the image that a crash left.
pub fn recover(alloc: Global, layout: Layout, image: &[u64]) -> Result<Contents, AllocError>
    requires { IsWellFormed layout image.now }
    ensures { IfOk result (λ c. IsRecovered layout image.now (states_of c)) }
{
    let mut units = Sequence::new(alloc);
    for unit in 0..layout.units() {
        let held = records(alloc, layout, image, unit)?;
        let objects = live_objects(alloc, &held)?;
        match build(alloc, layout, unit, &objects) {
            Ok(state) => units.push(state)?,
            Err(BuildRefusal::Object { .. }) => unreachable!(),
            Err(BuildRefusal::Memory) => return Err(AllocError),
        }
    }
    Ok(Contents { units })
}
