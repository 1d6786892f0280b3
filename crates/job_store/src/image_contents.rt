// What recovery rebuilds of an image.
ghost use Rattle.std.specs.Prelude.{◌≡◌, ◌≤◌, false, IfErr, IfOk, OnOk};
ghost use Rattle.image_units.specs.FirstRefusal.{IsFirstRefusal};
ghost use Rattle.mont_base.specs.Image.{IsRecovered, IsWellFormed};
ghost use Rattle.plain.specs.States.{states_of};

use image_units::{FoundImage, RecoverRefusal, find_units};
use mont_image::Image;
use plain::Contents;
use std::alloc::Global;
use std::thread::Threads;

/// What recovery rebuilds of an image, for any number of workers the same. The image is refused for
/// the first fault in the order of `RecoverRefusal`, or for want of memory.
pub fn contents_in(
    rt: &(impl Threads + Sync),
    alloc: Global,
    image: &Image,
    workers: u64,
) -> Result<Contents, RecoverRefusal>
    requires workers { (1 ≤ workers) × (workers ≤ 64) }
    requires new { image.now.old ≡ false }
    ensures found { IfOk result
        (λ c. IsRecovered image.now.layout image.now.words (states_of c)) }
    ensures accepted { OnOk result (IsWellFormed image.now.layout image.now.words) }
    ensures refused { IfErr result (IsFirstRefusal image.now.layout image.now.words) }
{
    let FoundImage { units: _, contents } = find_units(rt, alloc, image, workers)?;
    Ok(contents)
}
