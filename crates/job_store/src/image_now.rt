// An image as images are now.
ghost use Rattle.std.specs.Prelude.{◌≡◌, true, IfErr, IfOk, OnOk};
ghost use Rattle.mont_image.specs.ImageReader.{parts_of};
ghost use Rattle.old_image.specs.Migration.{IsOldFirstRefusal, IsOldWellFormed};
ghost use Rattle.job_store.specs.ImageNow.{IsImageNow};

use mont_image::Image;
use recover::{RecoverRefusal, migrate};
use std::alloc::Global;

/// The image as images are now: one of the first version is migrated, and is refused as `migrate`
/// does.
pub fn migrated_if_old(alloc: Global, image: Image) -> Result<Image, RecoverRefusal>
    ensures now { IfOk result (IsImageNow (parts_of image)) }
    ensures accepted { OnOk result
        (image.old ≡ true → IsOldWellFormed image.layout image.words) }
    ensures refused { IfErr result (λ why. (image.old ≡ true)
        × IsOldFirstRefusal image.layout image.words why) }
{
    if image.old {
        return migrate(alloc, &image);
    }
    Ok(image)
}
