// Every fault of an image.
ghost use Rattle.std.specs.Prelude.{◌≡◌, ◌≤◌, length, IfOk};
ghost use Rattle.mont_base.specs.declared.constants.TheConstants.{LAST};
ghost use Rattle.mont_base.specs.Image.{clock_of};
ghost use Rattle.mont_base.specs.Layout.{words_of};
ghost use Rattle.image_units.specs.Found.{all_records};
ghost use Rattle.image_info.specs.AllFaults.{all_faults};

use crate::object_faults::push_object_faults;
use crate::repeat_faults::push_repeats;
use crate::slot_faults::push_slot_faults;
use image_units::ImageFault;
use mont_base::Held;
use mont_image::Image;
use std::alloc::{AllocError, Global};

/// Every fault of an image with these words and records: of each slot within the cut that can't be
/// read, of each slot that repeats a lower one, of each object that makes no structure.
pub(crate) fn all_faults(
    alloc: Global,
    image: &Image,
    wide: &[u64],
    records: &[Held],
) -> Result<Vec<ImageFault>, AllocError>
    requires size { length wide.now ≡ words_of image.now.layout }
    requires clock { clock_of wide.now ≤ LAST }
    requires records { records.now ≡ all_records image.now.layout wide.now }
    ensures { IfOk result
        (λ v. v.items ≡ all_faults image.now.old image.now.layout wide.now) }
{
    let mut faults = Vec::new(alloc);
    push_slot_faults(&image.layout, wide, &mut faults)?;
    push_repeats(alloc, records, &mut faults)?;
    for unit in 0..image.layout.units() {
        push_object_faults(alloc, image, wide, unit, &mut faults)?;
    }
    Ok(faults)
}
