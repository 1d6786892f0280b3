// The words of an image, twelve to a slot in each version.
ghost use Rattle.std.specs.Prelude.{◌≡◌, ◌+◌, ◌*◌, ◌≤◌, length, true, IfOk};
ghost use Rattle.mont_image.specs.declared.image_text.TheConstants.{OLD_FIELDS};
ghost use Rattle.old_image.specs.OldSlots.{wide_slot, widened};
ghost use Rattle.image_info.specs.WideWords.{wide_of};

use mont_base::{FIELDS, Slot};
use mont_image::{Image, OLD_FIELDS};
use std::alloc::{AllocError, Global};

/// The words of an image. Those of each slot of the first version have four zeros after them.
pub(crate) fn wide_words(alloc: Global, image: &Image) -> Result<Vec<u64>, AllocError>
    ensures { IfOk result (λ wide. wide.items ≡ wide_of image.now) }
{
    if image.old {
        widen(alloc, image)
    } else {
        image.words.as_slice().to_vec(alloc)
    }
}

// The words of an image of the first version, with four zeros after those of each slot.
fn widen(alloc: Global, image: &Image) -> Result<Vec<u64>, AllocError>
    requires { image.now.old ≡ true }
    ensures { IfOk result (λ wide. wide.items ≡ widened image.now.layout image.now.words) }
{
    let words = image.words.as_slice();
    let mut wide = Vec::new(alloc);
    wide.push(image.clock())?;
    for slot in 0..image.layout.total() {
        wide.extend_from_slice(&wide_slot(words, slot))?;
    }
    Ok(wide)
}

// The words of a slot, with four zeros after them.
fn wide_slot(image: &[u64], slot: Slot) -> [u64; FIELDS]
    requires { 1 + OLD_FIELDS * slot + OLD_FIELDS ≤ length image.now }
    ensures { result ≡ wide_slot image.now slot }
{
    let first = 1 + OLD_FIELDS * slot as usize;
    let mut words = [0; FIELDS];
    words[..OLD_FIELDS].copy_from_slice(&image[first..first + OLD_FIELDS]);
    words
}
