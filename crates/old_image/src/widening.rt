// Slots of eight words, widened to the words that slots have now.
ghost use Rattle.std.specs.Prelude.{◌≡◌, ◌<◌, ◌≤◌, ◌*◌, ◌+◌, true, length, IfOk};
ghost use Rattle.mont_base.specs.Image.{words_at};
ghost use Rattle.mont_base.specs.Layout.{total_of, words_of};
ghost use Rattle.mont_image.specs.declared.image_text.TheConstants.{OLD_FIELDS};
ghost use Rattle.old_image.specs.OldSlots.{wide_slot, widened};

use mont_base::{FIELDS, Layout, Slot};
use mont_image::{Image, OLD_FIELDS};
use std::alloc::{AllocError, Global};

// The words of an old image with four zeros after those of each slot.
pub(crate) fn widen(alloc: Global, image: &Image) -> Result<Vec<u64>, AllocError>
    requires { image.now.old ≡ true }
    ensures { IfOk result (λ wide. wide.items ≡ widened image.now.layout image.now.words) }
{
    let words = image.words.as_slice();
    let mut wide = Vec::new(alloc);
    wide.push(image.clock())?;
    for slot in 0..image.layout.total() {
        wide.extend_from_slice(&wide_slot(words, slot))?;
    }
    Ok(wide)
}

// The words of a slot, with four zeros after them.
fn wide_slot(image: &[u64], slot: Slot) -> [u64; FIELDS]
    requires { 1 + OLD_FIELDS * slot + OLD_FIELDS ≤ length image.now }
    ensures { result ≡ wide_slot image.now slot }
{
    let first = 1 + OLD_FIELDS * slot as usize;
    let mut words = [0; FIELDS];
    words[..OLD_FIELDS].copy_from_slice(&image[first..first + OLD_FIELDS]);
    words
}

// The words of a slot that was widened.
pub(crate) fn words_at(layout: &Layout, wide: &[u64], slot: Slot) -> [u64; FIELDS]
    requires size { length wide.now ≡ words_of layout.now }
    requires slot { slot < total_of layout.now }
    ensures { result ≡ words_at wide.now slot }
{
    let first = 1 + FIELDS * slot as usize;
    let mut words = [0; FIELDS];
    words.copy_from_slice(&wide[first..first + FIELDS]);
    words
}
