// The records that an image holds.
ghost use Rattle.std.specs.Prelude.{◌≡◌, ◌<◌, ◌≤◌, length, IfOk};
ghost use Rattle.mont_base.specs.declared.constants.TheConstants.{LAST};
ghost use Rattle.mont_base.specs.Layout.{units_of, total_of, words_of};
ghost use Rattle.mont_base.specs.Image.{clock_of, is_in_cut, words_at, record_at, records_of};

use mont_base::{FIELDS, Held, LAST, Layout, Slot, Unit};
use payload::read_words;
use std::alloc::{AllocError, Global};

/// The records of a unit that end at least two epochs before the image's clock, by rising slot.
/// Slots that can't be read are passed over.
pub fn records(
    alloc: Global,
    layout: Layout,
    image: &[u64],
    unit: Unit,
) -> Result<Vec<Held>, AllocError>
    requires size { length image.now ≡ words_of layout }
    requires clock { clock_of image.now ≤ LAST }
    requires unit { unit < units_of layout }
    ensures { IfOk result (λ v. v.items ≡ records_of layout image.now unit) }
{
    let first = unit * layout.slots();
    let mut found = Vec::new(alloc);
    for place in 0..layout.slots() {
        if let Some(held) = record_at(&layout, image, first + place) {
            found.push(held)?;
        }
    }
    Ok(found)
}

/// The record of a slot, if it ends at least two epochs before the image's clock and can be read.
pub fn record_at(layout: &Layout, image: &[u64], slot: Slot) -> Option<Held>
    requires size { length image.now ≡ words_of layout.now }
    requires clock { clock_of image.now ≤ LAST }
    requires slot { slot < total_of layout.now }
    ensures { result ≡ record_at layout.now image.now slot }
{
    if !is_in_cut(layout, image, slot) {
        return None;
    }
    match read_words(layout.unit_of_slot(slot), &words_at(layout, image, slot)) {
        Ok(Some(read)) => {
            let (label, body) = read;
            Some(Held { slot, label, body })
        }
        Ok(None) | Err(_) => None,
    }
}

// Whether a slot's epoch is one that recovery from the image keeps.
pub(crate) fn is_in_cut(layout: &Layout, image: &[u64], slot: Slot) -> bool
    requires size { length image.now ≡ words_of layout.now }
    requires slot { slot < total_of layout.now }
    ensures { result ≡ is_in_cut image.now slot }
{
    let epoch = words_at(layout, image, slot)[0];
    1 <= epoch && epoch <= image[0].saturating_sub(2)
}

// The words of a slot.
pub(crate) fn words_at(layout: &Layout, image: &[u64], slot: Slot) -> [u64; FIELDS]
    requires size { length image.now ≡ words_of layout.now }
    requires slot { slot < total_of layout.now }
    ensures { result ≡ words_at image.now slot }
{
    let first = 1 + FIELDS * slot as usize;
    let mut words = [0; FIELDS];
    words.copy_from_slice(&image[first..first + FIELDS]);
    words
}
