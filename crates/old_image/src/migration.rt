// How an image of the first version becomes one of now.
ghost use Rattle.std.specs.Prelude.{◌≡◌, ℕ, ◌+◌, ◌<◌, ◌≤◌, ◌∷◌, ◌++◌, length, take, true, false, IfErr, IfOk, OnOk};
ghost use Rattle.std.specs.List.{filter_map, flat_map, range_with_len};
ghost use Rattle.mont_base.specs.declared.constants.TheConstants.{LABEL, LAST};
ghost use Rattle.mont_base.specs.Image.{clock_of, slots_of, words_at};
ghost use Rattle.mont_base.specs.Layout.{IsLayout, total_of, units_of, words_of};
ghost use Rattle.mont_image.specs.StoredImage.{IsOldKinds};
ghost use Rattle.scan.specs.Scanned.{all_slots};
ghost use Rattle.old_image.specs.OldSlots.{objects_in};
ghost use Rattle.old_image.specs.Migration.{AreMigrated, IsOldFirstRefusal, IsOldWellFormed, IsUnitRefusal, KeepsStructures, PushesSlot, RefusedOldImagesAreMalformed, migrated_slot, object_at};
ghost use Rattle.old_image.specs.Renewal.{RenewsUnit};

use crate::old_records::read_records;
use crate::renewal::renewed_objects;
use crate::widening::{widen, words_at};
use image_units::{RecoverRefusal, check_versions};
use mont_base::{BODY, FIELDS, LABEL, Layout, Object, Sequence, Slot, Unit};
use mont_image::Image;
use std::alloc::{AllocError, Global};

/// The image of now that holds what an old one holds: each live object stands in its slot with its
/// label, and every other slot has only zeros. The old image is refused for the first fault in the
/// order of `RecoverRefusal`, by its own slots and bodies.
pub fn migrate(alloc: Global, image: &Image) -> Result<Image, RecoverRefusal>
    requires { image.now.old ≡ true }
    ensures new { IfOk result (λ m. m.old ≡ false) }
    ensures layout { IfOk result (λ m. m.layout ≡ image.now.layout) }
    ensures clock { IfOk result (λ m. clock_of m.words ≡ clock_of image.now.words) }
    ensures slots { IfOk result (λ m. AreMigrated image.now.layout image.now.words m.words) }
    ensures accepted { OnOk result (IsOldWellFormed image.now.layout image.now.words) }
    ensures refused { IfErr result (IsOldFirstRefusal image.now.layout image.now.words) }
    ensures kept { IfOk result (λ m. KeepsStructures image.now.layout image.now.words m.words) }
{
    let layout = image.layout;
    let wide = widen(alloc, image)?;
    let records = read_records(alloc, &layout, &wide)?;
    check_versions(alloc, &records)?;
    let words = migrated_words(alloc, layout, &wide)?;
    Ok(Image {
        layout,
        words: Sequence::from_vec(words),
        old: false,
    })
}

/// The law that an old image which is refused, but for want of memory, isn't well-formed.
pub fn refused_old_images_are_malformed()
    ensures { RefusedOldImagesAreMalformed }
{}

// The clock, and the words of all slots as they are now.
fn migrated_words(alloc: Global, layout: Layout, wide: &[u64]) -> Result<Vec<u64>, RecoverRefusal>
    requires kinds { IsOldKinds layout.kinds }
    requires size { length wide.now ≡ words_of layout }
    requires clock { clock_of wide.now ≤ LAST }
    ensures words { IfOk result (λ v. v.items ≡ clock_of wide.now
        ∷ flat_map (migrated_slot layout wide.now) (all_slots layout)) }
    ensures kept { OnOk result ((unit : ℕ) → unit < units_of layout
        → RenewsUnit layout unit (objects_in layout wide.now unit)) }
    ensures layout { OnOk result (IsLayout layout) }
    ensures refused { IfErr result (IsUnitRefusal layout wide.now) }
{
    let mut words = Vec::new(alloc);
    words.push(wide[0])?;
    for unit in 0..layout.units() {
        let objects = renewed_objects(alloc, layout, wide, unit)?;
        push_unit(&mut words, &layout, wide, unit, &objects)?;
    }
    Ok(words)
}

// Adds the words of a unit's slots, in which these objects stand.
fn push_unit(
    words: &mut Vec<u64>,
    layout: &Layout,
    wide: &[u64],
    unit: Unit,
    objects: &[Object],
) -> Result<(), AllocError>
    requires size { length wide.now ≡ words_of layout.now }
    requires clock { clock_of wide.now ≤ LAST }
    requires unit { unit < units_of layout.now }
    requires objects { objects.now
        ≡ filter_map (object_at layout.now wide.now) (slots_of layout.now unit) }
    ensures { OnOk result (words.new.items ≡ words.old.items
        ++ flat_map (migrated_slot layout.now wide.now) (slots_of layout.now unit)) }
{
    let first = unit * layout.slots();
    let mut rest = objects;
    for place in 0..layout.slots() {
        rest = push_slot(words, layout, wide, first + place, rest)?;
    }
    Ok(())
}

// Adds the words of a slot, and says which objects stand after it. None stands in front of it.
fn push_slot<'a>(
    words: &mut Vec<u64>,
    layout: &Layout,
    wide: &[u64],
    slot: Slot,
    objects: &'a [Object],
) -> Result<&'a [Object], AllocError>
    requires size { length wide.now ≡ words_of layout.now }
    requires clock { clock_of wide.now ≤ LAST }
    requires slot { slot < total_of layout.now }
    ensures { IfOk result (λ behind. (left : ℕ) → objects.now
        ≡ filter_map (object_at layout.now wide.now) (range_with_len slot (1 + left))
        → PushesSlot layout.now wide.now slot left words.old.items words.new.items behind.now) }
{
    match objects.split_first() {
        Some((object, behind)) if object.slot == slot => {
            words.extend_from_slice(&words_now(layout, wide, slot, &object.body))?;
            Ok(behind)
        }
        _ => {
            words.extend_from_slice(&[0; FIELDS])?;
            Ok(objects)
        }
    }
}

// The words of a slot with its label as it was, and this body.
fn words_now(layout: &Layout, wide: &[u64], slot: Slot, body: &[u64; BODY]) -> [u64; FIELDS]
    requires size { length wide.now ≡ words_of layout.now }
    requires slot { slot < total_of layout.now }
    ensures { result ≡ take LABEL (words_at wide.now slot) ++ body.now }
{
    let mut words = words_at(layout, wide, slot);
    words[LABEL..].copy_from_slice(body);
    words
}
