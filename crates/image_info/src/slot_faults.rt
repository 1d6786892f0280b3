// Slots within the cut that can't be read.
ghost use Rattle.std.specs.Prelude.{◌≡◌, ◌+◌, ◌*◌, ◌<◌, ◌≤◌, ◌++◌, length, OnOk};
ghost use Rattle.mont_base.specs.declared.constants.TheConstants.{FIELDS, LAST};
ghost use Rattle.mont_base.specs.Image.{clock_of, is_in_cut, words_at};
ghost use Rattle.mont_base.specs.Layout.{total_of, words_of};
ghost use Rattle.image_info.specs.AllFaults.{slot_faults};
ghost use Rattle.image_info.specs.UnitCounts.{fault_at};

use image_units::ImageFault;
use mont_base::{FIELDS, Layout, Slot, SlotFault};
use payload::read_words;
use std::alloc::AllocError;

/// Adds the first fault of each slot within the cut that can't be read, by rising slot.
pub(crate) fn push_slot_faults(
    layout: &Layout,
    wide: &[u64],
    faults: &mut Vec<ImageFault>,
) -> Result<(), AllocError>
    requires size { length wide.now ≡ words_of layout.now }
    requires clock { clock_of wide.now ≤ LAST }
    ensures { OnOk result
        (faults.new.items ≡ faults.old.items ++ slot_faults layout.now wide.now) }
{
    for slot in 0..layout.total() {
        if let Some(fault) = fault_at(layout, wide, slot) {
            faults.push(ImageFault::Slot { slot, fault })?;
        }
    }
    Ok(())
}

// The first fault of a slot within the cut, if it has one.
fn fault_at(layout: &Layout, wide: &[u64], slot: Slot) -> Option<SlotFault>
    requires size { length wide.now ≡ words_of layout.now }
    requires clock { clock_of wide.now ≤ LAST }
    requires slot { slot < total_of layout.now }
    ensures { result ≡ fault_at layout.now wide.now slot }
{
    if !is_in_cut(wide, slot) {
        return None;
    }
    read_words(layout.unit_of_slot(slot), &words_at(layout, wide, slot)).err()
}

// Whether the epoch of a slot is one that recovery keeps.
fn is_in_cut(wide: &[u64], slot: Slot) -> bool
    requires { 1 + FIELDS * slot < length wide.now }
    ensures { result ≡ is_in_cut wide.now slot }
{
    let epoch = wide[1 + FIELDS * slot as usize];
    1 <= epoch && epoch <= wide[0].saturating_sub(2)
}

// The words of a slot.
fn words_at(layout: &Layout, wide: &[u64], slot: Slot) -> [u64; FIELDS]
    requires size { length wide.now ≡ words_of layout.now }
    requires slot { slot < total_of layout.now }
    ensures { result ≡ words_at wide.now slot }
{
    let first = 1 + FIELDS * slot as usize;
    let mut words = [0; FIELDS];
    words.copy_from_slice(&wide[first..first + FIELDS]);
    words
}
