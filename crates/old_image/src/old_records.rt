// The records of an old image whose slots were widened.
ghost use Rattle.std.specs.Prelude.{◌≡◌, ◌+◌, ◌*◌, ◌<◌, ◌≤◌, ◌++◌, [], length, IfErr, IfOk, MatchResult, OnOk};
ghost use Rattle.std.specs.List.{cons_option};
ghost use Rattle.mont_base.specs.declared.constants.TheConstants.{FIELDS, LAST};
ghost use Rattle.mont_base.specs.Image.{clock_of, is_in_cut, record_at};
ghost use Rattle.mont_base.specs.Layout.{total_of, words_of};
ghost use Rattle.scan.specs.Scanned.{HasFault, IsReadAt, IsReadable};
ghost use Rattle.image_units.specs.Found.{all_records};
ghost use Rattle.old_image.specs.OldRecords.{IsSlotRefusal};

use crate::widening::words_at;
use image_units::RecoverRefusal;
use mont_base::{FIELDS, Held, Layout, Slot, SlotFault};
use payload::read_words;
use std::alloc::{AllocError, Global};

// The records within the cut, by rising slot, or the lowest slot that holds none.
pub(crate) fn read_records(
    alloc: Global,
    layout: &Layout,
    wide: &[u64],
) -> Result<Vec<Held>, RecoverRefusal>
    requires size { length wide.now ≡ words_of layout.now }
    requires clock { clock_of wide.now ≤ LAST }
    ensures records { IfOk result (λ v. v.items ≡ all_records layout.now wide.now) }
    ensures readable { OnOk result (IsReadable layout.now wide.now) }
    ensures refused { IfErr result (IsSlotRefusal layout.now wide.now) }
{
    let mut records = Vec::new(alloc);
    for slot in 0..layout.total() {
        match read_slot(layout, wide, slot) {
            Ok(found) => add(&mut records, found)?,
            Err(fault) => return Err(RecoverRefusal::Slot { slot, fault }),
        }
    }
    Ok(records)
}

// Adds a record, if there is one.
fn add(records: &mut Vec<Held>, found: Option<Held>) -> Result<(), AllocError>
    ensures { OnOk result (records.new.items ≡ records.old.items ++ cons_option found []) }
{
    if let Some(held) = found {
        records.push(held)?;
    }
    Ok(())
}

// The record of a slot, if it is within the cut.
fn read_slot(layout: &Layout, wide: &[u64], slot: Slot) -> Result<Option<Held>, SlotFault>
    requires size { length wide.now ≡ words_of layout.now }
    requires clock { clock_of wide.now ≤ LAST }
    requires slot { slot < total_of layout.now }
    ensures { MatchResult result
        (λ held. (held ≡ record_at layout.now wide.now slot)
        × IsReadAt layout.now wide.now slot)
        (HasFault layout.now wide.now slot) }
{
    if !is_in_cut(wide, slot) {
        return Ok(None);
    }
    match read_words(layout.unit_of_slot(slot), &words_at(layout, wide, slot))? {
        Some(read) => {
            let (label, body) = read;
            Ok(Some(Held { slot, label, body }))
        }
        None => Ok(None),
    }
}

// Whether the epoch of a slot is one that recovery keeps.
fn is_in_cut(wide: &[u64], slot: Slot) -> bool
    requires { 1 + FIELDS * slot < length wide.now }
    ensures { result ≡ is_in_cut wide.now slot }
{
    let epoch = wide[1 + FIELDS * slot as usize];
    1 <= epoch && epoch <= wide[0].saturating_sub(2)
}
