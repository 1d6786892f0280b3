// How a unit writes a record into a slot: its fields from the second on, in their order, and the
// label's epoch last.
ghost use Rattle.std.specs.Prelude.{◌≡◌, ◌≢◌, ◌↔◌, ◌<◌, IsTrue, OnOk, OnErr};
ghost use Rattle.std.specs.List.{Contains};
ghost use Rattle.mont_base.specs.declared.record.Held.{Held};
ghost use Rattle.mont_base.specs.Layout.{word_of};
ghost use Rattle.mont_base.specs.Image.{epoch_at};
ghost use Rattle.core_steps.specs.Stages.{epoch_of};
ghost use Rattle.core_steps.specs.Storing.{LooksFree, IsTurn, CanStoreField, CanStoreLabel, CanStore, change_in, after_store};
ghost use Rattle.core_steps.specs.Events.{IsSettled, IsAllowed, after};

use crate::core_words::{slot_word, store_slot_word};
use crate::stages::{epoch_of, is_unfrozen};
use crate::unfinished::{change_in, goes_on, with_field};
use core_steps::{Core, Event, UnitPart, UnitStage, Writing};
use mont_base::{FIELDS, Held, Slot, Unit};
use std::alloc::AllocError;

/// Whether the unit may store the value into a field of a slot: the next field of a record, or the
/// label's epoch after all others. Field 0 is the epoch.
pub fn can_store(
    core: &Core,
    unit: Unit,
    part: &UnitPart,
    slot: Slot,
    field: u64,
    value: u64,
) -> bool
    ensures { IsTrue result ↔ (CanStore
        (LooksFree core.now.layout core.now.cur core.now.dur unit part.now slot)
        unit part.now slot field value
        × IsSettled core.now.cur core.now.dur (word_of slot field)) }
{
    let settled = slot_word(&core.dur, slot, field) == slot_word(&core.cur, slot, field);
    if field == 0 {
        settled && can_store_label(part, slot, value)
    } else {
        settled && can_store_field(core, unit, part, slot, field - 1, value)
    }
}

// Whether all other fields were stored, and the value is the announced epoch.
fn can_store_label(part: &UnitPart, slot: Slot, value: u64) -> bool
    ensures { IsTrue result ↔ CanStoreLabel part.now slot value }
{
    let whole = match part.writing {
        Some(writing) => writing.slot == slot && writing.stored == FIELDS as u64 - 1,
        None => false,
    };
    whole && is_unfrozen(part) && part.stage == (UnitStage::Within { epoch: value })
}

// Whether the value is that of the field after those stored.
fn can_store_field(
    core: &Core,
    unit: Unit,
    part: &UnitPart,
    slot: Slot,
    stored: u64,
    value: u64,
) -> bool
    ensures { IsTrue result ↔ CanStoreField
        (LooksFree core.now.layout core.now.cur core.now.dur unit part.now slot)
        unit part.now slot stored value }
{
    let UnitStage::Within { epoch } = part.stage else {
        return false;
    };
    let change = change_in(part.writing, slot, epoch);
    is_unfrozen(part)
        && stored < FIELDS as u64 - 1
        && is_turn(core, unit, part, slot, stored)
        && goes_on(unit, slot, epoch, &change, stored, value)
}

// Whether nothing is being written and the slot may be begun, or so many fields of it were stored.
fn is_turn(core: &Core, unit: Unit, part: &UnitPart, slot: Slot, stored: u64) -> bool
    ensures { IsTrue result ↔ IsTurn
        (LooksFree core.now.layout core.now.cur core.now.dur unit part.now slot)
        part.now slot stored }
{
    match part.writing {
        Some(writing) => writing.slot == slot && writing.stored == stored,
        None => stored == 0 && looks_free(core, unit, part, slot),
    }
}

// Whether the slot is one of the unit, is closed in both memories and in no record.
fn looks_free(core: &Core, unit: Unit, part: &UnitPart, slot: Slot) -> bool
    ensures { IsTrue result
        ↔ LooksFree core.now.layout core.now.cur core.now.dur unit part.now slot }
{
    if core.layout.unit_of_slot(slot) != unit {
        return false;
    }
    is_in_no_record(part.records.as_slice(), slot) && is_closed(core, slot)
}

// Whether the slot is closed in both memories.
fn is_closed(core: &Core, slot: Slot) -> bool
    ensures { IsTrue result
        ↔ ((epoch_at core.now.cur slot ≡ 0) × (epoch_at core.now.dur slot ≡ 0)) }
{
    slot_word(&core.cur, slot, 0) == 0 && slot_word(&core.dur, slot, 0) == 0
}

fn is_in_no_record(records: &[Held], slot: Slot) -> bool
    ensures { IsTrue result ↔ ((r : Held) → Contains records.now r → r.slot ≢ slot) }
{
    for held in records {
        if held.slot == slot {
            return false;
        }
    }
    true
}

/// Stores a field, or the label's epoch, by which the record is written whole. Only that takes
/// memory.
pub fn store(
    core: &mut Core,
    unit: Unit,
    slot: Slot,
    field: u64,
    value: u64,
) -> Result<(), AllocError>
    requires { IsAllowed core.old (Event.Store unit slot field value) }
    ensures ok { OnOk result (core.new ≡ after core.old (Event.Store unit slot field value)) }
    ensures err { OnErr result (core.new ≡ core.old) }
    ensures memory { OnErr result (field ≡ 0) }
{
    if unit < core.units.len() {
        store_in_part(core.units.item_mut(unit), slot, field, value)?;
        store_slot_word(&mut core.cur, slot, field, value);
    }
    Ok(())
}

fn store_in_part(part: &mut UnitPart, slot: Slot, field: u64, value: u64) -> Result<(), AllocError>
    requires unit { field ≢ 0
        → (change_in part.old.writing slot (epoch_of part.old.stage)).label.unit < 256 }
    requires field { field < FIELDS }
    ensures ok { OnOk result (part.new ≡ after_store part.old slot field value) }
    ensures err { OnErr result (part.new ≡ part.old) }
    ensures memory { OnErr result (field ≡ 0) }
{
    let change = change_in(part.writing, slot, epoch_of(part.stage));
    if field == 0 {
        part.written.push(change)?;
        part.writing = None;
    } else {
        part.writing = Some(Writing {
            slot,
            change: with_field(&change, field, value),
            stored: field,
        });
    }
    Ok(())
}
