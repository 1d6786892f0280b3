// Which slots an advance writes back, and how the advancer does it, word by word.
ghost use Rattle.std.specs.Prelude.{◌≡◌, ◌+◌, ◌++◌, length, slice_get, slice_index, Some, IfOk, OnOk, MatchResult};
ghost use Rattle.core_steps.specs.Flushing.{unit_list, flush_list, can_load_word, can_persist_word, is_flushed, behind_field};
ghost use Rattle.core_steps.specs.Events.{after};

use core_answer::core_words::{clock, slot_word, store_slot_word};
use core_steps::{AdvPart, Core, Event, UnitPart};
use mont_base::{Epoch, FIELDS, Slot};
use std::alloc::{AllocError, Global};

/// The slots that an advance writes back, in their order: of each unit those of its records of the
/// epoch before the clock.
pub fn flush_list(alloc: Global, core: &Core) -> Result<Vec<Slot>, AllocError>
    ensures { IfOk result (λ slots. slots.items ≡ flush_list core.now) }
{
    let epoch = clock(core).saturating_sub(1);
    let mut slots = Vec::new(alloc);
    for part in core.units.as_slice() {
        list_unit(&mut slots, part, epoch)?;
    }
    Ok(slots)
}

// Adds a unit's list for an epoch.
fn list_unit(slots: &mut Vec<Slot>, part: &UnitPart, epoch: Epoch) -> Result<(), AllocError>
    ensures { OnOk result (slots.new.items ≡ slots.old.items ++ unit_list epoch part.now) }
{
    for held in part.records.as_slice() {
        if held.label.epoch == epoch {
            slots.push(held.slot)?;
        }
    }
    Ok(())
}

// The slot at a place of the list, or how far the place is from its end.
fn listed_at(core: &Core, place: u64) -> Result<Slot, u64>
    ensures { MatchResult result (λ slot. slice_get (flush_list core.now) place ≡ Some slot)
        (λ left. length (flush_list core.now) + left ≡ place) }
{
    let epoch = clock(core).saturating_sub(1);
    let mut left = place;
    for part in core.units.as_slice() {
        match listed_in(part, epoch, left) {
            Ok(slot) => return Ok(slot),
            Err(behind) => left = behind,
        }
    }
    Err(left)
}

// The slot at a place of a unit's list for an epoch, or how far the place is from its end.
fn listed_in(part: &UnitPart, epoch: Epoch, place: u64) -> Result<Slot, u64>
    ensures { MatchResult result (λ slot. slice_get (unit_list epoch part.now) place ≡ Some slot)
        (λ left. length (unit_list epoch part.now) + left ≡ place) }
{
    let mut left = place;
    for held in part.records.as_slice() {
        if held.label.epoch == epoch {
            if left == 0 {
                return Ok(held.slot);
            }
            left -= 1;
        }
    }
    Err(left)
}

// The slot at a place of the list, and 0 after its end.
fn listed_slot(core: &Core, place: u64) -> Slot
    ensures { result ≡ slice_index (flush_list core.now) place }
{
    listed_at(core, place).unwrap_or(0)
}

pub(crate) fn can_load_word(core: &Core) -> bool
    ensures { result ≡ can_load_word (length (flush_list core.now)) core.now.advancer }
{
    match core.advancer {
        AdvPart::Flushing { done, .. } => listed_at(core, done).is_ok(),
        _ => false,
    }
}

pub(crate) fn can_persist_word(advancer: AdvPart) -> bool
    ensures { result ≡ can_persist_word advancer }
{
    matches!(advancer, AdvPart::Holding { .. })
}

// Whether all slots of the list are written back.
pub(crate) fn is_flushed(core: &Core) -> bool
    ensures { result ≡ is_flushed (length (flush_list core.now)) core.now.advancer }
{
    match core.advancer {
        AdvPart::Flushing { done, field: 0 } => listed_at(core, done) == Err(0),
        _ => false,
    }
}

pub(crate) fn load_word(core: &mut Core)
    ensures { core.new ≡ after core.old Event.LoadWord }
{
    if let AdvPart::Flushing { done, field } = core.advancer {
        let slot = listed_slot(core, done);
        let value = slot_word(&core.cur, slot, field);
        core.advancer = AdvPart::Holding { done, field, value };
    }
}

pub(crate) fn persist_word(core: &mut Core)
    ensures { core.new ≡ after core.old Event.PersistWord }
{
    if let AdvPart::Holding { done, field, value } = core.advancer {
        let slot = listed_slot(core, done);
        store_slot_word(&mut core.dur, slot, field, value);
        core.advancer = behind_field(done, field);
    }
}

// The field after this one.
fn behind_field(done: u64, field: u64) -> AdvPart
    ensures { result ≡ behind_field done field }
{
    if field < FIELDS as u64 - 1 {
        let field = field + 1;
        AdvPart::Flushing { done, field }
    } else {
        let done = done.saturating_add(1);
        AdvPart::Flushing { done, field: 0 }
    }
}
