// Cores that a crash left, filled by hand: words that stand in both memories, and slots that wait
// to be closed.
use crate::line_fault::LineFault;
use crate::line_numbers::{first_word, numbers_of};
use crate::many_steps::record_words;
use core_steps::{Core, Retired};
use mont_base::{FIELDS, Held, LAST, Slot};
use plain::record_at;

/// `CLOCK`: the clock in both memories.
pub fn open(core: &mut Core, line: &str) -> Result<(), LineFault> {
    let [clock, ..] = numbers_of(line)?;
    put_word(core, 0, clock);
    Ok(())
}

// A word in both memories, where there is such a one.
fn put_word(core: &mut Core, place: u64, value: u64) {
    if place < core.cur.len() && place < core.dur.len() {
        core.cur.set(place, value);
        core.dur.set(place, value);
    }
}

/// `KIND UNIT SLOT EPOCH IDENTITY VERSION` and the words of its body: a slot with these words in
/// both memories. Within the cut it is a record, and beyond it lost.
pub fn hold(core: &mut Core, line: &str) -> Result<(), LineFault> {
    let (kind, words) = first_word(line);
    let numbers = numbers_of(words)?;
    let (unit, slot) = (numbers[0], numbers[1]);
    let record = record_words(numbers[2], kind, unit, &numbers[3..]);
    for (field, value) in record.iter().enumerate() {
        put_word(core, place_of(slot, field as u64), *value);
    }
    let found = found_at(core, slot);
    if unit >= core.units.len() {
        return Err(LineFault::Unclear);
    }
    let part = core.units.item_mut(unit);
    match found {
        Some(held) => Ok(part.records.push(held)?),
        None => Ok(part.lost.push(slot)?),
    }
}

/// Which word a field of a slot is.
pub fn place_of(slot: Slot, field: u64) -> u64 {
    let label = slot.saturating_mul(FIELDS as u64).saturating_add(1);
    label.saturating_add(field)
}

// The record of a slot within the cut.
fn found_at(core: &Core, slot: Slot) -> Option<Held> {
    let layout = core.layout;
    let image = core.dur.as_slice();
    if image.len() as u64 != layout.words() || slot >= layout.total() || image[0] > LAST {
        return None;
    }
    record_at(&layout, image, slot)
}

/// `UNIT SLOT EPOCH`: a slot that waits with an epoch to be closed.
pub fn wait_for(core: &mut Core, line: &str) -> Result<(), LineFault> {
    let [unit, slot, epoch, ..] = numbers_of(line)?;
    if unit >= core.units.len() {
        return Err(LineFault::Unclear);
    }
    let part = core.units.item_mut(unit);
    part.retired.push(Retired { slot, epoch })?;
    Ok(())
}
