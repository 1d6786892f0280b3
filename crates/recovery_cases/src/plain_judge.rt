// What a plain recovery finds in the text of an image: one slot after the other, and one unit
// after the other, by the plain structures.
ghost use Rattle.std.specs.Prelude.{◌<◌};
ghost use Rattle.mont_base.specs.Layout.{units_of};

use crate::plain_front::{PlainText, plain_text};
use crate::plain_slots::PlainSlot;
use crate::tellings::{told_accepted, told_fault};
use case_file::Unanswered;
use job_text::write_contents;
use mont_base::{FIELDS, Held, LAST, Object, ObjectFault, Sequence, Unit};
use payload::{live_objects, read_words};
use plain::{BuildRefusal, Contents, UnitState, build};
use recover::ImageFault;
use std::alloc::{AllocError, Global};

/// What is found, as a case tells it.
pub fn plainly_told(alloc: Global, text: &[u8]) -> Result<Vec<u8>, Unanswered> {
    match plain_text(alloc, text)? {
        Ok(found) => told_text(alloc, &found),
        Err(fault) => told_fault(alloc, fault),
    }
}

// What is found in a text without a fault of its bytes.
fn told_text(alloc: Global, found: &PlainText) -> Result<Vec<u8>, Unanswered> {
    match records_in(alloc, found)? {
        Ok(records) => told_records(alloc, found, records.as_slice()),
        Err(fault) => told_fault(alloc, fault),
    }
}

// What is found in a text with these records.
fn told_records(alloc: Global, found: &PlainText, records: &[Held]) -> Result<Vec<u8>, Unanswered> {
    if let Some(fault) = twice_in(records) {
        return told_fault(alloc, fault);
    }
    match units_in(alloc, found, records)? {
        Ok(contents) => told_contents(alloc, found, &contents),
        Err(fault) => told_fault(alloc, fault),
    }
}

// How many slots are lost, and the contents. Of an image of the first version none is lost.
fn told_contents(
    alloc: Global,
    found: &PlainText,
    contents: &Contents,
) -> Result<Vec<u8>, Unanswered> {
    let lost = lost_in(found);
    let text = write_contents(alloc, found.layout, found.clock, contents)?;
    told_accepted(alloc, lost, text.as_slice())
}

fn lost_in(found: &PlainText) -> u64 {
    let cut = found.clock.saturating_sub(2);
    let mut lost = 0u64;
    for slot in &found.slots {
        if slot.words[0] > cut && !found.old {
            lost = lost.saturating_add(1);
        }
    }
    lost
}

// The records within the cut, or the first slot there that holds none.
fn records_in(
    alloc: Global,
    found: &PlainText,
) -> Result<Result<Vec<Held>, ImageFault>, AllocError> {
    let cut = found.clock.saturating_sub(2);
    let mut records = Vec::new(alloc);
    for PlainSlot { slot, words, .. } in &found.slots {
        if *slot >= found.layout.total() || words[0] > cut || words[0] > LAST {
            continue;
        }
        match held_in(found.layout.unit_of_slot(*slot), *slot, words) {
            Ok(Some(held)) => records.push(held)?,
            Ok(None) => {}
            Err(fault) => return Ok(Err(fault)),
        }
    }
    Ok(Ok(records))
}

/// The record that a slot's words hold.
pub fn held_in(unit: Unit, slot: u64, words: &[u64; FIELDS]) -> Result<Option<Held>, ImageFault> {
    if words[0] > LAST {
        return Ok(None);
    }
    match read_words(unit, words) {
        Ok(Some(read)) => {
            let (label, body) = read;
            Ok(Some(Held { slot, label, body }))
        }
        Ok(None) => Ok(None),
        Err(fault) => Err(ImageFault::Slot { slot, fault }),
    }
}

// The first record that has the identity and the version of one before it.
fn twice_in(records: &[Held]) -> Option<ImageFault> {
    for (place, held) in records.iter().enumerate() {
        for other in records.iter().take(place) {
            let (label, earlier) = (&held.label, &other.label);
            let same = label.identity == earlier.identity && label.version == earlier.version;
            if same && label.unit == earlier.unit {
                return Some(ImageFault::Twice {
                    slot: held.slot,
                    other: other.slot,
                });
            }
        }
    }
    None
}

// The structures of all units, or the first fault.
fn units_in(
    alloc: Global,
    found: &PlainText,
    records: &[Held],
) -> Result<Result<Contents, ImageFault>, AllocError> {
    let mut units = Sequence::new(alloc);
    match push_units(alloc, &mut units, found, records)? {
        Some(fault) => Ok(Err(fault)),
        None => Ok(Ok(Contents { units })),
    }
}

// Adds the structures of all units, up to the first fault.
fn push_units(
    alloc: Global,
    units: &mut Sequence<UnitState>,
    found: &PlainText,
    records: &[Held],
) -> Result<Option<ImageFault>, AllocError> {
    for unit in 0..found.layout.units() {
        let objects = objects_in(alloc, unit, records)?;
        match structure_of(alloc, found, unit, objects.as_slice()) {
            Ok(state) => units.push(state)?,
            Err(BuildRefusal::Object { slot, fault }) => {
                return Ok(Some(ImageFault::Object { unit, slot, fault }));
            }
            Err(BuildRefusal::Memory) => return Err(AllocError),
        }
    }
    Ok(None)
}

// The live objects of a unit.
fn objects_in(alloc: Global, unit: Unit, records: &[Held]) -> Result<Vec<Object>, AllocError> {
    let mut of_unit = Vec::new(alloc);
    for held in records {
        if held.label.unit == unit {
            of_unit.push(*held)?;
        }
    }
    live_objects(alloc, of_unit.as_slice())
}

// The structure of a unit's objects. An object with a spare word is a fault, unless one stands
// before it.
fn structure_of(
    alloc: Global,
    found: &PlainText,
    unit: Unit,
    objects: &[Object],
) -> Result<UnitState, BuildRefusal>
    requires { unit < units_of found.now.layout }
{
    let spare = objects.iter().position(|object| is_spare(found, object));
    let Some(first) = spare else {
        return build(alloc, found.layout, unit, objects);
    };
    let (before, from) = objects.split_at(first);
    let _whole = build(alloc, found.layout, unit, before)?;
    Err(BuildRefusal::Object {
        slot: from[0].slot,
        fault: ObjectFault::Spare,
    })
}

// Whether an object's slot has a spare word.
fn is_spare(found: &PlainText, object: &Object) -> bool {
    match found.slots.get(object.slot as usize) {
        Some(slot) => slot.spare,
        None => false,
    }
}
