// What is told of an image.
ghost use Rattle.std.specs.Prelude.{◌≡◌, ◌<◌, ◌≤◌, length};
ghost use Rattle.mont_base.specs.declared.constants.TheConstants.{LAST};
ghost use Rattle.mont_base.specs.Layout.{units_of, total_of, words_of};
ghost use Rattle.mont_base.specs.Image.{clock_of};

use crate::case_rows::{is_shown, layout_of, number_of, numbers_of, rows_in};
use crate::image_findings::{UnitRecords, recovered, unit_records};
use crate::layout_answer::push_contents;
use case_file::{Case, Unanswered};
use mont_base::{Epoch, FIELDS, Held, LAST, Layout, Unit};
use payload::newest_of;
use plain::record_at;
use std::alloc::{AllocError, Global};

const HEAD: &str = "filled";

/// The contents that recovery rebuilds of an image, or that it refuses the image. Its slots are
/// closed but for the rows of the part `filled`, each a slot and its words, and it has the words of
/// its layout, or as many as the part `words` says. A part `show` asks for the records of each
/// unit, with the newest of the identities of the part `newest`, or for the first faults.
pub fn tell_image(answer: &mut String, alloc: Global, case: &Case) -> Result<(), Unanswered> {
    let layout = match layout_of(alloc, case) {
        Ok(layout) => layout,
        Err(why) => return Err(why),
    };
    let clock = number_of(alloc, case, "clock")?;
    let image = image_of(alloc, case, layout.words(), clock)?;
    tell_contents(answer, alloc, layout, clock, &image)?;
    if is_shown(case, "records") || is_shown(case, "faults") {
        tell_units(answer, alloc, case, layout, &image)?;
    }
    Ok(())
}

// So many words, or as many as the part `words` says, with this clock and these slots.
fn image_of(alloc: Global, case: &Case, words: u64, clock: Epoch) -> Result<Vec<u64>, Unanswered> {
    let words = case.number(alloc, "words")?.unwrap_or(words);
    let mut image = vec![in alloc; 0; words as usize]?;
    if let Some(first) = image.first_mut() {
        *first = clock;
    }
    if let Some(text) = case.part(HEAD) {
        for row in &rows_in(alloc, HEAD, text)? {
            fill(&mut image, row)?;
        }
    }
    Ok(image)
}

// The contents that recovery rebuilds.
fn tell_contents(
    answer: &mut String,
    alloc: Global,
    layout: Layout,
    clock: Epoch,
    image: &[u64],
) -> Result<(), AllocError> {
    match recovered(alloc, layout, image)? {
        Some(contents) => push_contents(answer, alloc, layout, clock, &contents),
        None => writeln!(answer, "refused"),
    }
}

// What is found in each unit, where the image has the words of the layout and a clock.
fn tell_units(
    answer: &mut String,
    alloc: Global,
    case: &Case,
    layout: Layout,
    image: &[u64],
) -> Result<(), Unanswered> {
    if image.len() as u64 != layout.words() || image[0] > LAST {
        return Err(Unanswered::Unclear { head: "show" });
    }
    let identities = numbers_of(alloc, case, "newest")?;
    for unit in 0..layout.units() {
        let found = unit_records(alloc, layout, image, unit)?;
        if is_shown(case, "records") {
            tell_records(answer, unit, &found, &identities)?;
        }
        if is_shown(case, "faults") {
            tell_fault(answer, unit, &found)?;
        }
    }
    if is_shown(case, "records") {
        tell_slots(answer, &layout, image)?;
    }
    Ok(())
}

// Writes the words of a slot.
fn fill(image: &mut [u64], row: &[u64]) -> Result<(), Unanswered> {
    let unclear = Unanswered::Unclear { head: HEAD };
    let Some((slot, words)) = row.split_first() else {
        return Err(unclear);
    };
    let first = (*slot as usize).saturating_mul(FIELDS).saturating_add(1);
    let mut slots = image.iter_mut().skip(first);
    if words.len() != FIELDS {
        return Err(unclear);
    }
    for word in words {
        match slots.next() {
            Some(at) => *at = *word,
            None => return Err(unclear),
        }
    }
    Ok(())
}

// The records of a unit, its live objects, and the newest records of identities.
fn tell_records(
    answer: &mut String,
    unit: Unit,
    found: &UnitRecords,
    identities: &[u64],
) -> Result<(), AllocError> {
    write!(answer, "unit {unit}: records")?;
    for held in &found.held {
        tell_record(answer, held)?;
    }
    write!(answer, "; live")?;
    for object in &found.live {
        let (slot, identity, version) = (object.slot, object.identity, object.version);
        let body = object.body;
        write!(answer, " {slot}={identity}.{version}{body:?}")?;
    }
    for identity in identities {
        match newest_of(*identity, &found.held) {
            Some(held) => {
                let slot = held.slot;
                write!(answer, "; newest of {identity}: {slot}")?;
            }
            None => write!(answer, "; none of {identity}")?,
        }
    }
    writeln!(answer)
}

// The first live object of a unit with a fault.
fn tell_fault(answer: &mut String, unit: Unit, found: &UnitRecords) -> Result<(), AllocError> {
    match found.fault {
        Some((slot, fault)) => writeln!(answer, "unit {unit}: slot {slot}: {fault:?}"),
        None => writeln!(answer, "unit {unit}: no fault"),
    }
}

// A record by its slot, kind, identity and version.
fn tell_record(answer: &mut String, held: &Held) -> Result<(), AllocError> {
    let label = held.label;
    let (slot, kind) = (held.slot, label.kind);
    let (identity, version) = (label.identity, label.version);
    write!(answer, " {slot}={kind:?}.{identity}.{version}")
}

// The slots in which there is a record.
fn tell_slots(answer: &mut String, layout: &Layout, image: &[u64]) -> Result<(), AllocError>
    requires size { length image.now ≡ words_of layout.now }
    requires clock { clock_of image.now ≤ LAST }
{
    write!(answer, "slots")?;
    for slot in 0..layout.total() {
        if let Some(held) = record_at(layout, image, slot) {
            tell_record(answer, &held)?;
        }
    }
    writeln!(answer)
}
