// What is told of kinds and layouts.
use crate::case_rows::{is_shown, line_of, numbers_of};
use crate::operation_answer::tell_operations;
use case_file::{Case, Unanswered};
use job_text::write_contents;
use mont_base::{Epoch, FIRST_CLOCK, Kinds, Layout, Signs, UnitKind};
use plain::Contents;
use std::alloc::{AllocError, Global};

/// The units that the letters of the part `kinds` spell, the layouts with the slots of the part
/// `slots`, and the kinds of the part `codes`.
pub fn tell_kinds(answer: &mut String, alloc: Global, case: &Case) -> Result<(), Unanswered> {
    match Kinds::of_letters(line_of(case.needed("kinds")?)) {
        Ok(kinds) => tell_units(answer, alloc, case, kinds)?,
        Err(_) => writeln!(answer, "bad kinds")?,
    }
    for code in &numbers_of(alloc, case, "codes")? {
        tell_code(answer, *code)?;
    }
    Ok(())
}

fn tell_units(
    answer: &mut String,
    alloc: Global,
    case: &Case,
    kinds: Kinds,
) -> Result<(), Unanswered> {
    for unit in 0..kinds.len() + 1 {
        tell_unit(answer, kinds, unit)?;
    }
    for maps in 1..9 {
        if kinds == Kinds::old(maps) {
            writeln!(answer, "the old kinds of {maps} maps")?;
        }
    }
    for slots in &numbers_of(alloc, case, "slots")? {
        match Layout::new(kinds, *slots) {
            Ok(layout) => tell_layout(answer, alloc, case, layout)?,
            Err(_) => writeln!(answer, "{slots} slots in a unit: bad")?,
        }
    }
    Ok(())
}

fn tell_unit(answer: &mut String, kinds: Kinds, unit: u64) -> Result<(), AllocError> {
    match kinds.get(unit) {
        Some(kind) => {
            let (letter, code) = (char::from(kind.letter()), kind.code());
            writeln!(answer, "unit {unit}: {kind:?}, {letter}, {code}")
        }
        None => writeln!(answer, "no unit {unit}"),
    }
}

// The kind that a number stands for.
fn tell_code(answer: &mut String, code: u64) -> Result<(), AllocError> {
    match UnitKind::of_code(code) {
        Some(kind) => {
            let Signs { letter, code } = kind.signs();
            let letter = char::from(letter);
            writeln!(answer, "code {code}: {kind:?}, {letter}")
        }
        None => writeln!(answer, "code {code}: none"),
    }
}

// What a layout has, the units of the slots in the part `units of`, with a part `show` the contents
// of a store that was never used, and what is told of operations.
fn tell_layout(
    answer: &mut String,
    alloc: Global,
    case: &Case,
    layout: Layout,
) -> Result<(), Unanswered> {
    let (slots, units) = (layout.slots(), layout.units());
    let (total, words) = (layout.total(), layout.words());
    write!(answer, "{slots} slots in a unit: {units} units, ")?;
    writeln!(answer, "{total} slots, {words} words")?;
    for slot in &numbers_of(alloc, case, "units of")? {
        let unit = layout.unit_of_slot(*slot);
        writeln!(answer, "slot {slot} of unit {unit}")?;
    }
    for unit in 0..units {
        if layout.kinds().get(unit) != Some(layout.kind(unit)) {
            writeln!(answer, "another kind of unit {unit}")?;
        }
    }
    if is_shown(case, "contents") {
        let contents = Contents::empty(alloc, layout)?;
        push_contents(answer, alloc, layout, FIRST_CLOCK, &contents)?;
    }
    tell_operations(answer, alloc, case, layout)
}

/// Adds the text of contents.
pub fn push_contents(
    answer: &mut String,
    alloc: Global,
    layout: Layout,
    clock: Epoch,
    contents: &Contents,
) -> Result<(), AllocError> {
    let text = write_contents(alloc, layout, clock, contents)?;
    push_lines(answer, &text)
}

/// Adds a text whose bytes are ASCII characters.
pub fn push_lines(answer: &mut String, text: &[u8]) -> Result<(), AllocError> {
    for byte in text {
        answer.push(char::from(*byte))?;
    }
    Ok(())
}
