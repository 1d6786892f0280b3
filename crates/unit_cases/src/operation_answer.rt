// What is told of operations that no text of a job or of a report spells.
use crate::case_rows::{is_shown, numbers_of, rows_of};
use case_file::{Case, Unanswered};
use mont_base::{Aim, Entry, FIRST_CLOCK, Layout, Op, Reply, Text, UnitKind};
use plain::{UnitState, is_legal, same_state};
use std::alloc::{AllocError, Global};

/// Where the ranges of the part `ranges` aim, each a unit and how many pairs it asks for; whether a
/// put in an empty map may be answered by each number of the part `answers`; and with a part `show`
/// whether units begin as a map does.
pub fn tell_operations(
    answer: &mut String,
    alloc: Global,
    case: &Case,
    layout: Layout,
) -> Result<(), Unanswered> {
    for row in &rows_of(alloc, case, "ranges")? {
        let [unit, most] = row.as_slice() else {
            return Err(Unanswered::Unclear { head: "ranges" });
        };
        tell_range(answer, layout, *unit, *most)?;
    }
    for number in &numbers_of(alloc, case, "answers")? {
        tell_put(answer, alloc, layout, *number)?;
    }
    if is_shown(case, "empty units") {
        tell_empty_units(answer, alloc, layout)?;
    }
    Ok(())
}

// The unit of a range, and where it aims. A look-up aims at its key.
fn tell_range(answer: &mut String, layout: Layout, unit: u64, most: u64) -> Result<(), AllocError> {
    let key = Text::of_number(7);
    let (from, to) = (key, key);
    let op = Op::ORange {
        unit,
        from,
        to,
        most,
    };
    if op.unit(layout).is_none() && op.aim() == Aim::Nowhere {
        write!(answer, "{most} pairs of unit {unit} nowhere")?;
    } else {
        write!(answer, "{most} pairs of unit {unit}")?;
    }
    let look_up = Op::Get { key };
    if look_up.aim() != (Aim::Key { key }) {
        write!(answer, ", a look-up not at its key")?;
    }
    writeln!(answer)
}

// Whether a map without pairs may answer a put of 20 at 2 by a number.
fn tell_put(
    answer: &mut String,
    alloc: Global,
    layout: Layout,
    number: u64,
) -> Result<(), AllocError> {
    let (key, value) = (Text::of_number(2), Text::of_number(20));
    let put = Entry {
        caller: 0,
        call: 0,
        op: Op::Put { key, value },
        reply: Reply::Was { value: number },
        epoch: FIRST_CLOCK,
    };
    let base = UnitState::empty(alloc, UnitKind::Map);
    let legal = is_legal(layout, 0, base, FIRST_CLOCK, &[put])?;
    writeln!(answer, "answered by {number}: {legal}")
}

// Whether each unit begins as a map does.
fn tell_empty_units(answer: &mut String, alloc: Global, layout: Layout) -> Result<(), AllocError> {
    for unit in 0..layout.units() {
        let map = UnitState::empty(alloc, UnitKind::Map);
        let same = same_state(&map, &UnitState::empty(alloc, layout.kind(unit)));
        writeln!(answer, "unit {unit} begins as a map: {same}")?;
    }
    Ok(())
}
