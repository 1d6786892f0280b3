// Whether a report agrees with an image that holds what another one tells, by plain structures and
// by looking at each entry and each outcome by itself.
use job_text::{Outcome, Report, Run};
use mont_base::{Entry, Epoch, LAST, Op, Sequence, Text, Unit};
use plain::{OrderedState, UnitState, same_state};
use std::alloc::AllocError;
use std::slice;

/// Whether a report agrees with the image with which the other one agrees.
pub fn agrees(report: &Report, other: &Report) -> Result<bool, AllocError> {
    if report.layout != other.layout || report.image_clock != other.image_clock {
        return Ok(false);
    }
    for unit in 0..report.layout.units() {
        if !holds(report, other, unit)? {
            return Ok(false);
        }
    }
    Ok(names_rightly(report) && names_each_once(report))
}

// Whether the history of a unit is legal, with the runs of its ranges, and leads to the contents.
fn holds(report: &Report, other: &Report, unit: Unit) -> Result<bool, AllocError> {
    let Some(base) = report.base.units.get(unit) else {
        return Ok(false);
    };
    Ok(is_legal_from(base, report, unit)? && leads_from(base, report, other, unit)?)
}

// Whether the history of a unit is legal from a state.
fn is_legal_from(base: &UnitState, report: &Report, unit: Unit) -> Result<bool, AllocError> {
    let mut state = base.clone()?;
    steps_are_legal(&mut state, report, unit)
}

fn steps_are_legal(state: &mut UnitState, report: &Report, unit: Unit) -> Result<bool, AllocError> {
    let (Some(history), Some(runs)) = (report.histories.get(unit), report.runs.get(unit)) else {
        return Ok(false);
    };
    let mut clock = report.base_clock;
    let mut left = runs.as_slice().iter();
    for entry in history.as_slice() {
        if !is_within(report, unit, entry, clock) || !has_run(state, &entry.op, &mut left) {
            return Ok(false);
        }
        clock = entry.epoch;
        if state.apply(&entry.op)? != entry.reply {
            return Ok(false);
        }
    }
    Ok(true)
}

// Whether an entry is one of the unit, by a caller of the report, and in an epoch from this one on.
fn is_within(report: &Report, unit: Unit, entry: &Entry, clock: Epoch) -> bool {
    entry.op.unit(report.layout) == Some(unit)
        && entry.caller < report.callers
        && clock <= entry.epoch
        && entry.epoch <= LAST
}

// Whether the next run is that of the operation, where it is a range.
fn has_run(state: &UnitState, op: &Op, left: &mut slice::Iter<'_, Run>) -> bool {
    match (state, op) {
        (UnitState::Ordered { state }, Op::ORange { from, to, most, .. }) => match left.next() {
            Some(run) => is_run(state, from, to, *most, run.as_slice()),
            None => false,
        },
        _ => true,
    }
}

// Whether these are the first pairs of a state with a key within the bounds, so many at most.
fn is_run(state: &OrderedState, from: &Text, to: &Text, most: u64, run: &[(Text, Text)]) -> bool {
    let (mut told, mut left) = (run.iter(), most);
    for (key, value) in state.iter() {
        if from <= key && key <= to && left > 0 {
            left -= 1;
            match told.next() {
                Some((other, of_other)) if other == key && of_other == value => {}
                _ => return false,
            }
        }
    }
    told.next().is_none()
}

// Whether the cut of the history leads from a state to what both reports tell of the image.
fn leads_from(
    base: &UnitState,
    report: &Report,
    other: &Report,
    unit: Unit,
) -> Result<bool, AllocError> {
    let mut state = base.clone()?;
    apply_cut(&mut state, report, unit)?;
    Ok(
        has_state(&report.contents.units, unit, &state)
            && has_state(&other.contents.units, unit, &state),
    )
}

fn apply_cut(state: &mut UnitState, report: &Report, unit: Unit) -> Result<(), AllocError> {
    let Some(history) = report.histories.get(unit) else {
        return Ok(());
    };
    for entry in history.as_slice() {
        if entry.epoch.saturating_add(2) <= report.image_clock {
            state.apply(&entry.op)?;
        }
    }
    Ok(())
}

fn has_state(units: &Sequence<UnitState>, unit: Unit, state: &UnitState) -> bool {
    match units.get(unit) {
        Some(found) => same_state(found, state),
        None => false,
    }
}

fn entry_at(report: &Report, unit: Unit, place: u64) -> Option<&Entry> {
    report.histories.get(unit)?.get(place)
}

// Whether the names of each caller are its calls in their order, none with an epoch below that of
// the one before, and in each unit by rising place.
fn names_rightly(report: &Report) -> bool {
    for (caller, outcomes) in report.outcomes.as_slice().iter().enumerate() {
        let mut call = 0_u64;
        let mut newest = 0;
        for (line, outcome) in outcomes.as_slice().iter().enumerate() {
            let Outcome::At { unit, place } = *outcome else {
                continue;
            };
            let Some(entry) = entry_at(report, unit, place) else {
                return false;
            };
            if entry.caller != caller as u64 || entry.call != call || entry.epoch < newest {
                return false;
            }
            if !is_behind(outcomes.as_slice(), line, unit, place) {
                return false;
            }
            (call, newest) = (call.saturating_add(1), entry.epoch);
        }
    }
    true
}

// Whether the place is above all that stand before the line in the same unit.
fn is_behind(outcomes: &[Outcome], line: usize, unit: Unit, place: u64) -> bool {
    for outcome in outcomes.iter().take(line) {
        if let Outcome::At {
            unit: earlier,
            place: below,
        } = *outcome
            && earlier == unit
            && below >= place
        {
            return false;
        }
    }
    true
}

// Whether each entry is named by one outcome.
fn names_each_once(report: &Report) -> bool {
    for (unit, history) in report.histories.as_slice().iter().enumerate() {
        for place in 0..history.len() {
            if times_named(report, unit as u64, place) != 1 {
                return false;
            }
        }
    }
    true
}

fn times_named(report: &Report, unit: Unit, place: u64) -> u64 {
    let mut times = 0_u64;
    for outcomes in report.outcomes.as_slice() {
        for outcome in outcomes.as_slice() {
            if *outcome == (Outcome::At { unit, place }) {
                times = times.saturating_add(1);
            }
        }
    }
    times
}
