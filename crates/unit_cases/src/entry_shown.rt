// What is told of the entries of a history one by one.
use crate::step_told::{StepTold, carry_out};
use job_text::{Report, Run};
use mont_base::{Effect, Entry, Layout, MOST_PAIRS, Op, PairList, Text, Thing, Unit};
use plain::UnitState;
use std::alloc::{AllocError, Global};
use std::slice;

/// A line for each entry of a unit's history from a state: what it does to the things in it, how
/// many there are then, and what the entry tells otherwise than the structure.
pub fn tell_entries(
    answer: &mut String,
    alloc: Global,
    report: &Report,
    unit: Unit,
    state: &mut UnitState,
) -> Result<(), AllocError> {
    let (Some(history), Some(runs)) = (report.histories.get(unit), report.runs.get(unit)) else {
        return Ok(());
    };
    let mut left = runs.as_slice().iter();
    for (place, entry) in history.as_slice().iter().enumerate() {
        let same = has_run(state, &entry.op, &mut left);
        write!(answer, "{place}:")?;
        tell_entry(answer, alloc, report.layout, unit, state, entry)?;
        if !same {
            write!(answer, ", another run")?;
        }
        writeln!(answer)?;
    }
    Ok(())
}

// Whether the next run is that of the operation, where it is a range.
fn has_run(state: &UnitState, op: &Op, left: &mut slice::Iter<'_, Run>) -> bool {
    match (state, op) {
        (UnitState::Map { state } | UnitState::Ordered { state }, Op::ORange { from, to, most, .. })
            if *most <= MOST_PAIRS as u64 => {
            let mut pairs = PairList::empty();
            state.range(from, to, *most, &mut pairs);
            match left.next() {
                Some(own) => own.as_slice() == pairs.as_slice(),
                None => false,
            }
        }
        _ => true,
    }
}

// Carries an entry's operation out, and tells what it did.
fn tell_entry(
    answer: &mut String,
    alloc: Global,
    layout: Layout,
    unit: Unit,
    state: &mut UnitState,
    entry: &Entry,
) -> Result<(), AllocError> {
    let told = carry_out(alloc, layout, state, &entry.op)?;
    tell_step(answer, unit, entry, &told)
}

// The effects of a step, how many things there are then, and what the entry tells otherwise: the
// unit, or the reply.
fn tell_step(
    answer: &mut String,
    unit: Unit,
    entry: &Entry,
    told: &StepTold,
) -> Result<(), AllocError> {
    for effect in &told.effects {
        tell_effect(answer, effect)?;
    }
    let size = told.size;
    write!(answer, " {size} there")?;
    match told.unit {
        Some(own) if own == unit => {}
        Some(own) => write!(answer, ", of unit {own}")?,
        None => write!(answer, ", of no unit")?,
    }
    if entry.reply != told.reply {
        write!(answer, ", another reply")?;
    }
    Ok(())
}

fn tell_effect(answer: &mut String, effect: &Effect) -> Result<(), AllocError> {
    let (does, thing) = match effect {
        Effect::Inserts { thing } => ("inserts", thing),
        Effect::Replaces { thing } => ("replaces", thing),
        Effect::Removes { thing } => ("removes", thing),
    };
    write!(answer, " {does} ")?;
    tell_thing(answer, thing)?;
    write!(answer, ",")
}

fn tell_thing(answer: &mut String, thing: &Thing) -> Result<(), AllocError> {
    match thing {
        Thing::Pair { key, value } => tell_pair(answer, key, value),
        Thing::Item { item } => write!(answer, "item {item}"),
        Thing::Vertex { vertex, attribute } => write!(answer, "vertex {vertex} {attribute}"),
        Thing::Edge {
            from,
            to,
            attribute,
        } => write!(answer, "edge {from} {to} {attribute}"),
    }
}

/// Adds a pair of texts.
pub fn tell_pair(answer: &mut String, key: &Text, value: &Text) -> Result<(), AllocError> {
    write!(answer, "pair ")?;
    push_text(answer, key)?;
    write!(answer, " ")?;
    push_text(answer, value)
}

// Adds a text as reports spell it: bytes that don't stand for themselves by two digits after `%`.
fn push_text(answer: &mut String, text: &Text) -> Result<(), AllocError> {
    if text.is_empty() {
        write!(answer, "%")?;
    }
    for at in 0..text.len() {
        let byte = text.byte(at);
        if byte.is_ascii_graphic() && byte != b'%' {
            answer.push(char::from(byte))?;
        } else {
            write!(answer, "%{byte:02x}")?;
        }
    }
    Ok(())
}
