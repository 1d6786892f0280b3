// When a note is true of a core, and what a caller makes of it.
ghost use Rattle.std.specs.Prelude.{◌≡◌, ◌↔◌, ◌≤◌, IsTrue, IfOk, OnOk, OnErr, slice_index, slice_set, max, All};
ghost use Rattle.std.specs.List.{list_any};
ghost use Rattle.mont_base.specs.Seen.{FrontFits, FitsHistories};
ghost use Rattle.core_steps.specs.Clock.{clock, durable_clock};
ghost use Rattle.core_steps.specs.Notes.{histories_of, cuts_of, IsTrueMark, IsTrueNote, seen_by_note, greater_fronts, same_caller, same_mark, joined_marks, after_hear, join};
ghost use Rattle.core_run.specs.Hearing.{FitsUnit};
ghost use Rattle.core_run.specs.Stepping.{JoinsLonger};

use core_answer::core_words::{clock, durable_clock, store, word};
use core_steps::{CallerPart, Core, Mark, Note, Part, UnitPart};
use mont_base::{Entry, Epoch, Sequence, Unit};
use std::alloc::{AllocError, Global};

// Whether the note is true of the core.
pub(crate) fn is_true_note(core: &Core, note: &Note) -> bool
    ensures { IsTrue result ↔ IsTrueNote core.now note.now }
{
    if !is_reached(core, note) {
        return false;
    }
    let units = core.units.as_slice();
    fits_units(units, note) && are_true_marks(units, note.marks.as_slice())
}

// Whether the clocks have come as far as the note says.
fn is_reached(core: &Core, note: &Note) -> bool
    ensures { IsTrue result
        ↔ ((note.now.newest ≤ clock core.now) × (note.now.durable ≤ durable_clock core.now)) }
{
    note.newest <= clock(core) && note.durable <= durable_clock(core)
}

// Whether what the note has seen is there.
fn fits_units(units: &[UnitPart], note: &Note) -> bool
    ensures { IsTrue result ↔ FitsHistories (histories_of units.now) (seen_by_note note.now) }
{
    if note.fronts.len() != units.len() as u64 {
        return false;
    }
    for (unit, part) in units.iter().enumerate() {
        if !fits_unit(note, unit as u64, part) {
            return false;
        }
    }
    true
}

// Whether what the note has seen of a unit is there.
fn fits_unit(note: &Note, unit: Unit, part: &UnitPart) -> bool
    ensures { IsTrue result ↔ FitsUnit note.now unit part.now }
{
    match note.fronts.get(unit) {
        Some(front) => front_fits(note.newest, *front, part.history.as_slice()),
        None => true,
    }
}

// Whether the entries before a front are there, and none of them is above the newest epoch.
fn front_fits(newest: Epoch, front: u64, history: &[Entry]) -> bool
    ensures { IsTrue result ↔ FrontFits newest front history.now }
{
    let front = front as usize;
    front <= history.len() && history[..front].iter().all(|entry| entry.epoch <= newest)
}

fn are_true_marks(units: &[UnitPart], marks: &[Mark]) -> bool
    ensures { IsTrue result ↔ All (IsTrueMark (cuts_of units.now)) marks.now }
{
    for mark in marks {
        if !is_true_mark(units, *mark) {
            return false;
        }
    }
    true
}

// Whether a caller was cut in the unit, and it is the one that the mark names, if it names one.
fn is_true_mark(units: &[UnitPart], mark: Mark) -> bool
    ensures { IsTrue result ↔ IsTrueMark (cuts_of units.now) mark }
{
    match units.get(mark.unit as usize) {
        Some(part) => match part.frozen {
            Some(caller) => mark.by.is_none_or(|named| named == caller),
            None => false,
        },
        None => false,
    }
}

// A caller that hears a note takes what it has seen; a unit or the advancer changes nothing.
pub(crate) fn join(
    alloc: Global,
    core: &mut Core,
    part: Part,
    note: &Note,
) -> Result<(), AllocError>
    ensures ok { OnOk result (core.new ≡ join core.old part note.now) }
    ensures err { OnErr result (core.new ≡ core.old) }
    ensures memory { OnErr result (JoinsLonger part) }
{
    if let Part::Caller { caller } = part
        && caller < core.callers.len()
    {
        hear(alloc, core.callers.item_mut(caller), note)?;
    }
    Ok(())
}

fn hear(alloc: Global, part: &mut CallerPart, note: &Note) -> Result<(), AllocError>
    ensures ok { OnOk result (part.new ≡ after_hear part.old note.now) }
    ensures err { OnErr result (part.new ≡ part.old) }
{
    part.marks = joined_marks(alloc, part.marks.as_slice(), note.marks.as_slice())?;
    raise_fronts(&mut part.fronts, note.fronts.as_slice());
    part.newest = part.newest.max(note.newest);
    part.durable = part.durable.max(note.durable);
    Ok(())
}

// The marks with those of the others that aren't among them.
fn joined_marks(
    alloc: Global,
    marks: &[Mark],
    others: &[Mark],
) -> Result<Sequence<Mark>, AllocError>
    ensures { IfOk result (λ list. list ≡ joined_marks marks.now others.now) }
{
    let mut list = Vec::new(alloc);
    list.extend_from_slice(marks)?;
    for mark in others {
        if !has_mark(marks, *mark) {
            list.push(*mark)?;
        }
    }
    Ok(Sequence::from_vec(list))
}

fn has_mark(marks: &[Mark], mark: Mark) -> bool
    ensures { result ≡ list_any (same_mark mark) marks.now }
{
    for other in marks {
        if same_mark(mark, *other) {
            return true;
        }
    }
    false
}

fn same_mark(a: Mark, b: Mark) -> bool
    ensures { result ≡ same_mark a b }
{
    a.unit == b.unit && same_caller(a.by, b.by)
}

fn same_caller(a: Option<u64>, b: Option<u64>) -> bool
    ensures { result ≡ same_caller a b }
{
    match (a, b) {
        (None, None) => true,
        (Some(a), Some(b)) => a == b,
        _ => false,
    }
}

// Takes the greater front of each unit.
fn raise_fronts(fronts: &mut Sequence<u64>, others: &[u64])
    ensures { fronts.new ≡ greater_fronts fronts.old others.now }
{
    for (unit, other) in others.iter().enumerate() {
        raise_front(fronts, unit as u64, *other);
    }
}

// Takes the greater front of a unit.
fn raise_front(fronts: &mut Sequence<u64>, unit: Unit, other: u64)
    ensures { fronts.new ≡ slice_set fronts.old unit (max (slice_index fronts.old unit) other) }
{
    let front = word(fronts, unit).max(other);
    store(fronts, unit, front);
}
