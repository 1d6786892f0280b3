// What a part shows.
ghost use Rattle.std.specs.Prelude.{◌≡◌, IfOk, length};
ghost use Rattle.core_steps.specs.Clock.{durable_clock};
ghost use Rattle.core_steps.specs.Notes.{note_of, unit_note, advancer_note, caller_note, last_epoch, mark_of};

use core_answer::core_words::durable_clock;
use core_answer::lists::{copied, zeros};
use core_steps::{CallerPart, Core, Mark, Note, Part, UnitPart};
use mont_base::{Entry, Epoch, Sequence, Unit};
use std::alloc::{AllocError, Global};

/// What a part shows: the note that is split off it. None where the core doesn't have the part.
pub fn note_of(alloc: Global, core: &Core, part: Part) -> Result<Option<Note>, AllocError>
    ensures { IfOk result (λ note. note ≡ note_of core.now part) }
{
    let units = core.units.len();
    match part {
        Part::Unit { unit } => match core.units.get(unit) {
            Some(part) => Ok(Some(unit_note(alloc, units, unit, part)?)),
            None => Ok(None),
        },
        Part::Advancer => Ok(Some(advancer_note(alloc, core)?)),
        Part::Caller { caller } => match core.callers.get(caller) {
            Some(part) => Ok(Some(caller_note(alloc, part)?)),
            None => Ok(None),
        },
    }
}

fn unit_note(alloc: Global, units: u64, unit: Unit, part: &UnitPart) -> Result<Note, AllocError>
    ensures { IfOk result (λ note. note ≡ unit_note units unit part.now) }
{
    let mut fronts = zeros(alloc, units)?;
    if unit < units {
        fronts.set(unit, part.history.len());
    }
    Ok(Note {
        fronts,
        newest: last_epoch(part.history.as_slice()),
        durable: part.durable,
        marks: mark_of(alloc, unit, part.frozen)?,
    })
}

fn advancer_note(alloc: Global, core: &Core) -> Result<Note, AllocError>
    ensures { IfOk result (λ note. note
        ≡ advancer_note (length core.now.units) (durable_clock core.now) core.now.odd) }
{
    let mut marks = Sequence::new(alloc);
    for unit in core.odd.as_slice() {
        marks.push(Mark {
            unit: *unit,
            by: None,
        })?;
    }
    Ok(Note {
        fronts: zeros(alloc, core.units.len())?,
        newest: 0,
        durable: durable_clock(core),
        marks,
    })
}

fn caller_note(alloc: Global, part: &CallerPart) -> Result<Note, AllocError>
    ensures { IfOk result (λ note. note ≡ caller_note part.now) }
{
    Ok(Note {
        fronts: copied(alloc, part.fronts.as_slice())?,
        newest: part.newest,
        durable: part.durable,
        marks: copied(alloc, part.marks.as_slice())?,
    })
}

// The epoch of the last entry, and 0 without one.
fn last_epoch(entries: &[Entry]) -> Epoch
    ensures { result ≡ last_epoch entries.now }
{
    match entries.last() {
        Some(entry) => entry.epoch,
        None => 0,
    }
}

// The mark of a unit in which a caller was cut.
fn mark_of(alloc: Global, unit: Unit, frozen: Option<u64>) -> Result<Sequence<Mark>, AllocError>
    ensures { IfOk result (λ marks. marks ≡ mark_of unit frozen) }
{
    let mut marks = Sequence::new(alloc);
    if frozen.is_some() {
        marks.push(Mark { unit, by: frozen })?;
    }
    Ok(marks)
}
