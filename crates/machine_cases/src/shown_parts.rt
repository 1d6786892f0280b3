// What a core shows, told as its values are.
//
//     steps, clock, list, odd, advancer       how many steps were made, the clock in both memories,
//                 the slots that the advancer is to write back, the units whose announcement it
//                 found odd, how far it is
//     word SLOT FIELD                         a word of a slot in both memories
//     unit, records, retired, lost, entries   of a unit how far it is with its announcement, its
//                 records, the slots that wait to be closed, lost slots, of its entries the caller,
//                 the number of the call, and the epoch
//     fronts, synced, newest, cuts, marks     of a caller how many entries of each unit it has
//                 seen, and has seen to be durable, its newest epoch and its durable clock, the
//                 units in which it was cut, and of which cuts it has heard
use crate::line_fault::LineFault;
use crate::line_numbers::{first_word, numbers_of};
use crate::machine_run::{Run, steps_made};
use crate::opened_cores::place_of;
use core_answer::core_words::word;
use core_run::flush_list;
use core_steps::{CallerPart, Core, UnitPart};
use std::alloc::{AllocError, Global};
use std::fmt::Debug;

/// Tells what the core of a run shows.
pub fn show(alloc: Global, run: &mut Run, what: &str) -> Result<(), LineFault> {
    let (name, words) = first_word(what);
    let [first, second, ..] = numbers_of(words)?;
    write!(run.told, "{what} = ")?;
    let steps = steps_made(run);
    let (told, core) = (&mut run.told, &run.core);
    match name {
        "steps" => tell(told, &steps)?,
        "clock" => tell_word(told, core, 0)?,
        "word" => tell_word(told, core, place_of(first, second))?,
        _ => tell_part(alloc, told, core, name, first)?,
    }
    Ok(told.push('\n')?)
}

fn tell<T: Debug>(told: &mut String, value: &T) -> Result<(), AllocError> {
    write!(told, "{value:?}")
}

// The current value of a word, and its durable one.
fn tell_word(told: &mut String, core: &Core, place: u64) -> Result<(), AllocError> {
    tell(told, &[word(&core.cur, place), word(&core.dur, place)])
}

fn tell_part(
    alloc: Global,
    told: &mut String,
    core: &Core,
    name: &str,
    number: u64,
) -> Result<(), LineFault> {
    match name {
        "list" => Ok(tell(told, &flush_list(alloc, core)?.as_slice())?),
        "odd" => Ok(tell(told, &core.odd.as_slice())?),
        "advancer" => Ok(tell(told, &core.advancer)?),
        "fronts" | "synced" | "newest" | "cuts" | "marks" => match core.callers.get(number) {
            Some(part) => Ok(tell_caller(told, part, name)?),
            None => Err(LineFault::Unclear),
        },
        _ => match core.units.get(number) {
            Some(part) => Ok(tell_unit(alloc, told, part, word(&core.told, number), name)?),
            None => Err(LineFault::Unclear),
        },
    }
}

fn tell_unit(
    alloc: Global,
    told: &mut String,
    part: &UnitPart,
    announced: u64,
    name: &str,
) -> Result<(), AllocError> {
    match name {
        "unit" => write!(told, "{:?} {announced}", part.stage),
        "records" => tell(told, &part.records.as_slice()),
        "retired" => tell(told, &part.retired.as_slice()),
        "lost" => tell(told, &part.lost.as_slice()),
        "entries" => tell_entries(alloc, told, part),
        _ => told.push('?'),
    }
}

fn tell_entries(alloc: Global, told: &mut String, part: &UnitPart) -> Result<(), AllocError> {
    let mut entries = Vec::new(alloc);
    for entry in part.history.as_slice() {
        entries.push([entry.caller, entry.call, entry.epoch])?;
    }
    tell(told, &entries.as_slice())
}

fn tell_caller(told: &mut String, part: &CallerPart, name: &str) -> Result<(), AllocError> {
    match name {
        "fronts" => tell(told, &part.fronts.as_slice()),
        "synced" => tell(told, &part.synced.as_slice()),
        "cuts" => tell(told, &part.cuts.as_slice()),
        "marks" => tell(told, &part.marks.as_slice()),
        _ => tell(told, &[part.newest, part.durable]),
    }
}
