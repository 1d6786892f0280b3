// How a run is followed, line by line. A line of a part `steps` has steps with `; ` between them.
//
//     tell 0 2            an event, as a schedule tells it; also `split`, `join` and `exchange`,
//                         each with `unit UNIT`, `caller CALLER` or `advancer`
//     write new 0 8 1 1 1 10      the twelve stores of a record: kind, unit, slot, identity,
//                         version, body; zeros at its end aren't told
//     flush               all words that the advancer writes back
//     advance             the advancer's steps until it rests
//     noted 2 0 1 0 0     a note that no part gave is at hand for the next `join`: its newest
//                         epoch, its durable clock, and a front of each unit
//     opens 4             the clock in both memories, as a crash left it
//     holds copy 0 1 3 1 2 1 10   a record in both memories: kind, unit, slot, epoch, and as above
//     waits 0 1 4         a slot of a unit that waits to be closed, with its epoch
//     show WHAT           tells what the core shows (shown_parts.rt)
//     images, picked      tell what recovery makes of images (crash_images.rt)
//
// A step that isn't made is told with the reason. Where effects are asked for, each line is told
// with what each of its steps does to the words.
use crate::crash_images::{tell_images, tell_picked};
use crate::event_lines::{event_of, part_of};
use crate::line_fault::LineFault;
use crate::line_numbers::{first_word, numbers_of};
use crate::machine_run::{Run, make};
use crate::many_steps::{advance, flush, write};
use crate::opened_cores::{hold, open, wait_for};
use crate::shown_parts::show;
use crate::step_effects::tell_effects;
use core_run::note_of;
use core_steps::{Event, Note, Part};
use mont_base::Sequence;
use std::alloc::{AllocError, Global};

/// Follows the lines of a part.
pub fn follow_all(
    alloc: Global,
    run: &mut Run,
    lines: &str,
    with_effects: bool,
) -> Result<(), AllocError> {
    for line in lines.lines() {
        let first = run.memories.len();
        for part in line.split("; ") {
            follow(alloc, run, part)?;
        }
        if with_effects {
            tell_effects(run, line, first)?;
        }
    }
    Ok(())
}

// Follows a step, and tells why it isn't made.
fn follow(alloc: Global, run: &mut Run, line: &str) -> Result<(), AllocError> {
    match take(alloc, run, line) {
        Ok(()) => Ok(()),
        Err(LineFault::Memory) => Err(AllocError),
        Err(fault) => writeln!(run.told, "{line}: {fault}"),
    }
}

fn take(alloc: Global, run: &mut Run, line: &str) -> Result<(), LineFault> {
    let (kind, words) = first_word(line);
    match kind {
        "show" => show(alloc, run, words),
        "images" => tell_images(alloc, run, words),
        "picked" => tell_picked(alloc, run, words),
        "opens" => open(&mut run.core, words),
        "holds" => hold(&mut run.core, words),
        "waits" => wait_for(&mut run.core, words),
        "noted" => note(alloc, run, words),
        _ => take_steps(alloc, run, kind, words),
    }
}

// Makes the steps of a line.
fn take_steps(alloc: Global, run: &mut Run, kind: &str, words: &str) -> Result<(), LineFault> {
    match kind {
        "write" => write(alloc, run, words),
        "flush" => flush(alloc, run),
        "advance" => advance(alloc, run),
        "durable" | "exchange" | "split" | "join" => match part_of(words) {
            Some(part) => take_part(alloc, run, kind, part),
            None => Err(LineFault::Unclear),
        },
        _ => make(alloc, run, &event_of(kind, words)?),
    }
}

// A step that each part of the machine may make.
fn take_part(alloc: Global, run: &mut Run, kind: &str, part: Part) -> Result<(), LineFault> {
    match kind {
        "durable" => make(alloc, run, &Event::LoadDurable { part }),
        "exchange" => make(alloc, run, &Event::Exchange { part }),
        "split" => {
            run.note = note_of(alloc, &run.core, part)?;
            make(alloc, run, &Event::Split { part })
        }
        _ => match run.note.take() {
            Some(note) => make(alloc, run, &Event::Join { part, note }),
            None => Err(LineFault::Unclear),
        },
    }
}

fn note(alloc: Global, run: &mut Run, words: &str) -> Result<(), LineFault> {
    let numbers = numbers_of(words)?;
    let units = run.core.layout.units() as usize;
    let mut fronts = Sequence::new(alloc);
    for front in numbers.iter().skip(2).take(units) {
        fronts.push(*front)?;
    }
    run.note = Some(Note {
        fronts,
        newest: numbers[0],
        durable: numbers[1],
        marks: Sequence::new(alloc),
    });
    Ok(())
}
