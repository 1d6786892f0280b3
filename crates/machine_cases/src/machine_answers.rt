// What comes of a case, by its parts beside `store`.
//
//     steps       what is told of a run of the machine (following.rt); with a part `ask` that says
//                 `effects`, each line with what its steps do to the words
//     calls       with `steps`, after how many of these steps a heap has other words, when it is
//                 stopped there; else why a call isn't made
//     counted     how many steps this call takes after the `calls`
//     moves       how many steps a registration takes while the clock moves on so often
//     puts        how many puts, of how many keys, after how many of them the clock moves on: how
//                 many of them are within the cut of the words that are left, and whether these
//                 hold it
//     image       a clock, and the words of all slots: whether a heap of these words has them when
//                 it is stopped
use crate::call_lines::play;
use crate::drawn_puts::{Drawn, put_many};
use crate::engine_ends::{begin_with, stop};
use crate::following::follow_all;
use crate::held_cuts::tell_cut;
use crate::line_fault::LineFault;
use crate::machine_run::{Run, begin, steps_made};
use crate::moving_clock::least_moved;
use crate::reopened::reopened;
use crate::stopped_calls::{first_apart, steps_of};
use crate::store_line::{StoreLine, store_of};
use case_file::{Case, Unanswered, numbers_in};
use mont_base::{Fuel, Layout};
use std::alloc::Global;
use std::str;
use std::sync::Wait;

/// What comes of a case.
pub fn answer<R: AllocGlobal + Wait>(rt: &R, case: &Case) -> Result<Vec<u8>, Unanswered> {
    let alloc = rt.alloc();
    let store = match store_of(case) {
        Ok(store) => store,
        Err(why) => return Err(why),
    };
    let mut told = String::new(alloc);
    match tell(rt, alloc, &mut told, store, case) {
        Ok(()) => {}
        Err(LineFault::Memory) => return Err(Unanswered::Memory),
        Err(fault) => writeln!(told, "{fault}")?,
    }
    Ok(told.into_bytes())
}

fn tell<R: Wait>(
    rt: &R,
    alloc: Global,
    told: &mut String,
    store: StoreLine,
    case: &Case,
) -> Result<(), LineFault> {
    let layout = store.layout;
    if let Some(steps) = case.part("steps") {
        tell_run(rt, alloc, told, store, text_of(steps)?, case)
    } else if let Some(calls) = case.part("calls") {
        tell_calls(rt, alloc, told, layout, text_of(calls)?, case)
    } else if let Some(moves) = case.part("moves") {
        tell_moves(rt, alloc, told, layout, moves)
    } else if let Some(puts) = case.part("puts") {
        tell_puts(rt, alloc, told, layout, puts)
    } else if let Some(image) = case.part("image") {
        tell_image(alloc, told, layout, image)
    } else {
        Err(LineFault::Unclear)
    }
}

fn text_of(part: &[u8]) -> Result<&str, LineFault> {
    match str::from_utf8(part) {
        Ok(text) => Ok(text),
        Err(_) => Err(LineFault::Unclear),
    }
}

fn numbers_of(alloc: Global, part: &[u8]) -> Result<Vec<u64>, LineFault> {
    match numbers_in(alloc, "", part) {
        Ok(numbers) => Ok(numbers),
        Err(Unanswered::Memory) => Err(LineFault::Memory),
        Err(_) => Err(LineFault::Unclear),
    }
}

fn tell_run<R: Wait>(
    rt: &R,
    alloc: Global,
    told: &mut String,
    store: StoreLine,
    steps: &str,
    case: &Case,
) -> Result<(), LineFault> {
    let mut run = begin(alloc, store.layout, store.callers)?;
    follow_case(rt, alloc, &mut run, store.layout, steps, case)?;
    Ok(told.push_str(run.told.as_str())?)
}

// Follows the steps of a case, and tells of its calls, if it has some, whether a heap has other
// words.
fn follow_case<R: Wait>(
    rt: &R,
    alloc: Global,
    run: &mut Run,
    layout: Layout,
    steps: &str,
    case: &Case,
) -> Result<(), LineFault> {
    let with_effects = case.part("ask") == Some(b"effects\n");
    follow_all(alloc, run, steps, with_effects)?;
    let Some(calls) = case.part("calls") else {
        return Ok(());
    };
    let steps = steps_made(run);
    match first_apart(rt, alloc, layout, text_of(calls)?, &run.memories)? {
        None => writeln!(run.told, "the same words after each of {steps} steps")?,
        Some(steps) => writeln!(run.told, "other words after {steps} steps")?,
    }
    Ok(())
}

fn tell_calls<R: Wait>(
    rt: &R,
    alloc: Global,
    told: &mut String,
    layout: Layout,
    calls: &str,
    case: &Case,
) -> Result<(), LineFault> {
    match case.part("counted") {
        Some(counted) => {
            let steps = steps_of(rt, alloc, layout, calls, text_of(counted)?.trim_end())?;
            writeln!(told, "{steps} steps")?;
        }
        None => {
            let mut engine = begin_with(alloc, layout, Fuel::endless())?;
            if !play(rt, alloc, &mut engine, calls)? {
                return Err(LineFault::Cut);
            }
            told.push_str("made\n")?;
        }
    }
    Ok(())
}

fn tell_moves<R: Wait>(
    rt: &R,
    alloc: Global,
    told: &mut String,
    layout: Layout,
    moves: &[u8],
) -> Result<(), LineFault> {
    for moves in &numbers_of(alloc, moves)? {
        let steps = least_moved(rt, alloc, layout, *moves)?;
        writeln!(told, "{moves} moves: {steps} steps")?;
    }
    Ok(())
}

fn tell_puts<R: Wait>(
    rt: &R,
    alloc: Global,
    told: &mut String,
    layout: Layout,
    puts: &[u8],
) -> Result<(), LineFault> {
    let drawn = drawn_in(numbers_of(alloc, puts)?.as_slice())?;
    let mut engine = begin_with(alloc, layout, Fuel::endless())?;
    put_many(rt, alloc, &mut engine, drawn)?;
    let (words, receipts) = stop(alloc, engine)?;
    tell_cut(told, alloc, layout, words.cur.as_slice(), &receipts)?;
    tell_cut(told, alloc, layout, words.dur.as_slice(), &receipts)
}

fn drawn_in(numbers: &[u64]) -> Result<Drawn, LineFault> {
    match numbers {
        [puts, keys, each] => Ok(Drawn {
            puts: *puts,
            keys: *keys,
            each: *each,
        }),
        _ => Err(LineFault::Unclear),
    }
}

fn tell_image(
    alloc: Global,
    told: &mut String,
    layout: Layout,
    image: &[u8],
) -> Result<(), LineFault> {
    let image = numbers_of(alloc, image)?;
    let words = reopened(alloc, layout, &image)?;
    tell_words(told, "current", words.cur.as_slice() == image.as_slice())?;
    tell_words(told, "durable", words.dur.as_slice() == image.as_slice())
}

fn tell_words(told: &mut String, memory: &str, same: bool) -> Result<(), LineFault> {
    if same {
        writeln!(told, "the {memory} words are the image")?;
    } else {
        writeln!(told, "the {memory} words are others")?;
    }
    Ok(())
}
