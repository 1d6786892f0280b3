// A script that is run as often as it asks: with boxes of each kind, and with each number of steps
// of a range, where numbers one after the other of which the same is told are told together.
use crate::empty_box::EmptyBox;
use crate::refusing_index::RefusingIndex;
use crate::round_play::run_script;
use crate::scene::Run;
use crate::script_fault::ScriptFault;
use crate::script_words::number_in;
use case_file::Case;
use index_kit::{ProbeIndex, SortedIndex};
use std::alloc::{AllocError, Global};
use std::sync::Wait;
use std::thread::Threads;

// A script is run with smaller numbers of steps.
const MOST_STEPS: u64 = 1000;

/// What is told of a script, which leaves the number of the last line that was read. Where its
/// boxes are to refuse room, they are of one kind alone.
pub fn tell_script<R: Threads + Wait + Sync>(
    rt: &R,
    alloc: Global,
    case: &Case,
    lines: &[&str],
    read: &mut usize,
) -> Result<String, ScriptFault> {
    match behind(lines, "room ") {
        Some(many) => {
            tell_runs::<R, RefusingIndex>(rt, alloc, case, lines, number_in(many)?, read)
        }
        None => tell_kinds(rt, alloc, case, lines, read),
    }
}

// What stands after a word at the begin of a line, if there is such a line.
fn behind<'a>(lines: &[&'a str], word: &str) -> Option<&'a str> {
    for line in lines {
        if let Some(rest) = line.strip_prefix(word) {
            return Some(rest);
        }
    }
    None
}

// Whether a script begins with a store that was never used and has no map unit.
fn has_no_map(lines: &[&str]) -> bool {
    match behind(lines, "store ") {
        Some(shape) => shape.split_once('m').is_none(),
        None => false,
    }
}

// What is told of a script with sorted boxes, and after that what is told of it with others where
// that is something else.
fn tell_kinds<R: Threads + Wait + Sync>(
    rt: &R,
    alloc: Global,
    case: &Case,
    lines: &[&str],
    read: &mut usize,
) -> Result<String, ScriptFault> {
    let room = u64::MAX;
    let sorted = tell_runs::<R, SortedIndex>(rt, alloc, case, lines, room, read)?;
    if has_no_map(lines) {
        return Ok(sorted);
    }
    let probed = tell_runs::<R, ProbeIndex>(rt, alloc, case, lines, room, read)?;
    let own = tell_runs::<R, RefusingIndex>(rt, alloc, case, lines, room, read)?;
    Ok(kinds_told(alloc, sorted.as_str(), probed.as_str(), own.as_str())?)
}

fn kinds_told(alloc: Global, sorted: &str, probed: &str, own: &str) -> Result<String, AllocError> {
    let mut told = String::from_str(alloc, sorted)?;
    if probed != sorted {
        write!(told, "but with probed boxes\n{probed}")?;
    }
    if own != sorted {
        write!(told, "but with boxes of its own\n{own}")?;
    }
    Ok(told)
}

// What is told of the runs of a script with boxes of a kind.
fn tell_runs<R: Threads + Wait + Sync, I: EmptyBox>(
    rt: &R,
    alloc: Global,
    case: &Case,
    lines: &[&str],
    rooms: u64,
    read: &mut usize,
) -> Result<String, ScriptFault> {
    let Some(range) = behind(lines, "each ") else {
        return run_script::<R, I>(rt, alloc, case, lines, Run { rooms, each: None }, read);
    };
    let (from, to) = range_in(range)?;
    let mut texts = Vec::new(alloc);
    for steps in from..to.saturating_add(1) {
        let each = Some(steps);
        let run = Run { rooms, each };
        texts.push(run_script::<R, I>(rt, alloc, case, lines, run, read)?)?;
    }
    Ok(texts_told(alloc, from, texts.as_slice())?)
}

// From how many steps to how many a script is run.
fn range_in(words: &str) -> Result<(u64, u64), ScriptFault> {
    let (from, to) = words.split_once(' ').ok_or(ScriptFault::Unclear)?;
    let (from, to) = (number_in(from)?, number_in(to)?);
    if from <= to && to < MOST_STEPS {
        Ok((from, to))
    } else {
        Err(ScriptFault::Unclear)
    }
}

// Tells the texts of numbers of steps, the first of which is this one.
fn texts_told(alloc: Global, first: u64, texts: &[String]) -> Result<String, AllocError> {
    let mut told = String::new(alloc);
    let mut from = first;
    let mut to = first;
    for (at, text) in texts.iter().enumerate() {
        let is_last = match texts.get(at.saturating_add(1)) {
            Some(next) => next.as_str() != text.as_str(),
            None => true,
        };
        if is_last {
            tell_text(&mut told, from, to, text.as_str())?;
            from = to.saturating_add(1);
        }
        to = to.saturating_add(1);
    }
    Ok(told)
}

fn tell_text(told: &mut String, from: u64, to: u64, text: &str) -> Result<(), AllocError> {
    if from == to {
        writeln!(told, "with {from} steps")?;
    } else {
        writeln!(told, "with {from} to {to} steps")?;
    }
    told.push_str(text)
}
