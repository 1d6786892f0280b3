// Events of the abstract machine told by words, as schedules tell them, and operations with their
// replies.
use crate::line_fault::LineFault;
use crate::line_numbers::{MOST, first_word, numbers_of};
use core_steps::{Event, Part};
use job_text::{MOST_WORDS, answer_of, words};
use mont_base::{Op, Reply};

/// The event that a line tells, but for those that each part of the machine may make.
pub fn event_of(kind: &str, words: &str) -> Result<Event, LineFault> {
    match kind {
        "leave" | "read" => answered(kind, words),
        _ => numbered(kind, &numbers_of(words)?).ok_or(LineFault::Unclear),
    }
}

fn numbered(kind: &str, numbers: &[u64; MOST]) -> Option<Event> {
    let [unit, second, third, fourth, ..] = *numbers;
    let (epoch, slot, caller) = (second, second, second);
    match kind {
        "look" => Some(Event::Look { unit }),
        "tell" => Some(Event::Tell { unit, epoch }),
        "confirm" => Some(Event::Confirm { unit }),
        "withdraw" => Some(Event::Withdraw { unit }),
        "freeze" => Some(Event::Freeze { unit, caller }),
        "close" => Some(Event::CloseLabel { unit, slot }),
        "persistclose" => Some(Event::PersistClose { unit }),
        "store" => Some(Event::Store {
            unit,
            slot,
            field: third,
            value: fourth,
        }),
        _ => advancers(kind),
    }
}

fn advancers(kind: &str) -> Option<Event> {
    match kind {
        "check" => Some(Event::Check),
        "loadword" => Some(Event::LoadWord),
        "persistword" => Some(Event::PersistWord),
        "setclock" => Some(Event::SetClock),
        "persistclock" => Some(Event::PersistClock),
        _ => None,
    }
}

// `UNIT CALLER OP = REPLY`.
fn answered(kind: &str, words: &str) -> Result<Event, LineFault> {
    let (unit, behind) = first_word(words);
    let (caller, answer) = first_word(behind);
    let ([unit, ..], [caller, ..]) = (numbers_of(unit)?, numbers_of(caller)?);
    let (op, reply) = answer_in(answer)?;
    if kind == "leave" {
        Ok(Event::Leave {
            unit,
            caller,
            op,
            reply,
        })
    } else {
        Ok(Event::Read {
            unit,
            caller,
            op,
            reply,
        })
    }
}

/// An operation and its reply, with `=` between them.
pub fn answer_in(line: &str) -> Result<(Op, Reply), LineFault> {
    let Some(words) = words::<MOST_WORDS>(line.as_bytes()) else {
        return Err(LineFault::Unclear);
    };
    match answer_of(words.as_slice()) {
        Some((op, reply, _)) => Ok((op, reply)),
        None => Err(LineFault::Unclear),
    }
}

/// A part of the machine: `unit UNIT`, `caller CALLER` or `advancer`.
pub fn part_of(line: &str) -> Option<Part> {
    match line.split_once(' ') {
        Some(("unit", unit)) => unit.parse().ok().map(|unit| Part::Unit { unit }),
        Some(("caller", caller)) => caller.parse().ok().map(|caller| Part::Caller { caller }),
        None if line == "advancer" => Some(Part::Advancer),
        _ => None,
    }
}
