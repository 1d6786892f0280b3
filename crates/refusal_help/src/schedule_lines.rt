// The first thing that is wrong with a line of a schedule.
ghost use Rattle.std.specs.Prelude.{map, IfOk, MatchOption};
ghost use Rattle.refusal_help.specs.Lines.{AreWords, IsWordCause};
ghost use Rattle.refusal_help.specs.Words.{nothing_given};
ghost use Rattle.refusal_help.specs.Judged.{IsCause, IsSound, title_wants};

use crate::cause::Cause;
use crate::event::Event;
use crate::given::Given;
use crate::job_lines::operation_at;
use crate::line_bytes::check_bytes;
use crate::number_word::number_of;
use crate::operation::Operation;
use crate::part::Part;
use crate::reply::Reply;
use crate::wanted::{Figure, Fixed, Wanted};
use crate::words::{check_words, words_of};
use mont_base::MOST_PAIRS;
use std::alloc::{AllocError, Global};

const TITLE: [Wanted; 5] = [
    Wanted::Word(Fixed::ScheduleTitle),
    Wanted::Word(Fixed::ScheduleVersion),
    Wanted::Kinds,
    Wanted::Number(Figure::Slots),
    Wanted::Number(Figure::Callers),
];

/// The first thing that is wrong with the first line of a schedule; none where each of its words
/// is what its place wants.
pub fn title_cause(alloc: Global, line: &[u8]) -> Result<Option<Cause>, AllocError>
    ensures { IfOk result (λ cause. MatchOption cause (IsSound nothing_given title_wants line.now)
        (λ c. IsCause nothing_given title_wants line.now c)) }
{
    if let Err(cause) = check_bytes(line) {
        return Ok(Some(cause));
    }
    let words = words_of(alloc, line)?;
    Ok(title_words_cause(words.as_slice()))
}

// The first thing that is wrong with the words of the first line.
fn title_words_cause(words: &[&[u8]]) -> Option<Cause>
    ensures { MatchOption result
        (AreWords nothing_given title_wants (map (λ word. word.now) words.now))
        (λ c. IsWordCause nothing_given title_wants (map (λ word. word.now) words.now) c) }
{
    match check_words(words, &TITLE, &Given::nothing()) {
        Ok(()) => None,
        Err(cause) => Some(cause),
    }
}

/// The first thing that is wrong with a later line of a schedule, whose first line gave this; none
/// where each of its words is what its place wants.
pub fn event_cause(alloc: Global, line: &[u8], given: &Given) -> Result<Option<Cause>, AllocError> {
    if let Err(cause) = check_bytes(line) {
        return Ok(Some(cause));
    }
    let words = words_of(alloc, line)?;
    let wants = wants_of(alloc, words.as_slice())?;
    Ok(check_words(words.as_slice(), wants.as_slice(), given).err())
}

// What the words of a line are to be, as far as those before them tell it.
fn wants_of(alloc: Global, words: &[&[u8]]) -> Result<Vec<Wanted>, AllocError> {
    let mut wants = vec![in alloc; Wanted::Event]?;
    let Some(event) = event_at(words, 0) else {
        return Ok(wants);
    };
    wants.extend_from_slice(event.args())?;
    match event {
        Event::Durable => {
            if let Some(part) = part_at(words, 1) {
                wants.extend_from_slice(part.args())?;
            }
        }
        Event::Leave | Event::Read => add_answer(&mut wants, words)?,
        _ => {}
    }
    Ok(wants)
}

// Adds what an operation, after an event's unit and caller, and its reply are to be.
fn add_answer(wants: &mut Vec<Wanted>, words: &[&[u8]]) -> Result<(), AllocError> {
    let Some(operation) = operation_at(words, 3) else {
        return Ok(());
    };
    wants.extend_from_slice(operation.args())?;
    wants.push(Wanted::Word(Fixed::Equals))?;
    let at = wants.len();
    wants.push(Wanted::Reply)?;
    match reply_at(words, at) {
        Some(Reply::Was) => wants.push(value_of(operation))?,
        Some(Reply::Count) => wants.push(Wanted::Number(Figure::Any))?,
        Some(Reply::Key) => wants.push(Wanted::Key)?,
        Some(Reply::Pairs) => {
            wants.push(Wanted::Number(Figure::Pairs))?;
            for _ in 0..pairs_at(words, at + 1) {
                wants.push(Wanted::Key)?;
                wants.push(Wanted::Value)?;
            }
        }
        Some(Reply::Nothing | Reply::NoEnds) | None => {}
    }
    Ok(())
}

// What an earlier value of an operation is.
fn value_of(operation: Operation) -> Wanted {
    match operation {
        Operation::Put | Operation::Get | Operation::Del => Wanted::Value,
        Operation::OPut | Operation::OGet | Operation::ODel => Wanted::Value,
        Operation::OFloor | Operation::ORank | Operation::ORange => Wanted::Value,
        _ => Wanted::Number(Figure::Any),
    }
}

// How many pairs the word at a place tells; none where it is no number that may stand there.
fn pairs_at(words: &[&[u8]], at: usize) -> u64 {
    match words.get(at) {
        Some(word) => match number_of(word) {
            Ok(pairs) if pairs <= MOST_PAIRS as u64 => pairs,
            _ => 0,
        },
        None => 0,
    }
}

fn event_at(words: &[&[u8]], at: usize) -> Option<Event> {
    Event::of_word(words.get(at)?)
}

fn part_at(words: &[&[u8]], at: usize) -> Option<Part> {
    Part::of_word(words.get(at)?)
}

fn reply_at(words: &[&[u8]], at: usize) -> Option<Reply> {
    Reply::of_word(words.get(at)?)
}
