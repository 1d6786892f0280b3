// The first thing that is wrong with a line of a whole text.
use crate::cause::Cause;
use crate::given::Given;
use crate::job_lines::{header_cause, line_cause};
use crate::limits::{JOB_LINE_BYTES, SCHEDULE_LINE_BYTES};
use crate::number_word::number_of;
use crate::schedule_lines::{event_cause, title_cause};
use crate::text_lines::{check_line, line_at};
use crate::wanted::Fixed;
use crate::words::words_of;
use mont_base::{Kinds, Layout};
use std::alloc::{AllocError, Global};

/// The first thing that is wrong with the line of this number, counted from 1, of a job's text
/// whose earlier lines are those of a job; none where the line may stand.
pub fn job_cause(alloc: Global, text: &[u8], number: u64) -> Result<Option<Cause>, AllocError> {
    let line = line_at(text, number);
    if let Err(cause) = check_line(&line, number, JOB_LINE_BYTES) {
        return Ok(Some(cause));
    }
    if number <= 1 {
        header_cause(alloc, line.bytes)
    } else {
        let header = words_of(alloc, line_at(text, 1).bytes)?;
        let before = words_of(alloc, line_at(text, number - 1).bytes)?;
        let mut given = given_by(header.as_slice());
        if number > 2 {
            given.gate = gate_behind(before.as_slice());
        }
        line_cause(alloc, line.bytes, &given)
    }
}

/// The same of a schedule's text.
pub fn schedule_cause(
    alloc: Global,
    text: &[u8],
    number: u64,
) -> Result<Option<Cause>, AllocError> {
    let line = line_at(text, number);
    if let Err(cause) = check_line(&line, number, SCHEDULE_LINE_BYTES) {
        return Ok(Some(cause));
    }
    if number <= 1 {
        title_cause(alloc, line.bytes)
    } else {
        let title = words_of(alloc, line_at(text, 1).bytes)?;
        event_cause(alloc, line.bytes, &given_by(title.as_slice()))
    }
}

/// What the words of the first line of a job or of a schedule give.
pub fn given_by(words: &[&[u8]]) -> Given {
    match words {
        [_, _, kinds, slots, callers, ..] => Given {
            layout: layout_of(kinds, slots),
            callers: number_of(callers).unwrap_or(0),
            gate: Some(0),
        },
        _ => Given::nothing(),
    }
}

// The layout that two words spell.
fn layout_of(kinds: &[u8], slots: &[u8]) -> Option<Layout> {
    let kinds = Kinds::of_letters(kinds).ok()?;
    Layout::new(kinds, number_of(slots).ok()?).ok()
}

// The least gate of a stop line after a line with these words.
fn gate_behind(words: &[&[u8]]) -> Option<u64> {
    match words {
        [stop, gate, _] if *stop == Fixed::Stop.word() => {
            Some(number_of(gate).ok()?.saturating_add(1))
        }
        _ => None,
    }
}
