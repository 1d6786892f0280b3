// A text with other lines in the place of some of its own.
use crate::case_numbers::number_of;
use crate::case_refusal::Unanswered;
use crate::text_lines::without_last_feed;
use std::alloc::{AllocError, Global};

const HEAD: &str = "other lines";

/// The text in which other lines stand in the place of some. `N: LINE` stands in the place of
/// line N, counted from 1, after what was put there before. `N-` leaves line N out.
pub fn with_other_lines(alloc: Global, text: &[u8], others: &[u8]) -> Result<Vec<u8>, Unanswered> {
    let mut other = Vec::new(alloc);
    let lines = without_last_feed(text);
    for (at, line) in lines.split(|byte| *byte == b'\n').enumerate() {
        push_in_place(&mut other, at, line, others)?;
    }
    Ok(other)
}

// Adds what stands in the place of the line at a place, which is counted from 0.
fn push_in_place(
    text: &mut Vec<u8>,
    at: usize,
    line: &[u8],
    others: &[u8],
) -> Result<(), Unanswered> {
    let mut stays = true;
    for other in without_last_feed(others).split(|byte| *byte == b'\n') {
        let (number, instead) = instead_of(other)?;
        if number.checked_sub(1) == u64::try_from(at).ok() {
            stays = false;
            if let Some(instead) = instead {
                push_whole(text, instead)?;
            }
        }
    }
    if stays {
        push_whole(text, line)?;
    }
    Ok(())
}

// Adds a line and its line feed.
fn push_whole(text: &mut Vec<u8>, line: &[u8]) -> Result<(), AllocError> {
    text.extend_from_slice(line)?;
    text.push(b'\n')?;
    Ok(())
}

// Which line is replaced, and what stands in its place, if anything does.
fn instead_of(other: &[u8]) -> Result<(u64, Option<&[u8]>), Unanswered> {
    let unclear = Unanswered::Unclear { head: HEAD };
    let Some(at) = other.iter().position(|byte| !byte.is_ascii_digit()) else {
        return Err(unclear);
    };
    let Some(number) = number_of(&other[..at]) else {
        return Err(unclear);
    };
    match &other[at..] {
        [b'-'] => Ok((number, None)),
        [b':'] => Ok((number, Some(&[]))),
        [b':', b' ', instead @ ..] => Ok((number, Some(instead))),
        _ => Err(unclear),
    }
}
