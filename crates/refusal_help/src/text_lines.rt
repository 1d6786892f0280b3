// The lines of a text.
ghost use Rattle.std.specs.Prelude.{◌≡◌, ◌-◌, ◌+◌, ◌<◌, ◌≤◌, ◌↔◌, length, slice_get, IsTrue, MatchResult};
ghost use Rattle.std.specs.Option.{option_map};
ghost use Rattle.refusal_help.specs.declared.limits.TheConstants.{MOST_LINES};
ghost use Rattle.refusal_help.specs.TextLines.{parts_of, line_of, IsEnded, IsTextFault};

use crate::cause::Cause;
use crate::limits::MOST_LINES;

/// A line of a text: its bytes before its line feed, and whether it has one.
#[derive(Clone, Copy, Debug)]
pub struct TextLine<'a> {
    pub bytes: &'a [u8],
    pub ended: bool,
}

/// The line of this number, counted from 1. A line that the text doesn't have is empty, and isn't
/// ended.
pub fn line_at(text: &[u8], number: u64) -> TextLine<'_>
    ensures bytes { result.bytes.now ≡ line_of text.now (number - 1) }
    ensures ended { IsTrue result.ended ↔ IsEnded text.now (number - 1) }
{
    let place = number.saturating_sub(1) as usize;
    let bytes = bytes_at(text, place);
    let ended = has_part(text, place + 1);
    TextLine { bytes, ended }
}

// The part between line feeds at a place, counted from 0.
fn part_at(text: &[u8], place: usize) -> Option<&[u8]>
    ensures { option_map (λ part. part.now) result ≡ slice_get (parts_of text.now) place }
{
    text.split(|byte| *byte == b'\n').nth(place)
}

// The part at a place, or no bytes.
fn bytes_at(text: &[u8], place: usize) -> &[u8]
    ensures { result.now ≡ line_of text.now place }
{
    match part_at(text, place) {
        Some(bytes) => bytes,
        None => b"",
    }
}

// Whether there is a part at a place.
fn has_part(text: &[u8], place: usize) -> bool
    ensures { IsTrue result ↔ (place < length (parts_of text.now)) }
{
    part_at(text, place).is_some()
}

/// What is wrong with a line before its words are looked at, where a text has lines of at most so
/// many bytes.
pub fn check_line(line: &TextLine, number: u64, most: usize) -> Result<(), Cause>
    ensures { MatchResult result
        (λ _. (number ≤ MOST_LINES) × (length line.now.bytes.now ≤ most) × IsTrue line.now.ended)
        (λ cause. IsTextFault line.now.bytes.now line.now.ended number most cause) }
{
    if number > MOST_LINES {
        return Err(Cause::Many { most: MOST_LINES });
    }
    if line.bytes.len() > most {
        let bytes = line.bytes.len() as u64;
        let most = most as u64;
        return Err(Cause::Long { bytes, most });
    }
    if line.ended {
        Ok(())
    } else {
        Err(Cause::Unended)
    }
}
