// Parts of a report's lines that are numbers for the most part, each as one piece of text. They are
// written from their end on, into memory that is handed in.
ghost use Rattle.std.specs.Prelude.{◌≡◌, ◌+◌, ◌<◌, ◌≤◌, [], ◌∷◌, ◌++◌, IsAscii, length, drop, decimal};
ghost use Rattle.job_text.specs.declared.outcome.Outcome.TheVariants as outcomes;
ghost use Rattle.job_text.specs.declared.number_row.TheConstants.{DIGITS, ROW};
ghost use Rattle.job_text.specs.Lines.{line_of, spaced};
ghost use Rattle.job_text.specs.ReportText.{outcome_words};

use itoa::write_digits;
use mont_base::{Entry, Unit};
use std::str;

// A number has at most so many digits.
const DIGITS: usize = 20;

/// So many bytes hold four numbers, each with a byte after it.
pub const ROW: usize = 4 * (DIGITS + 1);

/// The four numbers with which the line of an entry begins, each with a space after it.
pub fn entry_head<'a>(place: u64, entry: &Entry, held: &'a mut [u8; ROW]) -> &'a str
    ensures { result.now ≡ spaced (decimal place ∷ decimal entry.now.caller
        ∷ decimal entry.now.call ∷ decimal entry.now.epoch ∷ []) ++ 32 ∷ [] }
{
    let at = write_before(entry.epoch, b' ', held, ROW);
    let at = write_before(entry.call, b' ', held, at);
    let at = write_before(entry.caller, b' ', held, at);
    let at = write_before(place, b' ', held, at);
    text_from(held, at)
}

/// The line of a call that was answered.
pub fn answered_line<'a>(unit: Unit, place: u64, held: &'a mut [u8; ROW]) -> &'a str
    ensures { result.now ≡ line_of (outcome_words (outcomes.At unit place)) }
{
    let at = write_before(place, b'\n', held, ROW);
    let at = write_before(unit, b' ', held, at);
    let at = write_byte(b' ', held, at);
    let at = write_byte(b't', held, at);
    let at = write_byte(b'a', held, at);
    text_from(held, at)
}

// Writes a number and a byte after it, so that they end at a place, and answers where they begin.
fn write_before(number: u64, behind: u8, held: &mut [u8; ROW], end: usize) -> usize
    requires room { DIGITS + 1 ≤ end }
    requires within { end ≤ ROW }
    requires ascii { IsAscii (drop end held.old) }
    requires byte { behind < 128 }
    ensures begin { end ≤ result + DIGITS + 1 }
    ensures within { result ≤ ROW }
    ensures ascii { IsAscii (drop result held.new) }
    ensures written { drop result held.new ≡ decimal number ++ behind ∷ drop end held.old }
{
    let at = write_byte(behind, held, end);
    write_digits(number, held, at)
}

// Writes a byte in front of a place, and answers where it stands.
fn write_byte(byte: u8, held: &mut [u8; ROW], end: usize) -> usize
    requires room { 1 ≤ end }
    requires within { end ≤ ROW }
    requires ascii { IsAscii (drop end held.old) }
    requires byte { byte < 128 }
    ensures begin { result + 1 ≡ end }
    ensures ascii { IsAscii (drop result held.new) }
    ensures written { drop result held.new ≡ byte ∷ drop end held.old }
{
    held[end - 1] = byte;
    end - 1
}

// The text from a place on.
fn text_from(held: &[u8; ROW], at: usize) -> &str
    requires within { at ≤ ROW }
    requires ascii { IsAscii (drop at held.now) }
    ensures { result.now ≡ drop at held.now }
{
    // SAFETY: the bytes are ASCII by the contract.
    unsafe { str::from_utf8_unchecked(&held[at..]) }
}
