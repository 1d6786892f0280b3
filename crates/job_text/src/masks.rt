// Masks, as sixteen digits in base 16, that of the highest place first.
ghost use Rattle.std.specs.Prelude.{◌≡◌, ◌≢◌, ◌++◌, ◌<◌, ◌^◌, ℕ, OnOk, MatchOption};
ghost use Rattle.std.specs.String.{string_bytes};
ghost use Rattle.job_text.specs.Spelling.{hex_digit, hex_digits};
ghost use Rattle.job_text.specs.Operations.{IsNumber};

use crate::text_word::digit;
use std::alloc::AllocError;

/// How many digits a mask has.
const DIGITS: usize = 16;

/// The mask that a word spells.
pub fn mask(word: &[u8]) -> Option<u64>
    ensures { MatchOption result ((n : ℕ) → IsNumber n → word.now ≢ hex_digits 16 n)
        (λ n. IsNumber n × (word.now ≡ hex_digits 16 n)) }
{
    if word.len() != DIGITS {
        return None;
    }
    let mut mask = 0;
    for byte in word {
        mask = 16 * mask + u64::from(digit(*byte)?);
    }
    Some(mask)
}

/// Writes a mask.
pub fn write_mask(text: &mut String, mask: u64) -> Result<(), AllocError>
    ensures { OnOk result (string_bytes text.new ≡ string_bytes text.old ++ hex_digits 16 mask) }
{
    write_digits(text, mask, DIGITS)
}

// Writes so many of the last digits of a number.
fn write_digits(text: &mut String, number: u64, count: usize) -> Result<(), AllocError>
    ensures { OnOk result (string_bytes text.new
        ≡ string_bytes text.old ++ hex_digits count number) }
{
    if count == 0 {
        return Ok(());
    }
    write_digits(text, number / 16, count - 1)?;
    text.push(hex_digit((number % 16) as u8))
}

// The digit of a number below 16.
fn hex_digit(number: u8) -> char
    requires { number < 16 }
    ensures { result ≡ hex_digit number }
{
    if number < 10 {
        char::from(b'0' + number)
    } else {
        char::from(b'a' + (number - 10))
    }
}
