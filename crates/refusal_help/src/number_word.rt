// Numbers in words, and why a word spells none.
ghost use Rattle.std.specs.Prelude.{◌≡◌, ◌<◌, ◌≤◌, ◌^◌, true, length, slice_index, decimal, MatchResult};
ghost use Rattle.refusal_help.specs.Numbers.{are_digits, IsNumberFault};

use crate::cause::NumberFault;
use std::str;

/// The number of 64 bits that a word spells by its digits, without a zero in front of others.
pub fn number_of(word: &[u8]) -> Result<u64, NumberFault>
    ensures { MatchResult result (λ n. (n < 2 ^ 64) × (word.now ≡ decimal n))
        (λ fault. IsNumberFault word.now fault) }
{
    if word.len() < 1 || !are_digits(word) {
        return Err(NumberFault::NoDigits);
    }
    if word[0] == b'0' && word.len() > 1 {
        return Err(NumberFault::LeadingZero);
    }
    digits_number(word)
}

// The number of digits of which no zero stands in front of others.
fn digits_number(word: &[u8]) -> Result<u64, NumberFault>
    requires digits { are_digits word.now ≡ true }
    requires some { 0 < length word.now }
    requires plain { slice_index word.now 0 ≡ 48 → length word.now ≤ 1 }
    ensures { MatchResult result (λ n. (n < 2 ^ 64) × (word.now ≡ decimal n))
        (λ fault. IsNumberFault word.now fault) }
{
    // SAFETY: digits are ASCII.
    let text = unsafe { str::from_utf8_unchecked(word) };
    match text.parse() {
        Ok(number) => Ok(number),
        Err(_) => Err(NumberFault::TooLarge),
    }
}

// Whether each byte is a digit.
fn are_digits(word: &[u8]) -> bool
    ensures { result ≡ are_digits word.now }
{
    word.iter().all(|byte| byte.is_ascii_digit())
}
