// Numbers written by decimal digits.
ghost use Rattle.std.specs.Prelude.{◌≡◌, ◌≢◌, ◌<◌, ◌≤◌, ◌↔◌, ◌^◌, ℕ, List, length, map, All, IsTrue, MatchOption, decimal};
ghost use Rattle.job_text.specs.Operations.{IsNumber};
ghost use Rattle.job_text.specs.Parts.{IsUnpadded};

use std::str;

/// The numbers that so many words spell.
pub fn numbers<const N: usize>(words: &[&[u8]]) -> Option<[u64; N]>
    ensures { MatchOption result
        ((ns : List ℕ) → length ns ≡ N → All IsNumber ns
        → map (λ word. word.now) words.now ≢ map decimal ns)
        (λ ns. (length ns ≡ N) × All IsNumber ns
        × (map (λ word. word.now) words.now ≡ map decimal ns)) }
{
    if words.len() != N {
        return None;
    }
    let mut numbers = [0; N];
    for (at, word) in words.iter().enumerate() {
        numbers[at] = number(word)?;
    }
    Some(numbers)
}

// whether a word begins neither with a sign nor with a zero in front of others
fn is_unpadded(word: &[u8]) -> bool
    ensures { IsTrue result ↔ IsUnpadded word.now }
{
    word.is_empty() || (word[0] != b'+' && (word[0] != b'0' || word.len() == 1))
}

/// The number that a word spells: digits, without a zero in front of others, of at most 2^64 - 1.
pub fn number(word: &[u8]) -> Option<u64>
    ensures { MatchOption result ((n : ℕ) → n < 2 ^ 64 → word.now ≢ decimal n)
        (λ n. (n < 2 ^ 64) × (word.now ≡ decimal n)) }
{
    if !is_unpadded(word) {
        return None;
    }
    if !word.is_ascii() {
        return None;
    }
    // SAFETY: `is_ascii` holds of the word.
    let text = unsafe { str::from_utf8_unchecked(word) };
    text.parse().ok()
}
