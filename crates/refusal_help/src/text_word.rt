// Keys and values in words, and why a word spells none. A byte that can be seen stands for itself,
// but `%`; any other is `%` and two digits in base 16, and the empty text is `%` alone.
ghost use Rattle.std.specs.Prelude.{◌≡◌, ◌≢◌, ◌<◌, ◌++◌, ℕ, List, MatchOption, MatchResult};
ghost use Rattle.refusal_help.specs.TextWords.{hex_digit, is_bare, byte_word, IsTextWord, IsTextFault};

use crate::cause::TextFault;
use mont_base::TEXT_BYTES;

/// What the empty text is spelled by, and what the spelling of a byte that can't be seen begins
/// with.
const MARK: u8 = b'%';

/// Whether a word spells a text of at most 24 bytes.
pub fn check_text(word: &[u8]) -> Result<(), TextFault>
    ensures { MatchResult result (λ _. IsTextWord word.now)
        (λ fault. IsTextFault word.now fault) }
{
    if word.len() < 1 {
        return Err(TextFault::Empty);
    }
    if word == [MARK].as_slice() {
        return Ok(());
    }
    let mut bytes = 0;
    let mut rest = word;
    while rest.len() > 0 {
        let Some((_, after)) = next_byte(rest) else {
            let at = (word.len() - rest.len()) as u64;
            return Err(TextFault::NoByte { at });
        };
        bytes += 1;
        rest = after;
    }
    if bytes > TEXT_BYTES as u64 {
        Err(TextFault::Long { bytes })
    } else {
        Ok(())
    }
}

// The byte with whose spelling a word begins, and what follows it.
fn next_byte(word: &[u8]) -> Option<(u8, &[u8])>
    ensures { MatchOption result
        ((byte : ℕ) (after : List ℕ) → byte < 256 → word.now ≢ byte_word byte ++ after)
        (λ p. (p.0 < 256) × (word.now ≡ byte_word p.0 ++ p.1.now)) }
{
    match word {
        [MARK, high, low, after @ ..] => {
            let byte = 16 * digit(*high)? + digit(*low)?;
            if is_bare(byte) {
                None
            } else {
                Some((byte, after))
            }
        }
        [byte, after @ ..] if is_bare(*byte) => Some((*byte, after)),
        _ => None,
    }
}

// Whether a byte stands for itself.
fn is_bare(byte: u8) -> bool
    ensures { result ≡ is_bare byte }
{
    33 <= byte && byte <= 126 && byte != MARK
}

/// The number below 16 of which this is the digit.
pub fn digit(byte: u8) -> Option<u8>
    ensures { MatchOption result ((n : ℕ) → n < 16 → byte ≢ hex_digit n)
        (λ n. (n < 16) × (byte ≡ hex_digit n)) }
{
    match byte {
        b'0'..=b'9' => Some(byte - b'0'),
        b'a'..=b'f' => Some(byte - b'a' + 10),
        _ => None,
    }
}
