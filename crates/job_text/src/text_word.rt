// Keys and values of maps as words. A byte that can be seen stands for itself, but `%`. Any other
// is `%` and two digits of base 16, and the empty text is `%` alone.
ghost use Rattle.std.specs.Prelude.{◌≡◌, ◌≢◌, ◌<◌, ◌+◌, ◌++◌, [], ℕ, List, false, MatchOption};
ghost use Rattle.std.specs.List.{list_all};
ghost use Rattle.mont_base.specs.Texts.{IsText};
ghost use Rattle.job_text.specs.Spelling.{hex_digit, is_bare, byte_word, text_word};

use mont_base::{TEXT_BYTES, Text};
use std::{fmt, str};

/// What the empty text is spelled by, and what another's first byte is not.
const MARK: u8 = b'%';

/// A key or a value, as it is spelled.
#[derive(Clone, Copy)]
pub struct TextWord(pub Text);

impl fmt::Display for TextWord {
    ghost use Rattle.std.specs.Prelude.{Some};
    ghost use Rattle.job_text.specs.Spelling.{text_word};

    ghost output = { λ word. Some (text_word word.0) };

    fn fmt<W: fmt::Write>(&self, f: &mut fmt::Formatter<W>) -> fmt::Result {
        let text = self.0;
        if text.is_empty() {
            return write!(f, "%");
        }
        let mut held = [0; TEXT_BYTES];
        if let Some(word) = bare_word(&text, &mut held) {
            return f.write_str(word);
        }
        for at in 0..text.len() {
            ByteWord(text.byte(at)).fmt(f)?;
        }
        Ok(())
    }
}

// The word of a text all of whose bytes stand for themselves, in memory that is handed in.
fn bare_word<'a>(text: &Text, held: &'a mut [u8; TEXT_BYTES]) -> Option<&'a str>
    requires { text.now ≢ [] }
    ensures { MatchOption result (list_all is_bare text.now ≡ false)
        (λ word. word.now ≡ text_word text.now) }
{
    let len = text.len() as usize;
    for at in 0..len {
        let byte = text.byte(at as u64);
        if !is_bare(byte) {
            return None;
        }
        held[at] = byte;
    }
    // SAFETY: each byte was found to stand for itself, so it is ASCII.
    Some(unsafe { str::from_utf8_unchecked(&held[..len]) })
}

// A byte of a text, as it is spelled.
#[derive(Clone, Copy)]
struct ByteWord(u8);

impl fmt::Display for ByteWord {
    ghost use Rattle.std.specs.Prelude.{Some};
    ghost use Rattle.job_text.specs.Spelling.{byte_word};

    ghost output = { λ word. Some (byte_word word.0) };

    fn fmt<W: fmt::Write>(&self, f: &mut fmt::Formatter<W>) -> fmt::Result {
        let byte = self.0;
        if is_bare(byte) {
            f.write_char(char::from(byte))
        } else {
            write!(f, "%{byte:02x}")
        }
    }
}

/// The key or the value that a word spells.
pub fn text(word: &[u8]) -> Option<Text>
    ensures { MatchOption result ((t : List ℕ) → IsText t → word.now ≢ text_word t)
        (λ t. IsText t × (word.now ≡ text_word t)) }
{
    if word == [MARK].as_slice() {
        return Text::of_bytes(&[]).ok();
    }
    if word.is_empty() {
        return None;
    }
    if are_bare(word) {
        return Text::of_bytes(word).ok();
    }
    let mut held = [0; TEXT_BYTES];
    let mut len = 0;
    let mut rest = word;
    while !rest.is_empty() {
        if len == TEXT_BYTES {
            return None;
        }
        let (byte, after) = next_byte(rest)?;
        held[len] = byte;
        len += 1;
        rest = after;
    }
    Text::of_bytes(&held[..len]).ok()
}

// Whether all bytes stand for themselves.
fn are_bare(word: &[u8]) -> bool
    ensures { result ≡ list_all is_bare word.now }
{
    word.iter().all(|byte| is_bare(*byte))
}

// The byte of a text with whose spelling the bytes begin, and what follows it.
fn next_byte(bytes: &[u8]) -> Option<(u8, &[u8])>
    ensures { MatchOption result
        ((byte : ℕ) (after : List ℕ) → byte < 256 → bytes.now ≢ byte_word byte ++ after)
        (λ p. (p.0 < 256) × (bytes.now ≡ byte_word p.0 ++ p.1.now)) }
{
    match bytes {
        [MARK, high, low, after @ ..] => {
            let byte = 16 * digit(*high)? + digit(*low)?;
            if is_bare(byte) {
                None
            } else {
                Some((byte, after))
            }
        }
        [byte, after @ ..] if is_bare(*byte) => Some((*byte, after)),
        _ => None,
    }
}

// A byte that stands for itself.
fn is_bare(byte: u8) -> bool
    ensures { result ≡ is_bare byte }
{
    33 <= byte && byte <= 126 && byte != MARK
}

/// The number below 16 of which this is the digit.
pub fn digit(byte: u8) -> Option<u8>
    ensures { MatchOption result ((n : ℕ) → n < 16 → byte ≢ hex_digit n)
        (λ n. (n < 16) × (byte ≡ hex_digit n)) }
{
    match byte {
        b'0'..=b'9' => Some(byte - b'0'),
        b'a'..=b'f' => Some(byte - b'a' + 10),
        _ => None,
    }
}
