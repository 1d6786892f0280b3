// Keys and values: texts of at most 24 bytes, kept in place as their length and three
// words.
ghost use Rattle.std.specs.Prelude.{◌≡◌, ◌==◌, ◌<◌, ◌≤◌, ◌+◌, ◌%◌, IsTrue, Some, [], length, take, drop, slice_index, decimal, nat_eq};
ghost use Rattle.std.specs.Result.{OkIff};
ghost use Rattle.std.specs.Int.{w64, from_le_bytes, to_le_bytes};
ghost use Rattle.std.specs.Hash as fed;
ghost use Rattle.std.specs.Cmp.{partial_equiv_from_equiv};
ghost use Rattle.std.specs.Cmp.Lexicographic.{pointwise, nat_list_eq_equiv, nat_list_cmp_total, texts_ties, texts_po};
ghost use Rattle.mont_base.specs.Texts.{IsText, are_zero, bytes_of_words, byte_words, text_words, text_of_words, text_cmp};
ghost use Rattle.std.proofs.Common.{refl};

use crate::constants::TEXT_BYTES;
use std::cmp::Ordering;
use std::hash::{Hash, Hasher};
use std::marker::Model;

/// Bytes that are too many for a text: more than 24.
#[derive(Clone, Copy, Debug, PartialEq, Eq)]
pub struct TextTooLong;

/// A text of at most 24 bytes, which is a key or a value. It is copied without memory.
///
/// Contracts see its bytes as a list. Its four words are its length and its bytes, eight to a word,
/// the lowest byte of a word first; the bytes after its end are 0. Texts stand in the order of
/// lists of bytes.
#[derive(Clone, Copy, Debug)]
pub struct Text {
    len: u64,
    first: u64,
    second: u64,
    third: u64,
}

impl Model for Text {
    ghost use Rattle.std.specs.Prelude.{List, ℕ};

    ghost Value = { List ℕ };

    ghost use Rattle.mont_base.specs.TextWords.{bytes_of_text, IsTextInside, inside_of_bytes, inverse_of_view};

    ghost view = { bytes_of_text };

    ghost invariant = { IsTextInside };

    ghost inverse = { inside_of_bytes };

    ghost inverse_ok = { inverse_of_view };
}

// The greatest number of digits of a `u64`.
const DIGITS: usize = 20;

impl Text {
    /// The text of no bytes.
    pub fn empty() -> Text
        ensures { result ≡ [] }
    {
        of_short(&[])
    }

    /// The text of these bytes; `TextTooLong` above 24.
    pub fn of_bytes(bytes: &[u8]) -> Result<Text, TextTooLong>
        ensures { OkIff result (length bytes.now ≤ TEXT_BYTES) bytes.now }
    {
        if bytes.len() > TEXT_BYTES {
            return Err(TextTooLong);
        }
        Ok(of_short(bytes))
    }

    /// The text of a number's decimal digits, without zeros in front.
    pub fn of_number(number: u64) -> Text
        ensures { result ≡ decimal number }
    {
        let mut digits = [0; DIGITS];
        let mut at = DIGITS - 1;
        let mut left = number;
        digits[at] = last_digit(left);
        while left >= 10 {
            left /= 10;
            at -= 1;
            digits[at] = last_digit(left);
        }
        of_short(&digits[at..])
    }

    /// The text of four words: its length and its bytes. None where the length is above 24 or a
    /// byte after the end isn't 0.
    pub fn of_words(words: [u64; 4]) -> Option<Text>
        ensures { result ≡ text_of_words (slice_index words 0) (slice_index words 1)
            (slice_index words 2) (slice_index words 3) }
    {
        let [len, first, second, third] = words;
        if len > TEXT_BYTES as u64 || !are_zero_from(len, first, second, third) {
            return None;
        }
        Some(Text {
            len,
            first,
            second,
            third,
        })
    }

    /// Its four words: its length and its bytes.
    pub fn words(&self) -> [u64; 4]
        ensures value { result ≡ text_words self.now }
        ensures text { IsText self.now }
    {
        [self.len, self.first, self.second, self.third]
    }

    /// How many bytes it has.
    pub fn len(&self) -> u64
        ensures value { result ≡ length self.now }
        ensures text { IsText self.now }
    {
        self.len
    }

    /// Whether it has none.
    pub fn is_empty(&self) -> bool
        ensures { result ≡ (length self.now == 0) }
    {
        self.len == 0
    }

    /// The byte at a place.
    pub fn byte(&self, at: u64) -> u8
        requires { at < length self.now }
        ensures { result ≡ slice_index self.now at }
    {
        self.held()[at as usize]
    }

    // Its bytes, and zeros after its end.
    pub(crate) fn held(&self) -> [u8; TEXT_BYTES]
        ensures { take (length self.now) result ≡ self.now }
    {
        bytes_in(self.first, self.second, self.third)
    }
}

impl PartialEq for Text {
    ghost eq = { pointwise nat_eq };

    ghost laws = { partial_equiv_from_equiv nat_list_eq_equiv };

    fn eq(&self, other: &Text) -> bool {
        self.words() == other.words()
    }
}

impl Eq for Text {
    ghost laws = { nat_list_eq_equiv };
}

impl PartialOrd for Text {
    ghost partial_cmp = { λ x y. Some (text_cmp x y) };

    ghost laws = { texts_po };

    fn partial_cmp(&self, other: &Text) -> Option<Ordering> {
        Some(self.cmp(other))
    }
}

impl Ord for Text {
    ghost cmp = { text_cmp };

    ghost total = { nat_list_cmp_total };

    ghost matches_partial_cmp = { λ x y. refl };

    ghost matches_eq = { texts_ties };

    fn cmp(&self, other: &Text) -> Ordering {
        // most texts differ in their first eight bytes
        match cmp_words(self.first, other.first) {
            Ordering::Equal => cmp_words(self.second, other.second)
                .then(cmp_words(self.third, other.third))
                .then(self.len.cmp(&other.len)),
            apart => apart,
        }
    }
}

impl Hash for Text {
    ghost use Rattle.mont_base.specs.TextHash.{words_fed, same_words_fed};

    ghost hash_input = { words_fed };

    ghost respects_eq = { same_words_fed };

    fn hash<H: Hasher>(&self, state: &mut H) {
        self.words().hash(state);
    }
}

// The last decimal digit of a number.
fn last_digit(number: u64) -> u8
    ensures { result ≡ 48 + number % 10 }
{
    b'0' + (number % 10) as u8
}

// The text of few bytes.
fn of_short(bytes: &[u8]) -> Text
    requires { length bytes.now ≤ TEXT_BYTES }
    ensures { result ≡ bytes.now }
{
    let mut held = [0; TEXT_BYTES];
    held[..bytes.len()].copy_from_slice(bytes);
    of_held(&held, bytes.len() as u64)
}

// The text of the first bytes of these, where the others are 0.
fn of_held(held: &[u8; TEXT_BYTES], len: u64) -> Text
    requires short { len ≤ TEXT_BYTES }
    requires clean { IsTrue (are_zero (drop len held.now)) }
    ensures { result ≡ take len held.now }
{
    Text {
        len,
        first: word_in(held, 0),
        second: word_in(held, 8),
        third: word_in(held, 16),
    }
}

// The word whose bytes stand at a place, the lowest first.
fn word_in(held: &[u8; TEXT_BYTES], at: usize) -> u64
    requires { at + 8 ≤ TEXT_BYTES }
    ensures { result ≡ from_le_bytes w64 (drop at held.now) }
{
    let mut bytes = [0; 8];
    bytes.copy_from_slice(&held[at..at + 8]);
    u64::from_le_bytes(bytes)
}

// The bytes of three words, the lowest byte of each first.
fn bytes_in(first: u64, second: u64, third: u64) -> [u8; TEXT_BYTES]
    ensures { result ≡ bytes_of_words first second third }
{
    let mut held = [0; TEXT_BYTES];
    held[..8].copy_from_slice(&first.to_le_bytes());
    held[8..16].copy_from_slice(&second.to_le_bytes());
    held[16..].copy_from_slice(&third.to_le_bytes());
    held
}

// Whether the bytes of three words are 0 from a place on, the lowest byte of each first.
fn are_zero_from(place: u64, first: u64, second: u64, third: u64) -> bool
    ensures { result ≡ are_zero (drop place (bytes_of_words first second third)) }
{
    if place <= 8 {
        return is_zero_from(place, first) & is_zero_from(0, second) & is_zero_from(0, third);
    }
    if place <= 16 {
        return is_zero_from(place, first)
            & is_zero_from(place - 8, second)
            & is_zero_from(0, third);
    }
    is_zero_from(place, first) & is_zero_from(place - 8, second) & is_zero_from(place - 16, third)
}

// Whether the bytes of a word are 0 from a place on, the lowest first.
fn is_zero_from(place: u64, word: u64) -> bool
    ensures { result ≡ are_zero (drop place (to_le_bytes w64 word)) }
{
    place >= 8 || word >> (8 * place) == 0
}

// The order of the bytes of two words, the lowest byte of each first.
fn cmp_words(a: u64, b: u64) -> Ordering
    ensures { result ≡ text_cmp (to_le_bytes w64 a) (to_le_bytes w64 b) }
{
    a.swap_bytes().cmp(&b.swap_bytes())
}
