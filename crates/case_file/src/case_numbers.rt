// Numbers in files of cases.
use crate::case_refusal::Unanswered;
use std::alloc::Global;
use std::str;

/// The number that a word spells by decimal digits.
pub fn number_of(word: &[u8]) -> Option<u64> {
    match str::from_utf8(word) {
        Ok(digits) => digits.parse().ok(),
        Err(_) => None,
    }
}

/// The one number that the text of a part with this head lists.
pub fn number_in(alloc: Global, head: &'static str, text: &[u8]) -> Result<u64, Unanswered> {
    match numbers_in(alloc, head, text)?.as_slice() {
        [number] => Ok(*number),
        _ => Err(Unanswered::Unclear { head }),
    }
}

/// The numbers that the text of a part with this head lists, on one line or on several.
pub fn numbers_in(alloc: Global, head: &'static str, text: &[u8]) -> Result<Vec<u64>, Unanswered> {
    let unclear = Unanswered::Unclear { head };
    let Ok(words) = str::from_utf8(text) else {
        return Err(unclear);
    };
    let mut numbers = Vec::new(alloc);
    for word in words.split_ascii_whitespace() {
        match word.parse() {
            Ok(number) => numbers.push(number)?,
            Err(_) => return Err(unclear),
        }
    }
    Ok(numbers)
}
