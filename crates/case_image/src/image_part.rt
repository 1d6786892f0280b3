// The text of an image, as a case writes it. The first line of its part `image` has the version of
// the text, the kinds of the units, the slots of each unit and the clock; each further line is one
// of a slot, and other slots have only zeros.
//
// In a part `other words`, `AT WORD` puts another word in the place of one of the text; in a part
// `length` stands how many bytes the text has, which is cut or goes on with zeros.
use crate::image_shape::ImageShape;
use crate::slot_line::slot_line;
use case_file::{Case, Unanswered, numbers_in};
use std::alloc::{AllocError, Global};
use std::str;

const IMAGE: &str = "image";

const OTHER_WORDS: &str = "other words";

const LENGTH: &str = "length";

// No part `length` asks for more bytes.
const MOST_BYTES: u64 = 10_000_000;

/// Whether a case has an image.
pub fn has_image(case: &Case) -> bool {
    case.part(IMAGE).is_some()
}

/// The bytes of the text.
pub fn image_text(alloc: Global, case: &Case) -> Result<Vec<u8>, Unanswered> {
    let mut words = text_words(alloc, case.needed(IMAGE)?)?;
    if let Some(others) = case.part(OTHER_WORDS) {
        set_others(alloc, words.as_mut_slice(), others)?;
    }
    let mut bytes = Vec::new(alloc);
    for word in &words {
        bytes.extend_from_slice(&word.to_le_bytes())?;
    }
    match case.part(LENGTH) {
        Some(length) => with_length(alloc, bytes, length),
        None => Ok(bytes),
    }
}

// The words of the text.
fn text_words(alloc: Global, part: &[u8]) -> Result<Vec<u64>, Unanswered> {
    let unclear = Unanswered::Unclear { head: IMAGE };
    let Ok(text) = str::from_utf8(part) else {
        return Err(unclear);
    };
    let (first, rest) = text.split_once('\n').unwrap_or((text, ""));
    let first = words_of(alloc, first)?;
    let Some(shape) = ImageShape::of_words(first.as_slice()) else {
        return Err(unclear);
    };
    let mut words = shape.front(alloc)?;
    let mut slots = shape.slots(alloc)?;
    for line in rest.split('\n') {
        if !line.is_empty() {
            set_slot(alloc, &shape, slots.as_mut_slice(), line)?;
        }
    }
    words.extend_from_slice(slots.as_slice())?;
    Ok(words)
}

// The words of a line.
fn words_of(alloc: Global, line: &str) -> Result<Vec<&str>, AllocError> {
    line.split(' ').collect(alloc)
}

// Sets the words of the slot of which a line tells.
fn set_slot(
    alloc: Global,
    shape: &ImageShape,
    slots: &mut [u64],
    line: &str,
) -> Result<(), Unanswered> {
    let unclear = Unanswered::Unclear { head: IMAGE };
    let words = words_of(alloc, line)?;
    let Some(told) = slot_line(alloc, shape, words.as_slice())? else {
        return Err(unclear);
    };
    let fields = shape.fields();
    let first = told.slot.saturating_mul(fields as u64);
    if told.words.len() > fields {
        return Err(unclear);
    }
    for (place, word) in told.words.iter().enumerate() {
        let at = first.saturating_add(place as u64);
        match slots.get_mut(at as usize) {
            Some(of_slot) => *of_slot = *word,
            None => return Err(unclear),
        }
    }
    Ok(())
}

// Puts other words in the place of some.
fn set_others(alloc: Global, words: &mut [u64], others: &[u8]) -> Result<(), Unanswered> {
    let numbers = numbers_in(alloc, OTHER_WORDS, others)?;
    for pair in numbers.as_slice().chunks(2) {
        let unclear = Unanswered::Unclear { head: OTHER_WORDS };
        let [at, word] = pair else {
            return Err(unclear);
        };
        match words.get_mut(*at as usize) {
            Some(of_text) => *of_text = *word,
            None => return Err(unclear),
        }
    }
    Ok(())
}

// The text with so many bytes.
fn with_length(alloc: Global, bytes: Vec<u8>, length: &[u8]) -> Result<Vec<u8>, Unanswered> {
    let numbers = numbers_in(alloc, LENGTH, length)?;
    let [length] = numbers.as_slice() else {
        return Err(Unanswered::Unclear { head: LENGTH });
    };
    if *length > MOST_BYTES {
        return Err(Unanswered::Unclear { head: LENGTH });
    }
    let mut bytes = bytes;
    bytes.resize(*length as usize, 0)?;
    Ok(bytes)
}
