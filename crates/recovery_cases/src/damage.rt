// Texts of images that are damaged as it is drawn: bits are turned, words and slots exchanged or
// copied, words set to numbers at ends of ranges, and the text is cut or goes on.
use crate::drawn_images::Draws;
use mont_base::LAST;
use std::alloc::{AllocError, Global};

// How many bytes a word has.
const WORD: usize = 8;

// Numbers at ends of ranges, and labels of records.
const NUMBERS: [u64; 12] = [0, 1, 2, 3, 4, 9, 256, 512, 768, 1024, LAST, LAST + 1];

/// How a text lies: the words before the first slot, and those of a slot.
#[derive(Clone, Copy)]
pub struct TextShape {
    pub front: usize,
    pub fields: usize,
}

/// A text with one to three changes.
pub fn damaged(
    alloc: Global,
    draws: &mut Draws,
    shape: TextShape,
    text: &[u8],
) -> Result<Vec<u8>, AllocError> {
    let mut bytes = text.to_vec(alloc)?;
    for _ in 0..draws.below(3).saturating_add(1) {
        change(draws, &mut bytes, shape)?;
    }
    Ok(bytes)
}

fn change(draws: &mut Draws, bytes: &mut Vec<u8>, shape: TextShape) -> Result<(), AllocError> {
    match draws.below(14) {
        0 => cut(draws, bytes),
        1 => lengthen(draws, bytes)?,
        2 | 3 | 4 => turn_bit(draws, bytes.as_mut_slice()),
        kind => {
            let (words, _rest) = bytes.as_mut_slice().as_chunks_mut::<WORD>();
            change_words(draws, words, shape, kind);
        }
    }
    Ok(())
}

// One of the changes of whole words.
fn change_words(draws: &mut Draws, words: &mut [[u8; WORD]], shape: TextShape, kind: u64) {
    match kind {
        5 | 6 => set_number(draws, words),
        7 | 8 | 9 => copy(draws, words, shape),
        10 | 11 => exchange(draws, words, shape),
        _ => exchange(draws, words, words_alone()),
    }
}

// Words, of which none stand before the first.
fn words_alone() -> TextShape {
    TextShape {
        front: 0,
        fields: 1,
    }
}

// A number below this one, as a place.
fn place_below(draws: &mut Draws, many: usize) -> usize {
    let place = draws.below(many as u64);
    usize::try_from(place).unwrap_or(0)
}

fn cut(draws: &mut Draws, bytes: &mut Vec<u8>) {
    let length = place_below(draws, bytes.len());
    bytes.truncate(length);
}

fn lengthen(draws: &mut Draws, bytes: &mut Vec<u8>) -> Result<(), AllocError> {
    for _ in 0..draws.below(20).saturating_add(1) {
        let [byte, ..] = draws.number().to_le_bytes();
        bytes.push(byte)?;
    }
    Ok(())
}

fn turn_bit(draws: &mut Draws, bytes: &mut [u8]) {
    let at = place_below(draws, bytes.len());
    let bit = draws.below(8);
    if let Some(byte) = bytes.get_mut(at) {
        *byte ^= match bit {
            0 => 1,
            1 => 2,
            2 => 4,
            3 => 8,
            4 => 16,
            5 => 32,
            6 => 64,
            _ => 128,
        };
    }
}

fn set_number(draws: &mut Draws, words: &mut [[u8; WORD]]) {
    let place = place_below(draws, words.len());
    let number = place_below(draws, NUMBERS.len());
    if let (Some(word), Some(number)) = (words.get_mut(place), NUMBERS.get(number)) {
        *word = number.to_le_bytes();
    }
}

// The first words of two slots that are drawn.
fn two_slots(draws: &mut Draws, words: usize, shape: TextShape) -> (usize, usize) {
    let slots = words
        .saturating_sub(shape.front)
        .checked_div(shape.fields)
        .unwrap_or(0);
    let (one, other) = (place_below(draws, slots), place_below(draws, slots));
    (first_word(shape, one), first_word(shape, other))
}

fn first_word(shape: TextShape, slot: usize) -> usize {
    shape
        .front
        .saturating_add(slot.saturating_mul(shape.fields))
}

// Copies a slot over another.
fn copy(draws: &mut Draws, words: &mut [[u8; WORD]], shape: TextShape) {
    let (from, to) = two_slots(draws, words.len(), shape);
    for field in 0..shape.fields {
        let word = words.get(from.saturating_add(field)).copied();
        if let (Some(word), Some(other)) = (word, words.get_mut(to.saturating_add(field))) {
            *other = word;
        }
    }
}

// Exchanges two slots.
fn exchange(draws: &mut Draws, words: &mut [[u8; WORD]], shape: TextShape) {
    let (one, other) = two_slots(draws, words.len(), shape);
    for field in 0..shape.fields {
        let (one, other) = (one.saturating_add(field), other.saturating_add(field));
        if one < words.len() && other < words.len() {
            words.swap(one, other);
        }
    }
}
