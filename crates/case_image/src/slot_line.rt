// A line that tells what stands in a slot: `SLOT words` with the first of its words, the others of
// which are 0, or a record.
//
//     0 new 7 at 2 pair KEY VALUE          the first version of identity 7, of epoch 2
//     1 copy 7 2 at 4 item SERIAL ITEM     its second version
//     2 delete 7 3 at 4                    its third version, an anti-payload
//
// A body may also be `vertex VERTEX ATTRIBUTE` or `edge FROM TO ATTRIBUTE`.
use crate::image_shape::ImageShape;
use crate::record_row::record_words;
use mont_base::{BODY, Kind, Label, Text, Unit};
use payload::{edge_body, item_body, no_body, pair_body, vertex_body};
use std::alloc::{AllocError, Global};

/// A slot and the first of its words.
#[derive(Drop)]
pub struct SlotLine {
    pub slot: u64,
    pub words: Vec<u64>,
}

/// What a line of these words tells, if it is such a line.
pub fn slot_line(
    alloc: Global,
    shape: &ImageShape,
    words: &[&str],
) -> Result<Option<SlotLine>, AllocError> {
    let Some((slot, rest)) = words.split_first() else {
        return Ok(None);
    };
    let Some(slot) = number_in(slot) else {
        return Ok(None);
    };
    let told = match rest {
        ["words", told @ ..] => numbers_of(alloc, told)?,
        _ => words_of_record(alloc, shape, slot, rest)?,
    };
    Ok(told.map(|words| SlotLine { slot, words }))
}

/// The number that a word spells.
pub fn number_in(word: &str) -> Option<u64> {
    word.parse().ok()
}

// The numbers that words spell.
fn numbers_of(alloc: Global, words: &[&str]) -> Result<Option<Vec<u64>>, AllocError> {
    let mut numbers = Vec::new(alloc);
    for word in words {
        match number_in(word) {
            Some(number) => numbers.push(number)?,
            None => return Ok(None),
        }
    }
    Ok(Some(numbers))
}

// The words of a record in a slot.
fn words_of_record(
    alloc: Global,
    shape: &ImageShape,
    slot: u64,
    told: &[&str],
) -> Result<Option<Vec<u64>>, AllocError> {
    let unit = slot.checked_div(shape.layout.slots()).unwrap_or(0);
    let Some((label, rest)) = label_in(unit, told) else {
        return Ok(None);
    };
    let Some(body) = body_in(shape, rest) else {
        return Ok(None);
    };
    let words = record_words(&label, &body);
    Ok(Some(words[..shape.fields()].to_vec(alloc)?))
}

// The label, and the words after it.
fn label_in<'a, 'b>(unit: Unit, told: &'a [&'b str]) -> Option<(Label, &'a [&'b str])> {
    let (kind, identity, version, epoch, rest) = match told {
        ["new", identity, "at", epoch, rest @ ..] => (Kind::New, *identity, "1", *epoch, rest),
        ["copy", identity, version, "at", epoch, rest @ ..] => {
            (Kind::Copy, *identity, *version, *epoch, rest)
        }
        ["delete", identity, version, "at", epoch, rest @ ..] => {
            (Kind::Delete, *identity, *version, *epoch, rest)
        }
        _ => return None,
    };
    let label = Label {
        epoch: number_in(epoch)?,
        kind,
        unit,
        identity: number_in(identity)?,
        version: number_in(version)?,
    };
    Some((label, rest))
}

// The words of a body. In an image of the first version keys and values are numbers.
fn body_in(shape: &ImageShape, told: &[&str]) -> Option<[u64; BODY]> {
    match told {
        [] => Some(no_body()),
        ["pair", key, value] if shape.is_old() => {
            let (key, value) = (number_in(key)?, number_in(value)?);
            Some([key, value, 0, 0, 0, 0, 0, 0])
        }
        ["pair", key, value] => Some(pair_body(&text_in(key)?, &text_in(value)?)),
        ["item", serial, item] => Some(item_body(number_in(serial)?, number_in(item)?)),
        ["vertex", vertex, attribute] => {
            Some(vertex_body(number_in(vertex)?, number_in(attribute)?))
        }
        ["edge", from, to, attribute] => {
            let ends = (number_in(from)?, number_in(to)?);
            Some(edge_body(ends, number_in(attribute)?))
        }
        _ => None,
    }
}

// The text that a word stands for, which is `%` where it is empty.
fn text_in(word: &str) -> Option<Text> {
    if word == "%" {
        return Some(Text::empty());
    }
    Text::of_bytes(word.as_bytes()).ok()
}
