// What a plain reader finds in the text of an image: its layout and the words of its slots, or the
// first fault of its bytes.
use crate::plain_slots::{PlainSlot, slots_in};
use mont_base::{FIELDS, FIRST_CLOCK, Kinds, LAST, LEAST_SLOTS, Layout, MOST_SLOTS};
use mont_image::OLD_FIELDS;
use recover::ImageFault;
use std::alloc::{AllocError, Global};

/// What a text tells.
#[derive(Drop)]
pub struct PlainText {
    pub layout: Layout,
    pub clock: u64,
    /// Whether it is of the first version.
    pub old: bool,
    pub slots: Vec<PlainSlot>,
}

// The words in front of the slots, or of the codes.
#[derive(Clone, Copy)]
struct Front {
    version: u64,
    units: u64,
    slots: u64,
    clock: u64,
}

/// Reads a text.
pub fn plain_text(alloc: Global, text: &[u8]) -> Result<Result<PlainText, ImageFault>, AllocError> {
    let (whole, rest) = text.as_chunks::<8>();
    let mut words = Vec::new(alloc);
    for word in whole {
        words.push(u64::from_le_bytes(*word))?;
    }
    read_words_of(alloc, words.as_slice(), !rest.is_empty())
}

// Reads the words of a text, after which there may be a part of one.
fn read_words_of(
    alloc: Global,
    words: &[u64],
    more: bool,
) -> Result<Result<PlainText, ImageFault>, AllocError> {
    let short = ImageFault::Short {
        words: words.len() as u64,
    };
    let front = match front_of(words) {
        Ok(front) => front,
        Err(fault) => return Ok(Err(fault)),
    };
    let codes = if front.version == 3 { front.units } else { 0 };
    let first = 5usize.saturating_add(codes as usize);
    let Some(slots) = words.get(first..) else {
        return Ok(Err(short));
    };
    let Some(layout) = layout_of(alloc, &front, words)? else {
        return Ok(Err(ImageFault::Layout));
    };
    let old = front.version == 1;
    let fields = if old { OLD_FIELDS } else { FIELDS };
    let count = layout.total().saturating_mul(fields as u64);
    if (slots.len() as u64) < count {
        return Ok(Err(short));
    }
    if slots.len() as u64 > count || more {
        return Ok(Err(ImageFault::Long));
    }
    Ok(Ok(text_with(alloc, &front, layout, slots)?))
}

// A text with these words of its slots.
fn text_with(
    alloc: Global,
    front: &Front,
    layout: Layout,
    slots: &[u64],
) -> Result<PlainText, AllocError> {
    let old = front.version == 1;
    Ok(PlainText {
        layout,
        clock: front.clock,
        old,
        slots: slots_in(alloc, &layout, old, slots)?,
    })
}

// The first five words.
fn front_of(words: &[u64]) -> Result<Front, ImageFault> {
    let [magic, version, units, slots, clock, ..] = words else {
        return Err(ImageFault::Short {
            words: words.len() as u64,
        });
    };
    if magic.to_le_bytes() != *b"MONTAGE\n" {
        return Err(ImageFault::Magic);
    }
    if *version < 1 || *version > 3 {
        return Err(ImageFault::Version);
    }
    let most = if *version == 3 { 16 } else { 8 };
    if *units < 1 || *units > most || *slots < LEAST_SLOTS || *slots > MOST_SLOTS {
        return Err(ImageFault::Layout);
    }
    if *clock < FIRST_CLOCK || *clock > LAST {
        return Err(ImageFault::Clock);
    }
    Ok(Front {
        version: *version,
        units: *units,
        slots: *slots,
        clock: *clock,
    })
}

// The layout, whose kinds the codes tell; in the first two versions there are maps, a queue and a
// graph.
fn layout_of(alloc: Global, front: &Front, words: &[u64]) -> Result<Option<Layout>, AllocError> {
    let letters = letters_of(alloc, front, words)?;
    let Ok(kinds) = Kinds::of_letters(letters.as_slice()) else {
        return Ok(None);
    };
    Ok(Layout::new(kinds, front.slots).ok())
}

// The letters of the kinds.
fn letters_of(alloc: Global, front: &Front, words: &[u64]) -> Result<Vec<u8>, AllocError> {
    let mut letters = Vec::new(alloc);
    for unit in 0..front.units {
        let code = words.get(5usize.saturating_add(unit as usize));
        letters.push(letter_of(front, code))?;
    }
    if front.version < 3 {
        letters.extend_from_slice(b"qg")?;
    }
    Ok(letters)
}

// The letter of a code.
fn letter_of(front: &Front, code: Option<&u64>) -> u8 {
    match code {
        _ if front.version < 3 => b'm',
        Some(1) => b'm',
        Some(2) => b'q',
        Some(3) => b'g',
        Some(4) => b'o',
        _ => b'?',
    }
}
