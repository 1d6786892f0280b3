// How a written image is told: by its first line, and a line for each slot that isn't all zeros.
use mont_base::{FIELDS, MemSource};
use mont_image::{Image, read_image};
use std::alloc::{AllocError, Global};
use std::fmt::Write;

/// Tells what was written as an image, after how many bytes it has. What is no whole image is told
/// by that number alone.
pub fn tell_image(alloc: Global, told: &mut String, bytes: &[u8]) -> Result<(), AllocError> {
    let count = bytes.len();
    writeln!(told, "image of {count} bytes")?;
    let mut source = MemSource::new(bytes.to_vec(alloc)?, 4096, Vec::new(alloc));
    match read_image(alloc, &mut source) {
        Ok(image) => tell_slots(told, &image),
        Err(_) => Ok(()),
    }
}

// The first line, and those of the slots.
fn tell_slots(told: &mut String, image: &Image) -> Result<(), AllocError> {
    write!(told, "3 ")?;
    for kind in image.layout.kinds().as_slice() {
        let letter = char::from(kind.letter());
        write!(told, "{letter}")?;
    }
    let (slots, clock) = (image.layout.slots(), image.clock());
    writeln!(told, " {slots} {clock}")?;
    let words = &image.words.as_slice()[1..];
    for (slot, words) in words.chunks(FIELDS).enumerate() {
        if words.iter().any(|word| *word != 0) {
            tell_words(told, slot as u64, words)?;
        }
    }
    Ok(())
}

// The line of a slot.
fn tell_words(told: &mut String, slot: u64, words: &[u64]) -> Result<(), AllocError> {
    write!(told, "{slot} words")?;
    for word in words {
        write!(told, " {word}")?;
    }
    writeln!(told)
}
