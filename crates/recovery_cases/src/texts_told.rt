// What is told of the texts of images and of masks.
ghost use Rattle.std.specs.Prelude.{◌≡◌, ◌<◌, false};

use crate::now::source_of;
use crate::plain_store::picked;
use crate::tellings::{told_fault, told_image};
use case_file::Unanswered;
use mont_base::MemSink;
use mont_image::{Image, read_image, write_image};
use recover::ImageFault;
use std::alloc::Global;

// By how much more a durable word is than the current one.
const MORE: u64 = 4000;

/// The image of a text as it is read of a source of such pieces, or the first fault of its bytes.
pub fn told_as_read(alloc: Global, text: &[u8], piece: u64) -> Result<Vec<u8>, Unanswered>
    requires { 0 < piece }
{
    let mut source = source_of(alloc, text, piece)?;
    match read_image(alloc, &mut source) {
        Ok(image) => told_image(alloc, &image),
        Err(refusal) => match ImageFault::of_bytes(refusal) {
            Some(fault) => told_fault(alloc, fault),
            None => Err(Unanswered::Memory),
        },
    }
}

/// Whether an image of the third version is written otherwise than as its text to a sink that
/// takes such pieces.
pub fn is_other_text(
    alloc: Global,
    image: &Image,
    text: &[u8],
    piece: u64,
) -> Result<bool, Unanswered>
    requires some { 0 < piece }
    requires new { image.now.old ≡ false }
{
    let is_third = text.get(8) == Some(&3);
    let mut sink = MemSink::new(alloc, text.len() as u64, piece, Vec::new(alloc))?;
    let is_same = write_image(image, &mut sink).is_ok() && sink.taken() == text;
    Ok(is_third && !is_same)
}

/// The image that a mask picks where the current words are those of an image.
pub fn told_picked(alloc: Global, image: &Image, mask: u64) -> Result<Vec<u8>, Unanswered> {
    let current = image.words.as_slice().to_vec(alloc)?;
    let mut durable = Vec::new(alloc);
    for word in &current {
        durable.push(word.wrapping_add(MORE))?;
    }
    told_image(alloc, &picked(alloc, image.layout, current, durable, mask)?)
}
