// The image that a text is of, as images are now.
ghost use Rattle.std.specs.Prelude.{◌≡◌, ◌<◌, ℕ, List, true, IfOk};
ghost use Rattle.mont_image.specs.ImageReader.{parts_of};
ghost use Rattle.mont_image.specs.ImageText.{IsTextOf};
ghost use Rattle.recovery_cases.specs.CaseReadings.{IsReadAs};

use mont_base::MemSource;
use mont_image::{Image, read_image};
use recover::{ImageFault, migrate};
use std::alloc::{AllocError, Global};

/// What is read of a text.
#[derive(Drop)]
pub enum ReadImage {
    /// The first fault of its bytes, or of what an image of the first version holds.
    Faulty { fault: ImageFault },
    /// Its image, migrated where it is of the first version.
    Now { image: Image },
}

/// Reads the image of a text, of which a call gives at most `piece` bytes.
pub fn image_now(alloc: Global, text: &[u8], piece: u64) -> Result<ReadImage, AllocError>
    requires { 0 < piece }
    ensures { IfOk result (IsReadAs text.now) }
{
    let mut source = source_of(alloc, text, piece)?;
    match read_image(alloc, &mut source) {
        Ok(image) if image.old => migrated(alloc, &image),
        Ok(image) => Ok(ReadImage::Now { image }),
        Err(refusal) => match ImageFault::of_bytes(refusal) {
            Some(fault) => Ok(ReadImage::Faulty { fault }),
            None => Err(AllocError),
        },
    }
}

/// A source of a text, of which a call gives at most `piece` bytes.
pub fn source_of(alloc: Global, text: &[u8], piece: u64) -> Result<MemSource, AllocError>
    requires { 0 < piece }
    ensures { IfOk result (λ s. s.left ≡ text.now) }
{
    let bytes = Vec::from_slice(alloc, text)?;
    Ok(MemSource::new(bytes, piece, Vec::new(alloc)))
}

// What is read of an image of the first version.
fn migrated(alloc: Global, image: &Image) -> Result<ReadImage, AllocError>
    requires { image.now.old ≡ true }
    ensures { (text : List ℕ) → IsTextOf text (parts_of image.now)
        → IfOk result (IsReadAs text) }
{
    match migrate(alloc, image) {
        Ok(image) => Ok(ReadImage::Now { image }),
        Err(refusal) => match ImageFault::of_words(refusal) {
            Some(fault) => Ok(ReadImage::Faulty { fault }),
            None => Err(AllocError),
        },
    }
}
