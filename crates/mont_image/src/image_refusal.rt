// Why no image was read.
ghost use Rattle.std.specs.Prelude.{◌≡◌};
ghost use Rattle.mont_image.specs.declared.image_refusal.ImageRefusal.TheVariants.{Read, Memory};

use mont_base::Failed;
use std::alloc::{AllocError, AllocFailed};

/// Why no image was read. The first six say what is wrong with the bytes, in the order in which
/// this is looked at, but that an end within the first five words comes before all.
#[derive(Clone, Copy, Debug, PartialEq, Eq)]
pub enum ImageRefusal {
    /// The first word isn't that of an image.
    Magic,
    /// The second word is no version.
    Version,
    /// The third or the fourth word is out of its range, or a code is that of no kind.
    Layout,
    /// The clock is out of its range.
    Clock,
    /// The bytes end too early; so many words are whole.
    Short { words: u64 },
    /// There are more bytes than those of the image.
    Long,
    /// The source failed.
    Read,
    /// There was too little memory.
    Memory,
}

impl From<Failed> for ImageRefusal {
    ghost from_gives = { λ _ e. e ≡ Read };

    fn from(_failed: Failed) -> ImageRefusal {
        ImageRefusal::Read
    }
}

impl From<AllocError> for ImageRefusal {
    ghost from_gives = { λ _ e. e ≡ Memory };

    fn from(_error: AllocError) -> ImageRefusal {
        ImageRefusal::Memory
    }
}

impl<T: Drop> From<AllocFailed<T>> for ImageRefusal {
    ghost from_gives = { λ _ e. e ≡ Memory };

    fn from(_error: AllocFailed<T>) -> ImageRefusal {
        ImageRefusal::Memory
    }
}
