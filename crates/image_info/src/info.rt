// What is told of an image.
ghost use Rattle.std.specs.Prelude.{◌≡◌, Err, IfErr, IfOk, slice_index};
ghost use Rattle.mont_image.specs.ImageRefusal.{OnBytes};
ghost use Rattle.mont_image.specs.ImageText.{image_in, words_in};
ghost use Rattle.image_info.specs.Info.{IsInfoOf, TellsAccepted};

use crate::all_faults::all_faults;
use crate::all_records::all_records;
use crate::epoch_counts::{EpochCount, epoch_counts};
use crate::unit_counts::{UnitCounts, all_counts};
use crate::wide_words::wide_words;
use image_units::ImageFault;
use mont_base::{Epoch, MemSource};
use mont_image::{IMAGE_BYTES, Image, ImageRefusal, read_image};
use std::alloc::Global;

// The bytes of a word of an image's text.
const WORD: usize = 8;

/// What is told of an image.
#[derive(Debug, Drop)]
pub(crate) struct ImageInfo {
    /// The number of the version in which its text is.
    pub version: u64,
    pub image: Image,
    /// The last epoch that recovery keeps.
    pub cut: Epoch,
    /// What the slots of each unit hold, in the order of the units.
    pub units: Vec<UnitCounts>,
    /// How many records each epoch has, by rising epoch.
    pub epochs: Vec<EpochCount>,
    /// Those of slots, then versions that stand twice, then those of objects.
    pub faults: Vec<ImageFault>,
}

/// What is told of the image whose text this is. It is refused where it is the text of none.
pub(crate) fn info_of(alloc: Global, bytes: Vec<u8>) -> Result<ImageInfo, ImageRefusal>
    ensures told { IfOk result (IsInfoOf bytes.items) }
    ensures accepted { IfOk result TellsAccepted }
    ensures refused { IfErr result
        (λ refusal. OnBytes refusal (image_in bytes.items ≡ Err refusal)) }
{
    let version = version_in(&bytes);
    let mut source = MemSource::new(bytes, IMAGE_BYTES as u64, Vec::new(alloc));
    let image = read_image(alloc, &mut source)?;
    let wide = wide_words(alloc, &image)?;
    let records = all_records(alloc, &image.layout, &wide)?;
    Ok(ImageInfo {
        version,
        cut: image.clock().saturating_sub(2),
        units: all_counts(alloc, image.layout, &wide)?,
        epochs: epoch_counts(alloc, &records)?,
        faults: all_faults(alloc, &image, &wide, &records)?,
        image,
    })
}

// The number of the version that a text tells; 0 where it is shorter.
#[tactic(auto, unfolding(mont_image::specs::ImageText::words_in))]
fn version_in(bytes: &[u8]) -> u64
    ensures { result ≡ slice_index (words_in bytes.now) 1 }
{
    let (words, _) = bytes.as_chunks::<WORD>();
    match words.get(1) {
        Some(word) => u64::from_le_bytes(*word),
        None => 0,
    }
}
