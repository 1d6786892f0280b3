// Images from sources.
ghost use Rattle.std.specs.Prelude.{◌≡◌, ℕ, ◌+◌, ◌*◌, ◌<◌, ◌≤◌, ◌^◌, ◌++◌, [], List, All, length, drop, IfOk, IfErr, IfSome, OnOk, Err};
ghost use Rattle.std.specs.Io.KnownBytes.{Consumes, IsAtEnd};
ghost use Rattle.mont_base.specs.Losses.{LosesAtMost};
ghost use Rattle.mont_image.specs.ImageHeader.{IsHeader};
ghost use Rattle.mont_image.specs.ImageLayout.{IsLayoutOf};
ghost use Rattle.mont_image.specs.ImageReader.{IsAnswerTo, IsTaken, Gives, Reads, RefusesText, HasSlots, RefusesSlots, RefusesMore, parts_of};
ghost use Rattle.mont_image.specs.ImageRefusal.{Refuses, TellsFaults};
ghost use Rattle.mont_image.specs.ImageText.{IsTextOf, ImageParts, bytes_of, words_in, is_old};
ghost use Rattle.mont_image.specs.StoredImage.{slot_words};

use crate::byte_filling::fill;
use crate::image_header::read_header;
use crate::image_layout::read_layout;
use crate::image_refusal::ImageRefusal;
use crate::image_text::{Header, IMAGE_BYTES, WORD};
use crate::stored_image::Image;
use mont_base::{Layout, Sequence, Source};
use std::alloc::{AllocError, Global};

// How many bytes of the slots' words are read at once.
const CHUNK: usize = 4096;

/// Reads an image of one of the three versions to the end of the source. Of what the source gives
/// no more is taken than is needed to decide, which is 6,291,625 bytes at most.
pub fn read_image<S: Source>(alloc: Global, source: &mut S) -> Result<Image, ImageRefusal>
    // The answer is the image that the bytes are a text of, or their first fault.
    ensures answer { IfSome (S.left source.old) (IsAnswerTo result) }
    ensures spelled { IfOk result
        (λ image. IfSome (S.left source.old) (λ text. IsTextOf text (parts_of image))) }

    // A text gives its one image, unless the source fails or memory runs out.
    ensures accepted { (parts : ImageParts) → IfSome (S.left source.old)
        (λ text. IsTextOf text parts → Gives parts result) }

    // What was taken of the source, and how often it failed.
    ensures taken { IfSome (S.left source.old) (λ text. IsTaken text (S.left source.new) result) }
    ensures few { LosesAtMost (IMAGE_BYTES + 1) (S.left source.old) (S.left source.new) }
    ensures cause { TellsFaults (S.faults source.old) (S.faults source.new) result }
{
    read_text(alloc, source)
}

// Reads the text, part by part.
fn read_text<S: Source>(alloc: Global, source: &mut S) -> Result<Image, ImageRefusal>
    ensures read { IfOk result
        (λ image. Reads (S.left source.old) (S.left source.new) (parts_of image)) }
    ensures refused { IfErr result (λ refusal. IfSome (S.left source.old)
        (λ text. RefusesText text (S.left source.new) refusal)) }
    ensures cause { TellsFaults (S.faults source.old) (S.faults source.new) result }
{
    let header = read_header(source)?;
    let layout = read_layout(source, &header)?;
    let words = read_slots(alloc, source, &header, &layout)?;
    check_end(source)?;
    Ok(Image {
        layout,
        words: Sequence::from_vec(words),
        old: header.version.is_old(),
    })
}

// Reads the words of the slots, and gives them after the clock.
fn read_slots<S: Source>(
    alloc: Global,
    source: &mut S,
    header: &Header,
    layout: &Layout,
) -> Result<Vec<u64>, ImageRefusal>
    requires header { IsHeader header.now }
    requires layout { IsLayoutOf header.now layout.now }
    ensures read { IfOk result (λ v. HasSlots header.now layout.now v.items
        × Consumes (S.left source.old) (S.left source.new) (bytes_of (drop 1 v.items))) }
    ensures refused { IfErr result
        (Refuses (WORD * slot_words (is_old header.now.version) layout.now)
        (RefusesSlots header.now layout.now) (S.left source.old) (S.left source.new)) }
    ensures cause { TellsFaults (S.faults source.old) (S.faults source.new) result }
{
    let count = header.fields() * layout.total() as usize;
    let mut words = Vec::with_capacity(alloc, 1 + count)?;
    words.push(header.clock)?;
    let mut chunk = [0; CHUNK];
    while words.len() <= count {
        let room = CHUNK.min(WORD * (1 + count - words.len()));
        let given = fill(source, &mut chunk[..room])?;
        push_words(&mut words, &chunk[..given])?;
        if given < room {
            let words = (header.front() + words.len() - 1) as u64;
            return Err(ImageRefusal::Short { words });
        }
    }
    Ok(words)
}

// Adds the words that stand whole in these bytes.
#[tactic(auto, unfolding(crate::specs::ImageText::words_in))]
fn push_words(words: &mut Vec<u64>, bytes: &[u8]) -> Result<(), AllocError>
    ensures added { OnOk result (words.new.items ≡ words.old.items ++ words_in bytes.now) }
    ensures in_range { OnOk result (All (λ w. w < 2 ^ 64) words.new.items) }

    // Whole words have just these bytes.
    ensures spelled { (count : ℕ) → length bytes.now ≡ WORD * count
        → bytes_of (words_in bytes.now) ≡ bytes.now }
{
    let (whole, _) = bytes.as_chunks::<WORD>();
    for word in whole {
        words.push(u64::from_le_bytes(*word))?;
    }
    Ok(())
}

// Refuses a source that isn't at its end.
fn check_end<S: Source>(source: &mut S) -> Result<(), ImageRefusal>
    ensures ended { OnOk result
        (Consumes (S.left source.old) (S.left source.new) [] × IsAtEnd (S.left source.new)) }
    ensures refused { IfErr result
        (Refuses 1 RefusesMore (S.left source.old) (S.left source.new)) }
    ensures cause { TellsFaults (S.faults source.old) (S.faults source.new) result }
{
    let mut byte = [0; 1];
    if source.read(&mut byte)? == 0 {
        Ok(())
    } else {
        Err(ImageRefusal::Long)
    }
}
