// The first five words of an image's text.
ghost use Rattle.std.specs.Prelude.{◌≡◌, ◌/◌, ◌<◌, ◌&&◌, [], ◌∷◌, Some, IfOk, IfErr, length, slice_get, Ok, Err};
ghost use Rattle.std.specs.Io.KnownBytes.{Consumes};
ghost use Rattle.mont_image.specs.ImageHeader.{IsHeader};
ghost use Rattle.mont_image.specs.ImageRefusal.{Refuses, TellsFaults};
ghost use Rattle.mont_image.specs.ImageText.{bytes_of, words_in, header_words, header_in, most_units, unless};
ghost use Rattle.std.specs.Int.{is_in_range};

use crate::byte_filling::fill;
use crate::image_refusal::ImageRefusal;
use crate::image_text::{HEADER, Header, MAGIC, MOST_OLD_MAPS, Version, WORD};
use mont_base::{FIRST_CLOCK, LAST, LEAST_SLOTS, MOST_SLOTS, MOST_UNITS, Source};

const HEADER_BYTES: usize = WORD * HEADER;

// Reads the first five words.
pub(crate) fn read_header<S: Source>(source: &mut S) -> Result<Header, ImageRefusal>
    ensures read { IfOk result (λ h. IsHeader h
        × Consumes (S.left source.old) (S.left source.new) (bytes_of (header_words h))) }
    ensures refused { IfErr result
        (Refuses HEADER_BYTES (λ fault text. header_in (words_in text) ≡ Err fault)
        (S.left source.old) (S.left source.new)) }
    ensures cause { TellsFaults (S.faults source.old) (S.faults source.new) result }
{
    let mut bytes = [0; HEADER_BYTES];
    let count = fill(source, &mut bytes)?;
    if count < HEADER_BYTES {
        let words = (count / WORD) as u64;
        return Err(ImageRefusal::Short { words });
    }
    header_of(&bytes)
}

// What these words tell.
fn header_of(bytes: &[u8; HEADER_BYTES]) -> Result<Header, ImageRefusal>
    ensures exact { result ≡ header_in (words_in bytes.now) }
    ensures spelled { IfOk result
        (λ h. IsHeader h × (bytes.now ≡ bytes_of (header_words h))) }
{
    let magic = word_at(bytes, 0);
    let version = word_at(bytes, 1);
    let units = word_at(bytes, 2);
    let slots = word_at(bytes, 3);
    let clock = word_at(bytes, 4);
    header_told(magic, version, units, slots, clock)
}

fn header_told(
    magic: u64,
    number: u64,
    units: u64,
    slots: u64,
    clock: u64,
) -> Result<Header, ImageRefusal>
    ensures { result ≡ header_in (magic ∷ number ∷ units ∷ slots ∷ clock ∷ []) }
{
    if magic != MAGIC {
        return Err(ImageRefusal::Magic);
    }
    let version = Version::of_number(number).ok_or(ImageRefusal::Version)?;
    check_layout(version, units, slots)?;
    check_clock(clock)?;
    Ok(Header {
        version,
        units,
        slots,
        clock,
    })
}

// Refuses what no layout has.
fn check_layout(version: Version, units: u64, slots: u64) -> Result<(), ImageRefusal>
    ensures { result ≡ unless (is_in_range 1 (most_units version) units
        && is_in_range LEAST_SLOTS MOST_SLOTS slots) ImageRefusal.Layout (Ok tt) }
{
    let has_units = (1..=most_units(version)).contains(&units);
    if has_units && (LEAST_SLOTS..=MOST_SLOTS).contains(&slots) {
        Ok(())
    } else {
        Err(ImageRefusal::Layout)
    }
}

// Refuses what is no clock.
fn check_clock(clock: u64) -> Result<(), ImageRefusal>
    ensures { result ≡ unless (is_in_range FIRST_CLOCK LAST clock) ImageRefusal.Clock (Ok tt) }
{
    if (FIRST_CLOCK..=LAST).contains(&clock) {
        Ok(())
    } else {
        Err(ImageRefusal::Clock)
    }
}

// The greatest number that the third word may be.
fn most_units(version: Version) -> u64
    ensures { result ≡ most_units version }
{
    match version {
        Version::First | Version::Second => MOST_OLD_MAPS,
        Version::Third => MOST_UNITS as u64,
    }
}

// A word among bytes.
#[tactic(auto, unfolding(crate::specs::ImageText::words_in))]
fn word_at(bytes: &[u8], at: usize) -> u64
    requires { at < length bytes.now / WORD }
    ensures { slice_get (words_in bytes.now) at ≡ Some result }
{
    let (words, _) = bytes.as_chunks::<WORD>();
    u64::from_le_bytes(words[at])
}
