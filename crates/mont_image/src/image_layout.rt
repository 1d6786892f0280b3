// The layout that an image's text tells.
ghost use Rattle.std.specs.Prelude.{◌≡◌, ◌+◌, ◌*◌, ◌/◌, ◌%◌, ◌<◌, ◌≤◌, ◌++◌, map, length, IfOk, IfErr, IfSome, Err};
ghost use Rattle.std.specs.Io.KnownBytes.{Consumes};
ghost use Rattle.mont_base.specs.Layout.{code_of};
ghost use Rattle.mont_image.specs.ImageHeader.{IsHeader};
ghost use Rattle.mont_image.specs.ImageLayout.{IsLayoutOf, RefusesCodes};
ghost use Rattle.mont_image.specs.ImageRefusal.{Refuses, TellsFaults};
ghost use Rattle.mont_image.specs.ImageText.{bytes_of, words_in, codes_told, code_count, kinds_of_codes, layout_in, header_words};

use crate::byte_filling::fill;
use crate::image_refusal::ImageRefusal;
use crate::image_text::{HEADER, Header, Version, WORD};
use mont_base::{Kinds, Layout, MOST_UNITS, Source, UnitKind};

// Reads the codes of the kinds, where the version has them.
pub(crate) fn read_layout<S: Source>(
    source: &mut S,
    header: &Header,
) -> Result<Layout, ImageRefusal>
    requires { IsHeader header.now }
    ensures read { IfOk result (λ s. IsLayoutOf header.now s
        × Consumes (S.left source.old) (S.left source.new)
        (bytes_of (codes_told header.now.version s.kinds))) }
    ensures refused { IfErr result
        (Refuses (WORD * code_count header.now.version header.now.units)
        (λ fault rest. layout_in header.now
        (header_words header.now ++ words_in rest) ≡ Err fault)
        (S.left source.old) (S.left source.new)) }
    ensures cause { TellsFaults (S.faults source.old) (S.faults source.new) result }
{
    let kinds = match header.version {
        Version::First | Version::Second => Kinds::old(header.units),
        Version::Third => read_kinds(source, header.units as usize)?,
    };
    match Layout::new(kinds, header.slots) {
        Ok(layout) => Ok(layout),
        Err(_) => unreachable!(),
    }
}

// Reads the codes of so many units.
fn read_kinds<S: Source>(source: &mut S, units: usize) -> Result<Kinds, ImageRefusal>
    requires some { 1 ≤ units }
    requires few { units ≤ MOST_UNITS }
    ensures read { IfOk result (λ kinds. (length kinds ≡ units)
        × Consumes (S.left source.old) (S.left source.new) (bytes_of (map code_of kinds))) }
    ensures refused { IfErr result
        (Refuses (WORD * units) (RefusesCodes units) (S.left source.old) (S.left source.new)) }
    ensures cause { TellsFaults (S.faults source.old) (S.faults source.new) result }
{
    let mut buffer = [0; WORD * MOST_UNITS];
    let bytes = &mut buffer[..WORD * units];
    let count = fill(source, bytes)?;
    if count < WORD * units {
        let words = (HEADER + count / WORD) as u64;
        return Err(ImageRefusal::Short { words });
    }
    kinds_of(bytes).ok_or(ImageRefusal::Layout)
}

// The kinds of these codes, if each is that of a kind.
fn kinds_of(codes: &[u8]) -> Option<Kinds>
    requires whole { length codes.now % WORD ≡ 0 }
    requires some { 1 ≤ length codes.now / WORD }
    requires few { length codes.now / WORD ≤ MOST_UNITS }
    ensures exact { result ≡ kinds_of_codes (words_in codes.now) }
    ensures spelled { IfSome result (λ kinds. codes.now ≡ bytes_of (map code_of kinds)) }
{
    let (words, _) = codes.as_chunks::<WORD>();
    let mut letters = [0; MOST_UNITS];
    for (unit, word) in words.iter().enumerate() {
        letters[unit] = UnitKind::of_code(u64::from_le_bytes(*word))?.letter();
    }
    Kinds::of_letters(&letters[..words.len()]).ok()
}
