// Images to sinks.
ghost use Rattle.std.specs.Prelude.{◌≡◌, ◌*◌, ◌≤◌, false, length, take, map, OnOk, OnErr};
ghost use Rattle.std.specs.Io.KnownBytes.{Appends};
ghost use Rattle.mont_base.specs.Faults.{HasCause};
ghost use Rattle.mont_base.specs.Layout.{code_of};
ghost use Rattle.mont_base.specs.Delivery.{AppendsFront};
ghost use Rattle.mont_image.specs.ImageText.{bytes_of, header_of, header_words, image_text};

use crate::image_text::{MAGIC, Version, WORD};
use crate::stored_image::Image;
use mont_base::{Failed, Kinds, MOST_UNITS, Sink, deliver};

// How many words are handed to the sink at once.
const PIECE: usize = 512;

/// Writes the text of the image, in the third version. After a failure the sink may have taken a
/// front of it.
pub fn write_image<K: Sink>(image: &Image, sink: &mut K) -> Result<(), Failed>
    requires { image.now.old ≡ false }
    ensures all { OnOk result (Appends (K.taken sink.old) (K.taken sink.new)
        (image_text image.now.layout image.now.words)) }
    ensures part { OnErr result (AppendsFront (K.taken sink.old) (K.taken sink.new)
        (image_text image.now.layout image.now.words)) }
    ensures cause { HasCause (K.faults sink.old) (K.faults sink.new) result }
{
    write_header(image, sink)?;
    write_codes(&image.layout.kinds(), sink)?;
    write_words(&image.words.as_slice()[1..], sink)
}

// Writes the first five words.
fn write_header<K: Sink>(image: &Image, sink: &mut K) -> Result<(), Failed>
    ensures all { OnOk result (Appends (K.taken sink.old) (K.taken sink.new)
        (bytes_of (header_words (header_of Version.Third image.now.layout image.now.words)))) }
    ensures part { OnErr result (AppendsFront (K.taken sink.old) (K.taken sink.new)
        (bytes_of (header_words (header_of Version.Third image.now.layout image.now.words)))) }
    ensures cause { HasCause (K.faults sink.old) (K.faults sink.new) result }
{
    let layout = &image.layout;
    let version = Version::Third.number();
    let words = [
        MAGIC,
        version,
        layout.units(),
        layout.slots(),
        image.clock(),
    ];
    write_words(&words, sink)
}

// Writes the codes of the kinds.
fn write_codes<K: Sink>(kinds: &Kinds, sink: &mut K) -> Result<(), Failed>
    ensures all { OnOk result (Appends (K.taken sink.old) (K.taken sink.new)
        (bytes_of (map code_of kinds.now))) }
    ensures part { OnErr result (AppendsFront (K.taken sink.old) (K.taken sink.new)
        (bytes_of (map code_of kinds.now))) }
    ensures cause { HasCause (K.faults sink.old) (K.faults sink.new) result }
{
    let mut codes = [0; MOST_UNITS];
    for (unit, kind) in kinds.as_slice().iter().enumerate() {
        codes[unit] = kind.code();
    }
    write_words(&codes[..kinds.len() as usize], sink)
}

// Writes words piece by piece, each as its eight bytes.
fn write_words<K: Sink>(words: &[u64], sink: &mut K) -> Result<(), Failed>
    ensures all { OnOk result (Appends (K.taken sink.old) (K.taken sink.new)
        (bytes_of words.now)) }
    ensures part { OnErr result (AppendsFront (K.taken sink.old) (K.taken sink.new)
        (bytes_of words.now)) }
    ensures cause { HasCause (K.faults sink.old) (K.faults sink.new) result }
{
    let mut buffer = [0; WORD * PIECE];
    let mut rest = words;
    while !rest.is_empty() {
        let (piece, behind) = rest.split_at(rest.len().min(PIECE));
        spell(piece, &mut buffer);
        deliver(sink, &buffer[..WORD * piece.len()])?;
        rest = behind;
    }
    Ok(())
}

// Puts the bytes of words into the front of a buffer.
fn spell(words: &[u64], buffer: &mut [u8])
    requires { WORD * length words.now ≤ length buffer.old }
    ensures { take (WORD * length words.now) buffer.new ≡ bytes_of words.now }
{
    for (at, word) in words.iter().enumerate() {
        let first = WORD * at;
        buffer[first..first + WORD].copy_from_slice(&word.to_le_bytes());
    }
}
