// An image is read, and what is told of it is written.
ghost use Rattle.std.specs.Prelude.{IfErr, IfOk, string_bytes};
ghost use Rattle.image_info.specs.Process.{AreRefused, CameOf, IsTold};

use crate::info::info_of;
use crate::told_lines::info_text;
use crate::trouble::Trouble;
use mont_base::{Sink, Source, deliver};
use mont_image::IMAGE_BYTES;
use source_bytes::read_at_most;
use std::alloc::Global;

/// Reads the text of an image, and writes the lines that tell of it.
pub(crate) fn show<S: Source, O: Sink>(
    alloc: Global,
    image: &mut S,
    out: &mut O,
) -> Result<(), Trouble>
    ensures { CameOf S.Source O.Sink image.old image.new out.old out.new result }
{
    let bytes = read_at_most(alloc, image, IMAGE_BYTES + 1)?;
    let text = text_of(alloc, bytes)?;
    match deliver(out, text.as_bytes()) {
        Ok(()) => Ok(()),
        Err(_) => Err(Trouble::Write),
    }
}

// The lines that tell of the image of these bytes.
fn text_of(alloc: Global, bytes: Vec<u8>) -> Result<String, Trouble>
    ensures told { IfOk result (λ text. IsTold bytes.items (string_bytes text)) }
    ensures refused { IfErr result (AreRefused bytes.items) }
{
    let info = info_of(alloc, bytes)?;
    Ok(info_text(alloc, &info)?)
}
