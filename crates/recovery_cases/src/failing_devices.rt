// Devices that fail in each of their calls. A case's part `failing` has how many bytes a source
// gives and a sink takes at most in a call.
ghost use Rattle.std.specs.Prelude.{◌≡◌, ◌<◌, false};

use crate::now::source_of;
use case_file::{Unanswered, number_in};
use mont_base::{MemSink, MemSource};
use mont_image::{Image, ImageRefusal, read_image, write_image};
use std::alloc::{AllocError, Global};

/// The part that has the bytes of a call.
pub const FAILING: &str = "failing";

/// How many calls of a source the reader of a text makes, each of which refuses the text where it
/// fails; and how many of a sink the writer of its image makes, each of which leaves the front of
/// the text that the calls before it took.
pub fn failing_told(alloc: Global, part: &[u8], text: &[u8]) -> Result<Vec<u8>, Unanswered> {
    let piece = number_in(alloc, FAILING, part)?.max(1);
    let reads = failing_reads(alloc, text, piece)?;
    let writes = failing_writes(alloc, text, piece)?;
    Ok(format!(in alloc; "source {reads}, sink {writes}\n")?.into_bytes())
}

fn failing_reads(alloc: Global, text: &[u8], piece: u64) -> Result<u64, AllocError>
    requires { 0 < piece }
{
    let most = (text.len() as u64).saturating_add(2);
    for call in 0..most {
        if !is_read_fault(alloc, text, piece, call)? {
            return Ok(call);
        }
    }
    Ok(most)
}

// Whether a text is refused since this call of its source failed.
fn is_read_fault(alloc: Global, text: &[u8], piece: u64, call: u64) -> Result<bool, AllocError>
    requires { 0 < piece }
{
    let fails = vec![in alloc; call]?;
    let mut source = MemSource::new(text.to_vec(alloc)?, piece, fails);
    Ok(read_image(alloc, &mut source).err() == Some(ImageRefusal::Read))
}

fn failing_writes(alloc: Global, text: &[u8], piece: u64) -> Result<u64, AllocError>
    requires { 0 < piece }
{
    let mut source = source_of(alloc, text, piece)?;
    match read_image(alloc, &mut source) {
        Ok(image) if !image.old => calls_of_sink(alloc, &image, text, piece),
        Ok(_) | Err(_) => Ok(0),
    }
}

fn calls_of_sink(alloc: Global, image: &Image, text: &[u8], piece: u64) -> Result<u64, AllocError>
    requires some { 0 < piece }
    requires new { image.now.old ≡ false }
{
    let most = (text.len() as u64).saturating_add(2);
    for call in 0..most {
        if !leaves_front(alloc, image, text, piece, call)? {
            return Ok(call);
        }
    }
    Ok(most)
}

// Whether an image isn't written since this call of its sink failed, which took the pieces of the
// calls before.
fn leaves_front(
    alloc: Global,
    image: &Image,
    text: &[u8],
    piece: u64,
    call: u64,
) -> Result<bool, AllocError>
    requires some { 0 < piece }
    requires new { image.now.old ≡ false }
{
    let fails = vec![in alloc; call]?;
    let mut sink = MemSink::new(alloc, text.len() as u64, piece, fails)?;
    let is_refused = write_image(image, &mut sink).is_err();
    let front = text.get(..call.saturating_mul(piece) as usize);
    Ok(is_refused && front == Some(sink.taken()))
}
