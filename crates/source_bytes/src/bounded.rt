// The bytes of a source, at most so many.
ghost use Rattle.std.specs.Prelude.{IfOk};
ghost use Rattle.mont_base.specs.Losses.{LosesAtMost};
ghost use Rattle.source_bytes.specs.BytesTaken.{TakesBytes, TellsFaults};

use crate::read_refusal::ReadRefusal;
use mont_base::Source;
use std::alloc::Global;

/// How many bytes are asked of a source at once.
const CHUNK: usize = 4096;

/// What a source has left, or the first `most` bytes of it where it has more. Nothing of the
/// bytes that were read is handed out beside a refusal.
pub fn read_at_most<S: Source>(
    alloc: Global,
    source: &mut S,
    most: usize,
) -> Result<Vec<u8>, ReadRefusal>
    ensures bytes { IfOk result
        (λ bytes. TakesBytes most (S.left source.old) (S.left source.new) bytes.items) }
    ensures few { LosesAtMost most (S.left source.old) (S.left source.new) }
    ensures cause { TellsFaults (S.faults source.old) (S.faults source.new) result }
{
    let mut bytes = Vec::new(alloc);
    let mut chunk = [0; CHUNK];
    while bytes.len() < most {
        let room = CHUNK.min(most - bytes.len());
        let count = source.read(&mut chunk[..room])?;
        if count == 0 {
            return Ok(bytes);
        }
        bytes.extend_from_slice(&chunk[..count])?;
    }
    Ok(bytes)
}
