// Reads and writes that are tried again where a signal interrupts them, and the count of those that
// failed.
ghost use Rattle.std.specs.Prelude.{◌≡◌, ◌≤◌, ℕ, Err, IfOk, IsNone, IsSome, Some, length};
ghost use Rattle.std.specs.Io.KnownBytes.{ReadConsumes, WriteAppends};
ghost use Rattle.mont_base.specs.Faults.{HasCause, CountsFaults};

use mont_base::Failed;
use std::io;
use std::io::{ErrorKind, Read, Write};

// One read, which is tried again where it is interrupted.
pub(crate) fn read_some<R: Read>(reader: &mut R, buf: &mut [u8]) -> io::Result<usize>
    ensures bound { IfOk result (λ n. n ≤ length buf.new) }
    ensures bytes { ReadConsumes (R.remaining reader.old) (R.remaining reader.new) result buf.new }
{
    for _ in 0..u64::MAX {
        match reader.read(buf) {
            Ok(count) => return Ok(count),
            Err(e) => {
                if e.kind() != ErrorKind::Interrupted {
                    return Err(e);
                }
            }
        }
    }
    Err(io::Error::from(ErrorKind::Interrupted))
}

// One write, which is tried again where it is interrupted.
pub(crate) fn write_some<W: Write>(writer: &mut W, piece: &[u8]) -> io::Result<usize>
    ensures bound { IfOk result (λ n. n ≤ length piece.now) }
    ensures bytes { WriteAppends (W.contents writer.old) (W.contents writer.new) result piece.now }
{
    for _ in 0..u64::MAX {
        match writer.write(piece) {
            Ok(count) => return Ok(count),
            Err(e) => {
                if e.kind() != ErrorKind::Interrupted {
                    return Err(e);
                }
            }
        }
    }
    Err(io::Error::from(ErrorKind::Interrupted))
}

// A failure, which is counted. What the system said of the first one is kept.
pub(crate) fn failure(faults: &mut u64, reason: &mut Option<io::Error>, said: io::Error) -> Failed
    ensures cause { HasCause {T = ℕ} faults.old faults.new (Err result) }
    ensures counted { CountsFaults {T = ℕ} faults.old faults.new (Err result) }
    ensures said { IsNone reason.old → reason.new ≡ Some said }
    ensures first { IsSome reason.old → reason.new ≡ reason.old }
{
    *faults = faults.saturating_add(1);
    if reason.is_none() {
        *reason = Some(said);
    }
    Failed
}
