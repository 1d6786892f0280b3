// Writing all of some bytes to a sink that takes them piece by piece.
ghost use Rattle.std.specs.Prelude.{OnOk, OnErr};
ghost use Rattle.std.specs.Io.KnownBytes.{Appends};
ghost use Rattle.mont_base.specs.Delivery.{AppendsFront};
ghost use Rattle.mont_base.specs.Faults.{HasCause};

use crate::sink::Sink;
use crate::source::Failed;

/// Writes all the bytes, by as many calls as it takes. After a failure the sink may have taken some
/// of them.
pub fn deliver<K: Sink>(sink: &mut K, bytes: &[u8]) -> Result<(), Failed>
    ensures all { OnOk result (Appends (K.taken sink.old) (K.taken sink.new) bytes.now) }
    ensures part { OnErr result (AppendsFront (K.taken sink.old) (K.taken sink.new) bytes.now) }
    ensures cause { HasCause (K.faults sink.old) (K.faults sink.new) result }
{
    let mut rest = bytes;
    while !rest.is_empty() {
        let count = sink.write(rest)?;
        rest = &rest[count..];
    }
    Ok(())
}
