// A buffer that is filled from a source which gives its bytes piece by piece.
ghost use Rattle.std.specs.Prelude.{◌≡◌, ◌<◌, ◌≤◌, length, take, IfOk, OnErr};
ghost use Rattle.std.specs.Io.KnownBytes.{Consumes, IsAtEnd};
ghost use Rattle.mont_base.specs.Faults.{HasCause};
ghost use Rattle.mont_base.specs.Losses.{LosesAtMost};

use mont_base::{Failed, Source};

// Reads the next bytes into the front of the buffer, until it is full or the source is at its end,
// and says how many these are.
pub(crate) fn fill<S: Source>(source: &mut S, buf: &mut [u8]) -> Result<usize, Failed>
    ensures bound { IfOk result (λ n. n ≤ length buf.new) }
    ensures bytes { IfOk result
        (λ n. Consumes (S.left source.old) (S.left source.new) (take n buf.new)) }
    ensures ended { IfOk result (λ n. n < length buf.new → IsAtEnd (S.left source.new)) }
    ensures part { OnErr result
        (LosesAtMost (length buf.new) (S.left source.old) (S.left source.new)) }
    ensures cause { HasCause (S.faults source.old) (S.faults source.new) result }
{
    let mut count = 0;
    while count < buf.len() {
        let given = source.read(&mut buf[count..])?;
        if given == 0 {
            return Ok(count);
        }
        count += given;
    }
    Ok(count)
}
