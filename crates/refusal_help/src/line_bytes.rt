// The bytes of a line, before its words are looked at.
ghost use Rattle.std.specs.Prelude.{◌↔◌, ◌<◌, length, IsTrue, MatchResult};
ghost use Rattle.refusal_help.specs.LineBytes.{IsClean, IsLineFault, IsPlain, IsLoose};

use crate::cause::Cause;

/// Whether a line is words of ASCII that can be seen, between single spaces, and no comment.
pub fn check_bytes(line: &[u8]) -> Result<(), Cause>
    ensures { MatchResult result (λ _. IsClean line.now) (λ cause. IsLineFault line.now cause) }
{
    if line.len() < 1 {
        return Err(Cause::Blank);
    }
    if line[0] == b'#' {
        return Err(Cause::Comment);
    }
    for at in 0..line.len() {
        let byte = line[at];
        if !is_plain(byte) {
            return Err(Cause::Byte {
                at: at as u64,
                byte,
            });
        }
    }
    for at in 0..line.len() {
        if is_loose(line, at) {
            return Err(Cause::Space { at: at as u64 });
        }
    }
    Ok(())
}

// Whether a byte is a space, or ASCII that can be seen.
fn is_plain(byte: u8) -> bool
    ensures { IsTrue result ↔ IsPlain byte }
{
    32 <= byte && byte <= 126
}

// Whether a place has a space that doesn't stand between two words.
fn is_loose(line: &[u8], at: usize) -> bool
    requires { at < length line.now }
    ensures { IsTrue result ↔ IsLoose line.now at }
{
    line[at] == b' ' && (at == 0 || at == line.len() - 1 || line[at + 1] == b' ')
}
