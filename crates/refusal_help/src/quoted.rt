// Bytes as they are quoted in sentences.
use std::fmt;

/// Of longer bytes so many are quoted.
pub const QUOTED_BYTES: usize = 40;

/// Bytes between quotes. A byte that can't be seen is `\x` and two digits in base 16, and two dots
/// stand for those after the first forty.
#[derive(Clone, Copy)]
pub struct Quoted<'a>(pub &'a [u8]);

impl fmt::Display for Quoted<'_> {
    fn fmt<W: fmt::Write>(&self, f: &mut fmt::Formatter<W>) -> fmt::Result {
        f.write_str("\"")?;
        for byte in self.0.iter().take(QUOTED_BYTES) {
            let byte = *byte;
            if 32 <= byte && byte <= 126 {
                f.write_char(char::from(byte))?;
            } else {
                write!(f, "\\x{byte:02x}")?;
            }
        }
        if self.0.len() > QUOTED_BYTES {
            f.write_str("..")?;
        }
        f.write_str("\"")
    }
}
