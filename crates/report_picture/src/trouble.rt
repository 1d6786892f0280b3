// Why there is no picture.
ghost use Rattle.std.specs.Prelude.{◌≡◌};
ghost use Rattle.report_picture.specs.Trouble.{exit_code_of};

use std::alloc::AllocError;
use std::fmt;

/// Why there is no picture.
#[derive(Clone, Copy)]
pub(crate) enum Trouble {
    /// The words of the command line are of no form.
    Words,
    /// Standard input failed.
    Read,
    /// Standard output failed.
    Write,
    /// The first wrong line of a text that is no report's. A text that is too long has line 0.
    Line { line: u64 },
    /// Memory ran out.
    Memory,
}

/// The exit status.
pub(crate) fn status_of(trouble: Trouble) -> u8
    ensures { result ≡ exit_code_of trouble }
{
    match trouble {
        Trouble::Words => 2,
        Trouble::Read => 5,
        Trouble::Write => 6,
        Trouble::Memory => 7,
        Trouble::Line { .. } => 10,
    }
}

impl fmt::Display for Trouble {
    ghost use Rattle.std.specs.Prelude.{Some};
    ghost use Rattle.report_picture.specs.Trouble.{trouble_line};

    ghost output = { λ trouble. Some (trouble_line trouble) };

    fn fmt<W: fmt::Write>(&self, f: &mut fmt::Formatter<W>) -> fmt::Result {
        match self {
            Trouble::Words => write!(f, "picture: bad words"),
            Trouble::Read => write!(f, "picture: read fault"),
            Trouble::Write => write!(f, "picture: write fault"),
            Trouble::Line { line } => write!(f, "picture: report line {line}"),
            Trouble::Memory => write!(f, "picture: out of memory"),
        }
    }
}

impl From<AllocError> for Trouble {
    fn from(_: AllocError) -> Trouble {
        Trouble::Memory
    }
}
