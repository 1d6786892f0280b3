// Why nothing could be timed.
use std::alloc::{AllocError, AllocFailed};
use std::{fmt, io};
use store::StoreRefusal;

// Why nothing could be timed.
#[derive(Clone, Copy)]
pub(crate) enum Trouble {
    // The store refused something.
    Refused { why: StoreRefusal },
    // The store has no unit of the kind that an operation asks for.
    NoUnit,
    // The clock of the machine couldn't be read.
    NoClock,
}

impl From<StoreRefusal> for Trouble {
    fn from(why: StoreRefusal) -> Trouble {
        Trouble::Refused { why }
    }
}

impl From<AllocError> for Trouble {
    fn from(error: AllocError) -> Trouble {
        Trouble::Refused { why: error.into() }
    }
}

impl<T: Drop> From<AllocFailed<T>> for Trouble {
    fn from(error: AllocFailed<T>) -> Trouble {
        Trouble::Refused { why: error.into() }
    }
}

impl From<io::Error> for Trouble {
    fn from(_error: io::Error) -> Trouble {
        Trouble::NoClock
    }
}

impl fmt::Display for Trouble {
    fn fmt<W: fmt::Write>(&self, f: &mut fmt::Formatter<W>) -> fmt::Result {
        match self {
            Trouble::Refused { why } => write!(f, "refused: {why:?}"),
            Trouble::NoUnit => write!(f, "no unit"),
            Trouble::NoClock => write!(f, "no clock"),
        }
    }
}
