// Why a line of a case isn't carried out.
use mont_base::Epoch;
use std::alloc::{AllocError, AllocFailed};
use std::fmt;

/// Why a step isn't made, or a call isn't.
#[derive(Clone, Copy)]
pub enum LineFault {
    /// The line isn't one of its kind.
    Unclear,
    /// The machine doesn't allow it.
    NotAllowed,
    /// A unit's announcement holds the advancer.
    Held,
    /// The unit has so few free slots, by this durable clock.
    Full { free: u64, clock: Epoch },
    /// The gate cut it.
    Cut,
    /// There was too little memory.
    Memory,
}

impl fmt::Display for LineFault {
    fn fmt<W: fmt::Write>(&self, f: &mut fmt::Formatter<W>) -> fmt::Result {
        match self {
            LineFault::Unclear => write!(f, "unclear"),
            LineFault::NotAllowed => write!(f, "not allowed"),
            LineFault::Held => write!(f, "held"),
            LineFault::Full { free, clock } => write!(f, "full, {free} free at clock {clock}"),
            LineFault::Cut => write!(f, "cut"),
            LineFault::Memory => write!(f, "out of memory"),
        }
    }
}

impl From<AllocError> for LineFault {
    fn from(_error: AllocError) -> LineFault {
        LineFault::Memory
    }
}

impl<T: Drop> From<AllocFailed<T>> for LineFault {
    fn from(_error: AllocFailed<T>) -> LineFault {
        LineFault::Memory
    }
}
