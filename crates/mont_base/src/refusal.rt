// Why a call of a structure isn't answered.
use crate::layout::{Epoch, Unit};

/// A number that would rise above 2^62. The order of the variants is that in which they are tried.
#[derive(Clone, Copy, Debug, PartialEq, Eq)]
pub enum Which {
    /// The caller's calls.
    Call,
    /// The places of the unit's history.
    Place,
    /// The unit's identities.
    Identity,
    /// The versions of an identity.
    Version,
    /// The serials of a queue.
    Serial,
}

/// Why a call of a structure isn't answered. No entry comes of it.
#[derive(Clone, Copy, Debug, PartialEq, Eq)]
pub enum CallRefusal {
    /// A caller was cut inside the unit, which is halted for good.
    Halted { unit: Unit, by: u64 },
    /// A number is at its end.
    CountEnd { which: Which },
    /// There is too little memory.
    Memory,
    /// The call needs more slots than are free once all is closed that may be at this durable
    /// clock.
    Full { need: u64, free: u64, clock: Epoch },
    /// The caller's gate cut inside the unit.
    Cut { unit: Unit },
}
