// Why a schedule wasn't replayed to its end.
ghost use Rattle.std.specs.Prelude.{◌≡◌};
ghost use Rattle.replay.specs.declared.replay_refusal.ReplayRefusal.TheVariants.{Memory};

use std::alloc::{AllocError, AllocFailed};

/// Why a schedule wasn't replayed to its end.
#[derive(Clone, Copy, Debug, PartialEq, Eq)]
pub enum ReplayRefusal {
    /// The first line of the schedule's text whose event isn't allowed, counted from 1.
    NotAllowed { line: u64 },
    /// There was too little memory.
    Memory,
}

impl From<AllocError> for ReplayRefusal {
    ghost from_gives = { λ _ e. e ≡ Memory };

    fn from(_error: AllocError) -> ReplayRefusal {
        ReplayRefusal::Memory
    }
}

impl<T: Drop> From<AllocFailed<T>> for ReplayRefusal {
    ghost from_gives = { λ _ e. e ≡ Memory };

    fn from(_error: AllocFailed<T>) -> ReplayRefusal {
        ReplayRefusal::Memory
    }
}
