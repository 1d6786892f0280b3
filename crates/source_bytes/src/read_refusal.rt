// Why the bytes of a source weren't read.
ghost use Rattle.std.specs.Prelude.{◌≡◌};
ghost use Rattle.source_bytes.specs.declared.read_refusal.ReadRefusal.TheVariants.{Read, Memory};

use mont_base::Failed;
use std::alloc::{AllocError, AllocFailed};

/// Why the bytes of a source weren't read.
#[derive(Clone, Copy, Debug, PartialEq, Eq)]
pub enum ReadRefusal {
    /// The source failed.
    Read,
    /// There was too little memory.
    Memory,
}

impl From<Failed> for ReadRefusal {
    ghost from_gives = { λ _ e. e ≡ Read };

    fn from(_failed: Failed) -> ReadRefusal {
        ReadRefusal::Read
    }
}

impl From<AllocError> for ReadRefusal {
    ghost from_gives = { λ _ e. e ≡ Memory };

    fn from(_error: AllocError) -> ReadRefusal {
        ReadRefusal::Memory
    }
}

impl<T: Drop> From<AllocFailed<T>> for ReadRefusal {
    ghost from_gives = { λ _ e. e ≡ Memory };

    fn from(_error: AllocFailed<T>) -> ReadRefusal {
        ReadRefusal::Memory
    }
}
