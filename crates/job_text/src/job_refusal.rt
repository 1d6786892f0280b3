// Why no job was read.
ghost use Rattle.std.specs.Prelude.{◌≡◌};
ghost use Rattle.job_text.specs.declared.job_refusal.JobRefusal.TheVariants.{Read, Memory};

use crate::job::JobFault;
use mont_base::Failed;
use std::alloc::{AllocError, AllocFailed};

/// Why no job was read.
#[derive(Clone, Copy, Debug, PartialEq, Eq)]
pub enum JobRefusal {
    /// The first line of the text that has a fault, counted from 1, and its first fault.
    Text { line: u64, fault: JobFault },
    /// The source failed.
    Read,
    /// There was too little memory.
    Memory,
}

impl From<Failed> for JobRefusal {
    ghost from_gives = { λ _ e. e ≡ Read };

    fn from(_failed: Failed) -> JobRefusal {
        JobRefusal::Read
    }
}

impl From<AllocError> for JobRefusal {
    ghost from_gives = { λ _ e. e ≡ Memory };

    fn from(_error: AllocError) -> JobRefusal {
        JobRefusal::Memory
    }
}

impl<T: Drop> From<AllocFailed<T>> for JobRefusal {
    ghost from_gives = { λ _ e. e ≡ Memory };

    fn from(_error: AllocFailed<T>) -> JobRefusal {
        JobRefusal::Memory
    }
}
