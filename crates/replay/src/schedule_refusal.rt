// Why no schedule was read.
ghost use Rattle.std.specs.Prelude.{◌≡◌};
ghost use Rattle.replay.specs.declared.schedule_refusal.ScheduleRefusal.TheVariants.{Memory};
ghost use Rattle.replay.specs.SchedulesRead.{as_schedule_refusal};

use source_bytes::ReadRefusal;
use std::alloc::{AllocError, AllocFailed};

/// Why no schedule was read.
#[derive(Clone, Copy, Debug, PartialEq, Eq)]
pub enum ScheduleRefusal {
    /// The first line of the text that is refused, counted from 1.
    Text { line: u64 },
    /// The source failed.
    Read,
    /// There was too little memory.
    Memory,
}

impl From<ReadRefusal> for ScheduleRefusal {
    ghost from_gives = { λ r e. e ≡ as_schedule_refusal r };

    fn from(refusal: ReadRefusal) -> ScheduleRefusal {
        match refusal {
            ReadRefusal::Read => ScheduleRefusal::Read,
            ReadRefusal::Memory => ScheduleRefusal::Memory,
        }
    }
}

impl From<AllocError> for ScheduleRefusal {
    ghost from_gives = { λ _ e. e ≡ Memory };

    fn from(_error: AllocError) -> ScheduleRefusal {
        ScheduleRefusal::Memory
    }
}

impl<T: Drop> From<AllocFailed<T>> for ScheduleRefusal {
    ghost from_gives = { λ _ e. e ≡ Memory };

    fn from(_error: AllocFailed<T>) -> ScheduleRefusal {
        ScheduleRefusal::Memory
    }
}
