// Why no report was read.
ghost use Rattle.std.specs.Prelude.{◌≡◌};
ghost use Rattle.job_text.specs.declared.report_refusal.ReportRefusal.TheVariants.{Memory};

use std::alloc::{AllocError, AllocFailed};

/// Why no report was read.
#[derive(Clone, Copy, Debug, PartialEq, Eq)]
pub enum ReportRefusal {
    /// The first line, counted from 1, that the text of no report has after the lines before it.
    Text { line: u64 },
    /// There was too little memory.
    Memory,
}

impl From<AllocError> for ReportRefusal {
    ghost from_gives = { λ _ e. e ≡ Memory };

    fn from(_error: AllocError) -> ReportRefusal {
        ReportRefusal::Memory
    }
}

impl<T: Drop> From<AllocFailed<T>> for ReportRefusal {
    ghost from_gives = { λ _ e. e ≡ Memory };

    fn from(_error: AllocFailed<T>) -> ReportRefusal {
        ReportRefusal::Memory
    }
}
