// What comes of the text of a report.
ghost use Rattle.std.specs.Prelude.{◌≡◌, ℕ, Bool, true, Ok};
ghost use Rattle.job_text.specs.declared.report.Report as memory;
ghost use Rattle.job_text.specs.PlainReport.{report_of};
ghost use Rattle.job_text.specs.ReportRanges.{IsReport, IsFirstWrong};
ghost use Rattle.job_text.specs.ReportText.{report_text};
ghost use Rattle.text_cases.specs.declared.report_outcome.ReportOutcome.TheVariants.{Read, Refused};

use job_text::{Report, ReportRefusal, read_report, write_report};
use std::alloc::{AllocError, Global};

/// What comes of a text: the report that it spells, or the first line that is refused.
#[derive(Drop)]
pub enum ReportOutcome {
    /// The report, and whether its text is this one.
    Read { report: Report, same: bool },
    /// The line, counted from 1.
    Refused { line: u64 },
}

impl ReportOutcome {
    /// Reads the text of a report.
    pub fn of(alloc: Global, text: &[u8]) -> Result<ReportOutcome, AllocError>
        ensures read { (r : memory.Report) (same : Bool) → result ≡ Ok (Read r same)
            → IsReport (report_of r) × (text.now ≡ report_text (report_of r)) × (same ≡ true) }
        ensures refused { (line : ℕ) → result ≡ Ok (Refused line) → IsFirstWrong text.now line }
    {
        match read_report(alloc, text) {
            Ok(report) => {
                let written = write_report(alloc, &report)?;
                let same = written.as_slice() == text;
                Ok(ReportOutcome::Read { report, same })
            }
            Err(ReportRefusal::Text { line }) => Ok(ReportOutcome::Refused { line }),
            Err(ReportRefusal::Memory) => Err(AllocError),
        }
    }
}
