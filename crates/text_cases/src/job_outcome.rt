// What comes of the text of a job.
ghost use Rattle.std.specs.Prelude.{◌≡◌, ◌<◌, true, length, IfOk};
ghost use Rattle.job_text.specs.Grammar.{IsJob};
ghost use Rattle.job_text.specs.JobText.{job_text};
ghost use Rattle.text_cases.specs.CaseOutcomes.{IsOutcome};
ghost use Rattle.text_cases.specs.declared.job_outcome.JobOutcome.TheVariants.{Read};

use job_text::{Job, JobFault, JobRefusal, read_job, write_job};
use mont_base::MemSource;
use std::alloc::{AllocError, Global};
use std::fmt;

/// What comes of a text: the job that it spells, the first line that has a fault, or a fault of
/// reading.
#[derive(Clone, Copy, PartialEq, Eq)]
pub enum JobOutcome {
    /// How many stops and lines the job has, and whether its text is this one.
    Read { stops: u64, lines: u64, same: bool },
    /// The line, counted from 1, and its fault.
    Refused { line: u64, fault: JobFault },
    /// The source failed.
    Failed,
}

/// Reads the text of a job from a source that gives so many bytes a call and fails in these calls.
pub fn outcome_of(
    alloc: Global,
    text: &[u8],
    piece: u64,
    failing: &[u64],
) -> Result<JobOutcome, AllocError>
    requires { 0 < piece }
    ensures { IfOk result (IsOutcome text.now) }
{
    let mut source = source_of(alloc, text, piece, failing)?;
    match read_job(alloc, &mut source) {
        Ok(job) => outcome_of_job(alloc, &job, text),
        Err(JobRefusal::Text { line, fault }) => Ok(JobOutcome::Refused { line, fault }),
        Err(JobRefusal::Read) => Ok(JobOutcome::Failed),
        Err(JobRefusal::Memory) => Err(AllocError),
    }
}

/// A source of a text that gives so many bytes a call and fails in these calls.
pub fn source_of(
    alloc: Global,
    text: &[u8],
    piece: u64,
    failing: &[u64],
) -> Result<MemSource, AllocError>
    requires { 0 < piece }
    ensures { IfOk result (λ s. s.left ≡ text.now) }
{
    let bytes = Vec::from_slice(alloc, text)?;
    Ok(MemSource::new(bytes, piece, Vec::from_slice(alloc, failing)?))
}

// What the job is that a text spells.
fn outcome_of_job(alloc: Global, job: &Job, text: &[u8]) -> Result<JobOutcome, AllocError>
    requires job { IsJob job.now }
    requires spelled { text.now ≡ job_text job.now }
    ensures { IfOk result (λ o. o ≡ Read (length job.now.stops) (length job.now.lines) true) }
{
    let written = write_job(alloc, job)?;
    Ok(JobOutcome::Read {
        stops: job.stops.len(),
        lines: job.lines.len(),
        same: written.as_slice() == text,
    })
}

impl fmt::Display for JobOutcome {
    fn fmt<W: fmt::Write>(&self, f: &mut fmt::Formatter<W>) -> fmt::Result {
        match self {
            JobOutcome::Read {
                stops,
                lines,
                same: true,
            } => write!(f, "{stops} stops and {lines} lines"),
            JobOutcome::Read { .. } => write!(f, "a job whose text is another"),
            JobOutcome::Refused { line, fault } => {
                write!(f, "line {line}: {}", word_of_fault(*fault))
            }
            JobOutcome::Failed => write!(f, "read fault"),
        }
    }
}

// The word for what is wrong with a line.
fn word_of_fault(fault: JobFault) -> &'static str {
    match fault {
        JobFault::Many => "many",
        JobFault::Long => "long",
        JobFault::Unended => "unended",
        JobFault::Header => "header",
        JobFault::Stop => "stop",
        JobFault::Operation => "operation",
    }
}
