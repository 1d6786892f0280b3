// How a run of the tool ends.
ghost use Rattle.std.specs.Prelude.{◌≡◌, IfOk, Some, string_bytes};
ghost use Rattle.montage_tool.specs.Status.{exit_code_of, status_bytes, fault_word, source_word, sink_word};

use crate::kind_letters::KindLetters;
use image_units::ImageFault;
use job_text::JobFault;
use mont_base::{Kinds, Unit};
use std::alloc::{AllocError, Global};
use std::fmt;

/// What a run of the tool came to.
#[derive(Clone, Copy, Debug, PartialEq, Eq)]
pub enum Status {
    /// Its output was written.
    Done,
    /// The words of the command line are of no form.
    BadWords,
    /// A line of the job is refused. The first line is line 1.
    BadJob { line: u64, fault: JobFault },
    /// The image has a fault, in its bytes or in what they hold.
    BadImage { fault: ImageFault },
    /// A source failed.
    ReadFault { which: SourceName },
    /// A sink failed.
    WriteFault { which: SinkName },
    /// Memory ran out.
    Memory,
    /// The lowest map unit that has no box, or one that holds so many keys.
    BadIndex { unit: Unit, len: Option<u64> },
    /// The image is of this layout, and the job of another.
    OtherLayout { kinds: Kinds, slots: u64 },
    /// A line of the report is refused, or as line 0 the report has too many bytes.
    BadReport { line: u64 },
    /// The event on a line of the schedule isn't allowed.
    NotAllowed { line: u64 },
    /// A line of the schedule is refused.
    BadSchedule { line: u64 },
}

/// What the tool reads.
#[derive(Clone, Copy, Debug, PartialEq, Eq)]
pub enum SourceName {
    Job,
    Image,
}

/// What the tool writes.
#[derive(Clone, Copy, Debug, PartialEq, Eq)]
pub enum SinkName {
    Report,
    Image,
}

/// The exit code of the process.
pub fn exit_code(status: &Status) -> u8
    ensures { result ≡ exit_code_of status.now }
{
    match status {
        Status::Done => 0,
        Status::BadWords => 2,
        Status::BadJob { .. } => 3,
        Status::BadImage { .. } => 4,
        Status::ReadFault { .. } => 5,
        Status::WriteFault { .. } => 6,
        Status::Memory => 7,
        Status::BadIndex { .. } => 8,
        Status::OtherLayout { .. } => 9,
        Status::BadReport { .. } => 10,
        Status::NotAllowed { .. } => 11,
        Status::BadSchedule { .. } => 12,
    }
}

/// The line that tells a status, without its line feed. It is empty where all went well.
pub fn status_text(alloc: Global, status: &Status) -> Result<String, AllocError>
    ensures { IfOk result (λ text. string_bytes text ≡ status_bytes status.now) }
{
    status.to_string(alloc)
}

impl fmt::Display for Status {
    ghost output = { λ s. Some (status_bytes s) };

    fn fmt<W: fmt::Write>(&self, f: &mut fmt::Formatter<W>) -> fmt::Result {
        match self {
            Status::Done => Ok(()),
            Status::BadWords => write!(f, "montage: bad words"),
            Status::BadJob { line, fault } => {
                let word = word_of_fault(*fault);
                write!(f, "montage: job line {line}: {word}")
            }
            Status::BadImage { fault } => write!(f, "montage: image: {fault}"),
            Status::ReadFault { which } => write!(f, "montage: read fault: {which}"),
            Status::WriteFault { which } => write!(f, "montage: write fault: {which}"),
            Status::Memory => write!(f, "montage: out of memory"),
            Status::BadIndex { unit, .. } => write!(f, "montage: index {unit}"),
            Status::OtherLayout { kinds, slots } => {
                let letters = KindLetters(kinds.as_slice());
                write!(f, "montage: image layout {letters} {slots}")
            }
            Status::BadReport { line } => write!(f, "montage: report line {line}"),
            Status::NotAllowed { line } => write!(f, "montage: not allowed at line {line}"),
            Status::BadSchedule { line } => write!(f, "montage: schedule line {line}"),
        }
    }
}

impl fmt::Display for SourceName {
    ghost output = { λ s. Some (source_word s) };

    fn fmt<W: fmt::Write>(&self, f: &mut fmt::Formatter<W>) -> fmt::Result {
        match self {
            SourceName::Job => write!(f, "job"),
            SourceName::Image => write!(f, "image"),
        }
    }
}

impl fmt::Display for SinkName {
    ghost output = { λ s. Some (sink_word s) };

    fn fmt<W: fmt::Write>(&self, f: &mut fmt::Formatter<W>) -> fmt::Result {
        match self {
            SinkName::Report => write!(f, "report"),
            SinkName::Image => write!(f, "image"),
        }
    }
}

// The word for what is wrong with a line of a job.
fn word_of_fault(fault: JobFault) -> &'static str
    ensures { result.now ≡ fault_word fault }
{
    match fault {
        JobFault::Many => "many",
        JobFault::Long => "long",
        JobFault::Unended => "unended",
        JobFault::Header => "header",
        JobFault::Stop => "stop",
        JobFault::Operation => "operation",
    }
}
