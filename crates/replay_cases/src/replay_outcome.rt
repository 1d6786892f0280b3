// What comes of the text of a schedule.
ghost use Rattle.std.specs.Prelude.{◌≡◌, ◌<◌, IfOk};
ghost use Rattle.replay_cases.specs.ReplayOutcomes.{IsOutcome};

use mont_base::MemSource;
use replay::{ReplayRefusal, ScheduleRefusal, read_schedule, replay};
use std::alloc::{AllocError, Global};

/// What comes of a text: the text of its replay, the line that is no schedule's, the line whose
/// event isn't allowed, or a fault of reading.
#[derive(Drop)]
pub enum ReplayOutcome {
    Replayed { text: Vec<u8> },
    /// The first line that is refused, counted from 1.
    Refused { line: u64 },
    /// The first line whose event isn't allowed, counted from 1.
    NotAllowed { line: u64 },
    /// The source failed.
    Failed,
}

impl ReplayOutcome {
    /// Reads the schedule from a source that gives so many bytes a call and fails in these calls,
    /// and replays it.
    pub fn of(
        alloc: Global,
        text: &[u8],
        piece: u64,
        failing: &[u64],
    ) -> Result<ReplayOutcome, AllocError>
        requires { 0 < piece }
        ensures { IfOk result (IsOutcome text.now) }
    {
        let mut source = source_of(alloc, text, piece, failing)?;
        let schedule = match read_schedule(alloc, &mut source) {
            Ok(schedule) => schedule,
            Err(ScheduleRefusal::Text { line }) => return Ok(ReplayOutcome::Refused { line }),
            Err(ScheduleRefusal::Read) => return Ok(ReplayOutcome::Failed),
            Err(ScheduleRefusal::Memory) => return Err(AllocError),
        };
        match replay(alloc, &schedule) {
            Ok(text) => Ok(ReplayOutcome::Replayed { text }),
            Err(ReplayRefusal::NotAllowed { line }) => Ok(ReplayOutcome::NotAllowed { line }),
            Err(ReplayRefusal::Memory) => Err(AllocError),
        }
    }

    /// The outcome as a text: that of the replay, or one line.
    pub fn told(self, alloc: Global) -> Result<Vec<u8>, AllocError> {
        let line = match self {
            ReplayOutcome::Replayed { text } => return Ok(text),
            ReplayOutcome::Refused { line } => format!(in alloc; "line {line}: refused\n")?,
            ReplayOutcome::NotAllowed { line } => format!(in alloc; "line {line}: not allowed\n")?,
            ReplayOutcome::Failed => String::from_str(alloc, "read fault\n")?,
        };
        Ok(line.into_bytes())
    }
}

// A source of a text.
fn source_of(
    alloc: Global,
    text: &[u8],
    piece: u64,
    failing: &[u64],
) -> Result<MemSource, AllocError>
    requires { 0 < piece }
    ensures { IfOk result (λ s. s.left ≡ text.now) }
{
    let bytes = Vec::from_slice(alloc, text)?;
    Ok(MemSource::new(bytes, piece, Vec::from_slice(alloc, failing)?))
}
