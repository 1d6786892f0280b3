// What came of the lines of a job.
ghost use Rattle.std.specs.Prelude.{◌≡◌};
ghost use Rattle.job_text.specs.ReportText.{count_word};

use mont_base::{Epoch, Unit, Which};
use std::fmt;

/// What came of a line of a job.
#[derive(Clone, Copy, Debug, PartialEq, Eq)]
pub enum Outcome {
    /// The operation was answered, and is the entry at this place of the unit's history.
    At { unit: Unit, place: u64 },
    /// All that the caller had seen is durable. The durable clock was this.
    Synced { epoch: Epoch },
    /// The clock moved to this epoch.
    Ticked { epoch: Epoch },
    /// The clock can't move any more, since a caller that was cut announced this epoch in the unit.
    Stuck { unit: Unit, epoch: Epoch },
    /// The clock stands at its last value.
    ClockEnd,
    /// The operation needs so many slots, and so many were free at this durable clock.
    Full { need: u64, free: u64, clock: Epoch },
    /// The operation would take this number above its last value.
    CountEnd { which: Which },
    /// This caller was cut in the unit, which answers nothing since.
    Halted { unit: Unit, by: u64 },
    /// The caller was cut in an operation on the unit.
    CutIn { unit: Unit },
    /// The caller was cut in a tick or a sync.
    Cut,
}

impl fmt::Display for Outcome {
    ghost use Rattle.std.specs.Prelude.{Some};
    ghost use Rattle.job_text.specs.Lines.{spaced};
    ghost use Rattle.job_text.specs.ReportText.{outcome_words};

    ghost output = { λ outcome. Some (spaced (outcome_words outcome)) };

    fn fmt<W: fmt::Write>(&self, f: &mut fmt::Formatter<W>) -> fmt::Result {
        match self {
            Outcome::At { unit, place } => write!(f, "at {unit} {place}"),
            Outcome::Synced { epoch } => write!(f, "synced {epoch}"),
            Outcome::Ticked { epoch } => write!(f, "ticked {epoch}"),
            Outcome::Stuck { unit, epoch } => write!(f, "stuck {unit} {epoch}"),
            Outcome::ClockEnd => write!(f, "clockend"),
            Outcome::Full { need, free, clock } => write!(f, "full {need} {free} {clock}"),
            Outcome::CountEnd { which } => {
                let count = count_name(*which);
                write!(f, "countend {count}")
            }
            Outcome::Halted { unit, by } => write!(f, "halted {unit} {by}"),
            Outcome::CutIn { unit } => write!(f, "cut {unit}"),
            Outcome::Cut => write!(f, "cut"),
        }
    }
}

/// How a number that ended is named.
fn count_name(which: Which) -> &'static str
    ensures { result.now ≡ count_word which }
{
    match which {
        Which::Call => "call",
        Which::Place => "place",
        Which::Identity => "identity",
        Which::Version => "version",
        Which::Serial => "serial",
    }
}
