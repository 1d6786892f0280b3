// How far an advance is, to the one who calls it.
ghost use Rattle.std.specs.Prelude.{◌≡◌, ◌<◌};

use mont_base::Unit;

/// How far an advance is.
#[derive(Clone, Copy, Debug, PartialEq, Eq)]
pub enum AdvStage {
    /// None is under way.
    Rest,
    /// It waits for this unit, and has passed those below.
    Checking { unit: Unit },
    /// It has passed all units, and writes back what they have listed.
    Flushing,
    /// All is written back.
    Ready,
    /// The clock has moved, but not yet durably.
    Clocked,
}

impl AdvStage {
    ghost use Rattle.advance.specs.Stage.{past_stage};

    // The stage once this one of so many units was passed.
    pub(crate) fn past(units: u64, unit: Unit) -> AdvStage
        requires { unit < units }
        ensures { result ≡ past_stage units unit }
    {
        if unit + 1 < units {
            AdvStage::Checking { unit: unit + 1 }
        } else {
            AdvStage::Flushing
        }
    }
}
