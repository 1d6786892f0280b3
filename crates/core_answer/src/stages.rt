// How far a unit is.
ghost use Rattle.std.specs.Prelude.{◌≡◌};
ghost use Rattle.core_steps.specs.Stages.{is_idle, is_told, is_within, epoch_of, is_unfrozen};

use core_steps::{UnitPart, UnitStage};
use mont_base::Epoch;

/// Nothing is announced, and no slot is being closed.
pub fn is_idle(stage: UnitStage) -> bool
    ensures { result ≡ is_idle stage }
{
    matches!(stage, UnitStage::Idle)
}

/// An epoch is announced, and the unit isn't registered in it yet.
pub fn is_told(stage: UnitStage) -> bool
    ensures { result ≡ is_told stage }
{
    matches!(stage, UnitStage::Told { .. })
}

/// The unit is registered in the announced epoch.
pub fn is_within(stage: UnitStage) -> bool
    ensures { result ≡ is_within stage }
{
    matches!(stage, UnitStage::Within { .. })
}

/// The announced epoch, and 0 where none is.
pub fn epoch_of(stage: UnitStage) -> Epoch
    ensures { result ≡ epoch_of stage }
{
    match stage {
        UnitStage::Told { epoch } | UnitStage::Within { epoch } => epoch,
        UnitStage::Idle | UnitStage::Closing { .. } => 0,
    }
}

/// No caller was cut in the unit.
pub fn is_unfrozen(part: &UnitPart) -> bool
    ensures { result ≡ is_unfrozen part.now }
{
    part.frozen.is_none()
}
