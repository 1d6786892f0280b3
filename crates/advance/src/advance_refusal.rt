// Why an advance does not come to its end.
ghost use Rattle.std.specs.Prelude.{◌≡◌};
ghost use Rattle.advance.specs.declared.advance_refusal.AdvanceRefusal.TheVariants.{Cut as WasCut};

use mont_base::{Cut, Epoch, Unit};

/// Why an advance was refused. It goes on at the next call.
#[derive(Clone, Copy, Debug, PartialEq, Eq)]
pub enum AdvanceRefusal {
    /// The unit announces an epoch below the clock. `cut` says whether a caller was cut in it.
    NotYet { unit: Unit, epoch: Epoch, cut: bool },
    /// The gate cut.
    Cut,
    /// The clock is the last one.
    ClockEnd,
}

impl From<Cut> for AdvanceRefusal {
    ghost from_gives = { λ _ e. e ≡ WasCut };

    fn from(_cut: Cut) -> AdvanceRefusal {
        AdvanceRefusal::Cut
    }
}
