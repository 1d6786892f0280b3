// Why a unit wasn't registered at an epoch.
ghost use Rattle.std.specs.Prelude.{◌≡◌};
ghost use Rattle.announce.specs.declared.register_refusal.RegisterRefusal.TheVariants as refusals;

use mont_base::{Cut, Epoch};

/// Why a unit wasn't registered at an epoch.
#[derive(Clone, Copy, Debug, PartialEq, Eq)]
pub enum RegisterRefusal {
    /// The clock showed another epoch.
    Moved { clock: Epoch },
    /// The gate cut.
    Cut,
}

impl From<Cut> for RegisterRefusal {
    ghost from_gives = { λ _ e. e ≡ refusals.Cut };

    fn from(_cut: Cut) -> RegisterRefusal {
        RegisterRefusal::Cut
    }
}
