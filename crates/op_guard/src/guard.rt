// An operation under way, and why none was begun.
ghost use Rattle.std.specs.Prelude.{◌≡◌};
ghost use Rattle.op_guard.specs.declared.guard.GuardRefusal.TheVariants as refusals;

use mont_base::{Cut, Epoch, Unit};

/// An operation under way in a unit that is registered. It is spent by `commit` or `abandon`, and
/// after a cut of `change` by being taken apart.
pub struct Guard {
    pub unit: Unit,
    /// The caller's number.
    pub by: u64,
    pub epoch: Epoch,
    /// How many slots the operation needs.
    pub need: u64,
    /// How many of them are written.
    pub written: u64,
}

/// Why no operation was begun.
#[derive(Clone, Copy, Debug, PartialEq, Eq)]
pub enum GuardRefusal {
    /// So few slots are free, once all is closed that this durable clock lets be closed.
    Full { need: u64, free: u64, clock: Epoch },
    /// The gate cut.
    Cut,
}

/// Why no operation was begun at an epoch.
#[derive(Clone, Copy, Debug, PartialEq, Eq)]
pub enum AtRefusal {
    /// The clock showed another epoch.
    Moved { clock: Epoch },
    /// The gate cut.
    Cut,
}

impl From<Cut> for GuardRefusal {
    ghost from_gives = { λ _ e. e ≡ refusals.Cut };

    fn from(_cut: Cut) -> GuardRefusal {
        GuardRefusal::Cut
    }
}
