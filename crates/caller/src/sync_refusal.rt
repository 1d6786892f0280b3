// Why what a caller has seen did not become durable.
ghost use Rattle.std.specs.Prelude.{◌≡◌, ℕ, false, IfNone, IfSome};
ghost use Rattle.advance.specs.declared.advance_refusal.AdvanceRefusal.TheVariants.{NotYet};
ghost use Rattle.caller.specs.declared.sync_refusal.SyncRefusal.TheVariants as refusals;

use advance::AdvanceRefusal;
use mont_base::{Cut, Epoch, Unit};

/// Why a sync was refused.
#[derive(Clone, Copy, Debug, PartialEq, Eq)]
pub enum SyncRefusal {
    /// A caller was cut in the unit, which announces an epoch below the clock for good.
    Stuck { unit: Unit, epoch: Epoch },
    /// The gate cut.
    Cut,
    /// The clock is the last one.
    ClockEnd,
}

impl From<Cut> for SyncRefusal {
    ghost from_gives = { λ _ e. e ≡ refusals.Cut };

    fn from(_cut: Cut) -> SyncRefusal {
        SyncRefusal::Cut
    }
}

impl SyncRefusal {
    ghost use Rattle.caller.specs.Syncing.{refusal_of_advance};

    // Why nobody can go on, where an advance was refused. A unit in which no caller was cut is only
    // waited for.
    pub(crate) fn of(refusal: AdvanceRefusal) -> Option<SyncRefusal>
        ensures lasts { IfSome result (λ why. refusal ≡ refusal_of_advance why) }
        ensures waits { IfNone result ((unit : ℕ) × (epoch : ℕ)
            × (refusal ≡ NotYet unit epoch false)) }
    {
        match refusal {
            AdvanceRefusal::NotYet { cut: false, .. } => None,
            AdvanceRefusal::NotYet { unit, epoch, .. } => Some(SyncRefusal::Stuck { unit, epoch }),
            AdvanceRefusal::Cut => Some(SyncRefusal::Cut),
            AdvanceRefusal::ClockEnd => Some(SyncRefusal::ClockEnd),
        }
    }
}
