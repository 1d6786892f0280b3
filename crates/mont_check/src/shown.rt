// What an outcome of a report shows.
ghost use Rattle.std.specs.Prelude.{◌≡◌, MatchOption};
ghost use Rattle.mont_base.specs.declared.operation.Entry.{Entry};
ghost use Rattle.mont_base.specs.Seen.{IsEntryAt};
ghost use Rattle.job_text.specs.Outcomes.{clock_of, is_at, is_cut, place_of, settled_of, tick_of};
ghost use Rattle.mont_check.specs.Shown.{epoch_in};

use job_text::{Outcome, Report};
use mont_base::{Entry, Epoch, Unit};

/// The unit and the place of the entry that an outcome names.
pub fn place_of(outcome: &Outcome) -> Option<(Unit, u64)>
    ensures { result ≡ place_of outcome.now }
{
    match outcome {
        Outcome::At { unit, place } => Some((*unit, *place)),
        _ => None,
    }
}

/// Whether an outcome names an entry.
pub fn is_at(outcome: &Outcome) -> bool
    ensures { result ≡ is_at outcome.now }
{
    matches!(outcome, Outcome::At { .. })
}

/// Whether the caller was cut.
pub fn is_cut(outcome: &Outcome) -> bool
    ensures { result ≡ is_cut outcome.now }
{
    matches!(outcome, Outcome::CutIn { .. } | Outcome::Cut)
}

/// The clock that a sync or a tick was answered with.
pub fn clock_of(outcome: &Outcome) -> Option<Epoch>
    ensures { result ≡ clock_of outcome.now }
{
    match outcome {
        Outcome::Synced { epoch } | Outcome::Ticked { epoch } => Some(*epoch),
        _ => None,
    }
}

/// The clock to which a tick moved.
pub fn tick_of(outcome: &Outcome) -> Option<Epoch>
    ensures { result ≡ tick_of outcome.now }
{
    match outcome {
        Outcome::Ticked { epoch } => Some(*epoch),
        _ => None,
    }
}

/// A durable clock that came after all that the caller had done.
pub fn settled_of(outcome: &Outcome) -> Option<Epoch>
    ensures { result ≡ settled_of outcome.now }
{
    match outcome {
        Outcome::Synced { epoch } => Some(*epoch),
        Outcome::Full { clock, .. } => Some(*clock),
        _ => None,
    }
}

/// The entry at a place of a unit's history.
pub fn entry_at(report: &Report, unit: Unit, place: u64) -> Option<&Entry>
    ensures { MatchOption result
        ((e : Entry) → ¬ IsEntryAt report.now.histories unit place e)
        (λ entry. IsEntryAt report.now.histories unit place entry.now) }
{
    match report.histories.get(unit) {
        Some(history) => history.get(place),
        None => None,
    }
}

/// The epoch of the entry that an outcome names.
pub fn epoch_of(report: &Report, outcome: &Outcome) -> Option<Epoch>
    ensures { result ≡ epoch_in report.now.histories outcome.now }
{
    match outcome {
        Outcome::At { unit, place } => match entry_at(report, *unit, *place) {
            Some(entry) => Some(entry.epoch),
            None => None,
        },
        _ => None,
    }
}
