// What comes of an answer.
ghost use Rattle.std.specs.Prelude.{◌≡◌};
ghost use Rattle.job_text.specs.Outcomes.{is_cut as ends_lines};
ghost use Rattle.job_worker.specs.Ending.{outcome_of_call, outcome_of_sync, was_full};

use caller::SyncRefusal;
use job_text::Outcome;
use mont_base::{CallRefusal, Receipt};
use std::alloc::AllocError;

// The outcome of a call line, by the call's answer. Want of memory is none.
pub fn call_outcome(answer: Result<Receipt, CallRefusal>) -> Result<Outcome, AllocError>
    ensures { result ≡ outcome_of_call answer }
{
    match answer {
        Ok(receipt) => Ok(Outcome::At {
            unit: receipt.unit,
            place: receipt.place,
        }),
        Err(CallRefusal::Halted { unit, by }) => Ok(Outcome::Halted { unit, by }),
        Err(CallRefusal::CountEnd { which }) => Ok(Outcome::CountEnd { which }),
        Err(CallRefusal::Memory) => Err(AllocError),
        Err(CallRefusal::Full { need, free, clock }) => Ok(Outcome::Full { need, free, clock }),
        Err(CallRefusal::Cut { unit }) => Ok(Outcome::CutIn { unit }),
    }
}

// Whether there were too few slots.
pub fn is_full(answer: &Result<Receipt, CallRefusal>) -> bool
    ensures { result ≡ was_full answer.now }
{
    matches!(answer, Err(CallRefusal::Full { .. }))
}

// How a line ends of which a sync was refused.
pub fn unsynced(why: SyncRefusal) -> Outcome
    ensures { result ≡ outcome_of_sync why }
{
    match why {
        SyncRefusal::Stuck { unit, epoch } => Outcome::Stuck { unit, epoch },
        SyncRefusal::Cut => Outcome::Cut,
        SyncRefusal::ClockEnd => Outcome::ClockEnd,
    }
}

// Whether the caller was cut.
pub fn is_cut(outcome: &Outcome) -> bool
    ensures { result ≡ ends_lines outcome.now }
{
    matches!(outcome, Outcome::CutIn { .. } | Outcome::Cut)
}
