// How answers of a store are told: as in reports, with what a receipt has beside its place.
use crate::entry_words::tell_behind;
use advance::AdvanceRefusal;
use caller::SyncRefusal;
use job_text::Outcome;
use mont_base::{CallRefusal, Epoch, PairList, Receipt};
use std::alloc::{AllocError, Global};

/// Tells a receipt: `at UNIT PLACE EPOCH = REPLY`, and after that the pairs of a range.
pub fn tell_receipt(
    told: &mut String,
    alloc: Global,
    receipt: &Receipt,
    pairs: &PairList,
) -> Result<(), AllocError> {
    let Receipt { unit, place, entry } = receipt;
    write!(told, "at {unit} {place} {} = ", entry.epoch)?;
    tell_behind(told, alloc, " = ", entry, pairs)
}

/// Tells why an operation was refused: as in a report, which has no word for want of memory.
pub fn tell_refusal(told: &mut String, refusal: CallRefusal) -> Result<(), AllocError> {
    let outcome = match refusal {
        CallRefusal::Halted { unit, by } => Outcome::Halted { unit, by },
        CallRefusal::CountEnd { which } => Outcome::CountEnd { which },
        CallRefusal::Full { need, free, clock } => Outcome::Full { need, free, clock },
        CallRefusal::Cut { unit } => Outcome::CutIn { unit },
        CallRefusal::Memory => return told.push_str("memory"),
    };
    write!(told, "{outcome}")
}

/// Tells what a tick was answered. `notyet UNIT EPOCH` is an epoch that a unit still announces, and
/// `cut` after that says that its caller was cut.
pub fn tell_tick(
    told: &mut String,
    answer: Result<Epoch, AdvanceRefusal>,
) -> Result<(), AllocError> {
    let outcome = match answer {
        Ok(epoch) => Outcome::Ticked { epoch },
        Err(AdvanceRefusal::Cut) => Outcome::Cut,
        Err(AdvanceRefusal::ClockEnd) => Outcome::ClockEnd,
        Err(AdvanceRefusal::NotYet { unit, epoch, cut }) => {
            write!(told, "notyet {unit} {epoch}")?;
            return told.push_str(if cut { " cut" } else { "" });
        }
    };
    write!(told, "{outcome}")
}

/// Tells what a sync was answered.
pub fn tell_sync(told: &mut String, answer: Result<Epoch, SyncRefusal>) -> Result<(), AllocError> {
    let outcome = match answer {
        Ok(epoch) => Outcome::Synced { epoch },
        Err(SyncRefusal::Stuck { unit, epoch }) => Outcome::Stuck { unit, epoch },
        Err(SyncRefusal::Cut) => Outcome::Cut,
        Err(SyncRefusal::ClockEnd) => Outcome::ClockEnd,
    };
    write!(told, "{outcome}")
}
