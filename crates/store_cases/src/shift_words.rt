// How refusals of shifts are told.
use crate::told_calls::{tell_receipt, tell_refusal};
use job_text::{Deed, Outcome};
use mont_base::{CallRefusal, Op, PairList, Receipt, Text, Unit};
use std::alloc::{AllocError, Global};
use store::ShiftRefusal;

/// Tells why a shift was refused. A cut after the first of its two entries tells that one too.
pub fn tell_shift_refusal(
    told: &mut String,
    alloc: Global,
    refusal: ShiftRefusal,
) -> Result<(), AllocError> {
    match refusal {
        ShiftRefusal::Missing { key } => tell_missing(told, alloc, key),
        ShiftRefusal::Cut { unit, first } => tell_cut(told, alloc, unit, &first),
        ShiftRefusal::SameUnit { unit } => write!(told, "sameunit {unit}"),
        ShiftRefusal::Short { have } => write!(told, "short {have}"),
        ShiftRefusal::Over { have } => write!(told, "over {have}"),
        _ => tell_other(told, refusal),
    }
}

// Tells which key is missing, as the deed spells it that gets it.
fn tell_missing(told: &mut String, alloc: Global, key: Text) -> Result<(), AllocError> {
    let op = Op::Get { key };
    let deed = format!(in alloc; "{}", Deed::Call { op })?;
    let word = deed.as_str().strip_prefix("get").unwrap_or("");
    write!(told, "missing{word}")
}

// Tells a cut, and the entry that was added before it.
fn tell_cut(
    told: &mut String,
    alloc: Global,
    unit: Unit,
    first: &Option<Receipt>,
) -> Result<(), AllocError> {
    write!(told, "{}", Outcome::CutIn { unit })?;
    if let Some(receipt) = first {
        write!(told, " after ")?;
        tell_receipt(told, alloc, receipt, &PairList::empty())?;
    }
    Ok(())
}

// Tells a refusal that an operation may meet too.
fn tell_other(told: &mut String, refusal: ShiftRefusal) -> Result<(), AllocError> {
    let refusal = match refusal {
        ShiftRefusal::Halted { unit, by } => CallRefusal::Halted { unit, by },
        ShiftRefusal::CountEnd { which } => CallRefusal::CountEnd { which },
        ShiftRefusal::Full {
            unit,
            need,
            free,
            clock,
        } => {
            write!(told, "unit {unit} ")?;
            CallRefusal::Full { need, free, clock }
        }
        _ => CallRefusal::Memory,
    };
    tell_refusal(told, refusal)
}
