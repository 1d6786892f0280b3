// The histories that the receipts of all callers tell.
ghost use Rattle.std.specs.Prelude.{◌≡◌, List, length, IfOk, OnOk};
ghost use Rattle.mont_base.specs.declared.operation.Entry.{Entry};
ghost use Rattle.store_stop.specs.ToldHistories.{TellsHistory, TellAll, Fills, IsPut};

use mont_base::{Entry, Receipt, Sequence, Unit};
use std::alloc::{AllocError, Global};
use std::slice;

// The histories of so many units.
pub(crate) fn told_histories(
    alloc: Global,
    units: u64,
    receipts: &[Sequence<Receipt>],
) -> Result<Sequence<Sequence<Entry>>, AllocError>
    ensures { IfOk result (λ told. (histories : List (List Entry)) → length histories ≡ units
        → TellAll receipts.now histories → told ≡ histories) }
{
    let mut histories = Sequence::new(alloc);
    for unit in 0..units {
        histories.push(told_history(alloc, unit, receipts)?)?;
    }
    Ok(histories)
}

// The history of a unit.
fn told_history(
    alloc: Global,
    unit: Unit,
    receipts: &[Sequence<Receipt>],
) -> Result<Sequence<Entry>, AllocError>
    ensures { IfOk result (λ told. (h : List Entry) → TellsHistory receipts.now unit h → told ≡ h) }
{
    let mut history = Vec::new(alloc);
    for of_caller in receipts {
        place_entries(&mut history, unit, of_caller.as_slice())?;
    }
    Ok(Sequence::from_vec(history))
}

// Puts the entries of a caller's receipts at their places.
fn place_entries(
    history: &mut Vec<Entry>,
    unit: Unit,
    receipts: &[Receipt],
) -> Result<(), AllocError>
    ensures { OnOk result (Fills unit receipts.now history.old.items history.new.items) }
{
    for receipt in receipts {
        if receipt.unit == unit {
            place_entry(history, receipt)?;
        }
    }
    Ok(())
}

// Puts an entry at its place. Where nothing was put yet below it, it stands there for now. Most
// entries come in their order, and stand after the others.
fn place_entry(history: &mut Vec<Entry>, receipt: &Receipt) -> Result<(), AllocError>
    ensures { OnOk result (IsPut receipt.now history.old.items history.new.items) }
{
    let place = receipt.place as usize;
    let entry = slice::from_ref(&receipt.entry);
    if history.len() == place {
        return history.extend_from_slice(entry);
    }
    while history.len() <= place {
        history.extend_from_slice(entry)?;
    }
    history[place] = receipt.entry;
    Ok(())
}
