// The lines that tell the histories of a store, as in reports.
use crate::entry_words::tell_behind;
use crate::plain_units::{copies, plain_pairs};
use mont_base::Entry;
use plain::UnitState;
use std::alloc::{AllocError, Global};
use store_stop::Stopped;

/// Tells the histories, unit by unit and entry by entry.
pub fn tell_histories(
    told: &mut String,
    alloc: Global,
    stopped: &Stopped,
) -> Result<(), AllocError> {
    let mut units = copies(alloc, &stopped.base)?;
    let histories = stopped.histories.as_slice().iter();
    for (unit, (state, history)) in units.iter_mut().zip(histories).enumerate() {
        tell_history(told, alloc, unit, state, history.as_slice())?;
    }
    Ok(())
}

// Tells a history that goes on from a state.
fn tell_history(
    told: &mut String,
    alloc: Global,
    unit: usize,
    state: &mut UnitState,
    history: &[Entry],
) -> Result<(), AllocError> {
    writeln!(told, "unit {unit} {}", history.len())?;
    for (place, entry) in history.iter().enumerate() {
        write!(told, "{place} ")?;
        tell_behind(told, alloc, "\n0 ", entry, &plain_pairs(state, &entry.op))?;
        writeln!(told)?;
        state.apply(&entry.op)?;
    }
    Ok(())
}
