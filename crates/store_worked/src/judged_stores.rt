// What callers leave of a store is judged by plain structures.
use crate::threaded_callers::Caller;
use mont_base::{Entry, Epoch, Sequence};
use mont_image::Image;
use plain::{Contents, UnitState, View, cut_at, is_callers_order, is_legal, state_after};
use std::alloc::{AllocError, Global};
use std::test::Fail;
use store_stop::Stopped;

// The callers were answered as they may be; the histories are legal from what the store held when
// it was opened, and tell each answer once, in its caller's order.
pub(crate) fn judge(alloc: Global, stopped: &Stopped, callers: &[Caller]) -> Result<(), Fail> {
    if !are_well(callers) {
        return Err(Fail::new("an answer that may not come"));
    }
    if !are_legal(stopped)? {
        return Err(Fail::new("a history isn't legal"));
    }
    if !are_answers(alloc, stopped, callers)? {
        return Err(Fail::new("answers aren't told each once, in their order"));
    }
    Ok(())
}

// Whether nothing came that may never come, or that may come only where some caller was cut.
fn are_well(callers: &[Caller]) -> bool {
    let is_some_cut = callers.iter().any(|caller| caller.cut);
    callers
        .iter()
        .all(|caller| caller.well && (is_some_cut || !caller.refused))
}

// Whether each history is legal from what its unit held when the store was opened.
fn are_legal(stopped: &Stopped) -> Result<bool, AllocError> {
    let (layout, clock) = (stopped.words.layout, stopped.base_clock);
    let (bases, histories) = (stopped.base.units.as_slice(), stopped.histories.as_slice());
    let mut are_legal = bases.len() as u64 == layout.units() && bases.len() == histories.len();
    for (unit, (base, history)) in bases.iter().zip(histories).enumerate() {
        let base: &UnitState = base;
        let history = history.as_slice();
        are_legal = is_legal(layout, unit as u64, base.clone()?, clock, history)? && are_legal;
    }
    Ok(are_legal)
}

// Whether the histories tell each answer at its place once, each caller's in their order.
fn are_answers(alloc: Global, stopped: &Stopped, callers: &[Caller]) -> Result<bool, AllocError> {
    let histories = stopped.histories.as_slice();
    let mut answers = Vec::new(alloc);
    let mut views = Vec::new(alloc);
    for caller in callers {
        let of_caller = Vec::from_slice(alloc, caller.answered.as_slice())?;
        answers.push(Sequence::from_vec(of_caller))?;
        views.push(nothing_seen(alloc, histories.len())?)?;
    }
    Ok(is_callers_order(histories, answers.as_slice(), views.as_slice()))
}

// What a caller had seen of so many units when the store was opened.
fn nothing_seen(alloc: Global, units: usize) -> Result<View, AllocError> {
    let fronts = Sequence::from_vec(vec![in alloc; 0; units]?);
    Ok(View { fronts, newest: 0 })
}

// What an image has to hold: of each history what stands two epochs before its clock or earlier,
// from what the store held when it was opened.
pub(crate) fn expected(
    alloc: Global,
    stopped: &Stopped,
    image: &Image,
) -> Result<Contents, AllocError> {
    let cut = image.clock().saturating_sub(2);
    let mut units = Sequence::new(alloc);
    let histories = stopped.histories.as_slice().iter();
    for (base, history) in stopped.base.units.as_slice().iter().zip(histories) {
        units.push(kept(alloc, cut, base, history.as_slice())?)?;
    }
    Ok(Contents { units })
}

// What the entries of a history up to an epoch make of what the unit held before.
fn kept(
    alloc: Global,
    cut: Epoch,
    base: &UnitState,
    history: &[Entry],
) -> Result<UnitState, AllocError> {
    let entries = cut_at(alloc, cut, history)?;
    state_after(base.clone()?, entries.as_slice())
}
