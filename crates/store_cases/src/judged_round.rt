// Whether what a store left is as plain structures have it.
use crate::left_words::store_in;
use crate::script_fault::ScriptFault;
use mont_base::Epoch;
use plain::{Contents, UnitState, cut_at, is_legal, same_state, state_after};
use std::alloc::{AllocError, Global};
use std::thread::Threads;
use store_stop::Stopped;

// So many images are tried.
const IMAGES: u64 = 16;

/// Tells whether each history is legal, and each image that is tried holds their cut.
pub fn tell_judgement(
    told: &mut String,
    rt: &(impl Threads + Sync),
    alloc: Global,
    left: &Stopped,
) -> Result<(), ScriptFault> {
    if !are_legal(left)? {
        return Ok(writeln!(told, "judge: a history isn't legal")?);
    }
    match first_without(rt, alloc, left)? {
        Some(mask) => writeln!(told, "judge: the image of mask {mask:016x} holds no cut")?,
        None => writeln!(told, "judge: legal, and {IMAGES} images hold the cut")?,
    }
    Ok(())
}

// The first mask whose image doesn't hold the cut of the histories: none of the words, then all,
// then others.
fn first_without(
    rt: &(impl Threads + Sync),
    alloc: Global,
    left: &Stopped,
) -> Result<Option<u64>, ScriptFault> {
    let mut mask = 0u64;
    for at in 0..IMAGES {
        if !holds_cut(rt, alloc, left, mask)? {
            return Ok(Some(mask));
        }
        mask = if at == 0 {
            u64::MAX
        } else {
            mask.wrapping_mul(6_364_136_223_846_793_005)
                .wrapping_add(1_442_695_040_888_963_407)
        };
    }
    Ok(None)
}

// Whether each history is legal from what the store opened with.
fn are_legal(left: &Stopped) -> Result<bool, AllocError> {
    let (layout, clock) = (left.words.layout, left.base_clock);
    let histories = left.histories.as_slice().iter();
    for (unit, (base, history)) in left.base.units.as_slice().iter().zip(histories).enumerate() {
        let base: &UnitState = base;
        if !is_legal(
            layout,
            unit as u64,
            base.clone()?,
            clock,
            history.as_slice(),
        )? {
            return Ok(false);
        }
    }
    Ok(true)
}

// Whether recovery finds in the image of a mask what the entries up to two epochs before its clock
// come to.
fn holds_cut(
    rt: &(impl Threads + Sync),
    alloc: Global,
    left: &Stopped,
    mask: u64,
) -> Result<bool, ScriptFault> {
    let found = store_in(rt, alloc, &left.words, mask, 1)?;
    let cut = found.clock().saturating_sub(2);
    Ok(holds_states(alloc, left, found.contents(), cut)?)
}

fn holds_states(
    alloc: Global,
    left: &Stopped,
    contents: &Contents,
    cut: Epoch,
) -> Result<bool, AllocError> {
    let histories = left.histories.as_slice().iter();
    let bases = left.base.units.as_slice().iter();
    for ((base, history), found) in bases.zip(histories).zip(contents.units.as_slice()) {
        let base: &UnitState = base;
        let kept = cut_at(alloc, cut, history.as_slice())?;
        if !same_state(&state_after(base.clone()?, kept.as_slice())?, found) {
            return Ok(false);
        }
    }
    Ok(true)
}
