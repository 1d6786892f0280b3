// Whether an image that a heap left holds the cut of what its caller was told.
use crate::line_fault::LineFault;
use mont_base::{Epoch, Layout, Receipt};
use plain::{Contents, is_well_formed, recover, same_state};
use std::alloc::{AllocError, Global};

/// Tells how many of the caller's calls are within the cut of an image, and whether recovery from
/// it gives what these came to.
pub fn tell_cut(
    told: &mut String,
    alloc: Global,
    layout: Layout,
    image: &[u64],
    receipts: &[Receipt],
) -> Result<(), LineFault> {
    let clock = image.first().copied().unwrap_or(0);
    let last = clock.saturating_sub(2);
    let mut wanted = Contents::empty(alloc, layout)?;
    let within = apply_within(&mut wanted, receipts, last)?;
    let all = receipts.len();
    write!(told, "clock {clock}, {within} of {all} calls are")?;
    if !is_recovered(alloc, layout, image, &wanted)? {
        told.push_str("n't")?;
    }
    Ok(told.push_str(" held\n")?)
}

// Makes the calls up to an epoch, and answers how many they are.
fn apply_within(
    states: &mut Contents,
    receipts: &[Receipt],
    last: Epoch,
) -> Result<u64, AllocError> {
    let mut within = 0u64;
    for receipt in receipts {
        if receipt.entry.epoch <= last && receipt.unit < states.units.len() {
            states
                .units
                .item_mut(receipt.unit)
                .apply(&receipt.entry.op)?;
            within = within.saturating_add(1);
        }
    }
    Ok(within)
}

fn is_recovered(
    alloc: Global,
    layout: Layout,
    image: &[u64],
    wanted: &Contents,
) -> Result<bool, AllocError> {
    if !is_well_formed(alloc, layout, image)? {
        return Ok(false);
    }
    let found = recover(alloc, layout, image)?;
    let mut states = found.units.as_slice().iter().zip(wanted.units.as_slice());
    Ok(states.all(|(one, other)| same_state(one, other)))
}
