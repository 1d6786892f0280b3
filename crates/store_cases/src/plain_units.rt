// The plain structures beside a store, to which the operations are applied that it answers.
use mont_base::{MOST_PAIRS, Op, PairList, Receipt};
use plain::{Contents, UnitState};
use std::alloc::{AllocError, Global};

/// The states of the units, unit by unit.
pub fn copies(alloc: Global, contents: &Contents) -> Result<Vec<UnitState>, AllocError> {
    let mut units = Vec::new(alloc);
    for state in contents.units.as_slice() {
        units.push(state.clone()?)?;
    }
    Ok(units)
}

/// Applies the operation that was answered. Whether the reply is the plain one, and so are the
/// pairs of a range.
pub fn agrees(
    units: &mut [UnitState],
    receipt: &Receipt,
    pairs: &PairList,
) -> Result<bool, AllocError> {
    let Some(state) = units.get_mut(receipt.unit as usize) else {
        return Ok(false);
    };
    let same = plain_pairs(state, &receipt.entry.op).as_slice() == pairs.as_slice();
    let reply = state.apply(&receipt.entry.op)?;
    Ok(same && reply == receipt.entry.reply)
}

/// The pairs of a range, of which other operations have none.
pub fn plain_pairs(state: &UnitState, op: &Op) -> PairList {
    let mut pairs = PairList::empty();
    if let (UnitState::Ordered { state }, Op::ORange { from, to, most, .. }) = (state, op) {
        state.range(from, to, (*most).min(MOST_PAIRS as u64), &mut pairs);
    }
    pairs
}
