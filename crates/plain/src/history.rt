// What a history of a unit leads to, and whether it is legal.
ghost use Rattle.std.specs.Prelude.{◌≡◌, ◌↔◌, IsTrue, IfOk};
ghost use Rattle.mont_base.specs.History.{state_after, cut_at, IsLegal};
ghost use Rattle.plain.specs.Continues.{ContinuesHistory};
ghost use Rattle.plain.specs.States.{state_of};

use crate::unit_state::UnitState;
use mont_base::{Entry, Epoch, LAST, Layout, Reply, Unit};
use std::alloc::{AllocError, Global};

/// The state that the operations of a history lead to from another.
pub fn state_after(base: UnitState, entries: &[Entry]) -> Result<UnitState, AllocError>
    ensures { IfOk result (λ s. state_of s ≡ state_after (state_of base) entries.now) }
{
    let mut state = base;
    for entry in entries {
        let _ = state.apply(&entry.op)?;
    }
    Ok(state)
}

/// The entries whose epoch is at most the given one.
pub fn cut_at(alloc: Global, epoch: Epoch, entries: &[Entry]) -> Result<Vec<Entry>, AllocError>
    ensures { IfOk result (λ v. v.items ≡ cut_at epoch entries.now) }
{
    entries
        .iter()
        .filter(|entry| entry.epoch <= epoch)
        .copied()
        .collect(alloc)
}

/// Whether a history of a unit is legal from a state at a clock: each operation is the unit's and
/// has the reply that the structure gives, and the epochs begin at the clock or later, never fall
/// and stay in range.
pub fn is_legal(
    layout: Layout,
    unit: Unit,
    base: UnitState,
    clock: Epoch,
    entries: &[Entry],
) -> Result<bool, AllocError>
    ensures { IfOk result (λ b. IsTrue b ↔ IsLegal layout unit (state_of base) clock entries.now) }
{
    let mut state = base;
    let mut newest = clock;
    for entry in entries {
        let reply = state.apply(&entry.op)?;
        if !continues_history(&layout, unit, newest, reply, entry) {
            return Ok(false);
        }
        newest = entry.epoch;
    }
    Ok(true)
}

// Whether an entry may come next, where the structure gives this reply and the newest epoch is
// this one.
fn continues_history(
    layout: &Layout,
    unit: Unit,
    newest: Epoch,
    reply: Reply,
    entry: &Entry,
) -> bool
    ensures { IsTrue result ↔ ContinuesHistory layout.now unit newest reply entry.now }
{
    entry.op.unit(*layout) == Some(unit)
        && entry.reply == reply
        && newest <= entry.epoch
        && entry.epoch <= LAST
}
