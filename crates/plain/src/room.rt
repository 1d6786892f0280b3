// How many slots of a unit are in use, told from its history alone.
ghost use Rattle.std.specs.Prelude.{◌≡◌, ◌≢◌, ◌+◌, ◌^◌, ◌≤◌, nat_lt, IfOk, OnOk, OnErr, [], sum_by, if◌then◌else◌};
ghost use Rattle.mont_base.specs.State.{step};
ghost use Rattle.mont_base.specs.Room.{retires, used_slots};
ghost use Rattle.plain.specs.Changes.{SomeChanges};
ghost use Rattle.plain.specs.States.{state_of};

use crate::unit_state::UnitState;
use mont_base::{Effect, Entry, Epoch, Op};
use std::alloc::{AllocError, Global};

/// How many slots are in use after a history from a state, where what was retired up to two epochs
/// before the clock is closed. A count above `u64::MAX`, for which no memory has room, is want of
/// memory too. There is none where no operation changes anything.
pub fn used_slots(
    alloc: Global,
    base: UnitState,
    entries: &[Entry],
    clock: Epoch,
) -> Result<u64, AllocError>
    ensures count { IfOk result (λ n. n ≡ used_slots (state_of base) entries.now clock) }
    ensures memory { OnErr result (SomeChanges (state_of base) entries.now) }
{
    let mut state = base;
    let mut retired = 0;
    for entry in entries {
        retired = sum(retired, retired_late(alloc, &state, entry, clock)?)?;
        let _ = state.apply(&entry.op)?;
    }
    sum(state.size(), retired)
}

// Whether what was retired with this epoch isn't closed yet.
fn is_late(epoch: Epoch, clock: Epoch) -> bool
    ensures { result ≡ nat_lt clock (epoch + 2) }
{
    clock < 2 || clock - 2 < epoch
}

// How many slots an entry retires that aren't closed yet.
fn retired_late(
    alloc: Global,
    state: &UnitState,
    entry: &Entry,
    clock: Epoch,
) -> Result<u64, AllocError>
    ensures count { IfOk result (λ n. n ≡ (if nat_lt clock (entry.now.epoch + 2)
        then sum_by retires (step (state_of state.now) entry.now.op).effects else 0)) }
    ensures memory { OnErr result ((step (state_of state.now) entry.now.op).effects ≢ []) }
{
    if is_late(entry.epoch, clock) {
        retired_by(alloc, state, &entry.op)
    } else {
        Ok(0)
    }
}

// How many slots an operation retires.
fn retired_by(alloc: Global, state: &UnitState, op: &Op) -> Result<u64, AllocError>
    ensures count { IfOk result
        (λ n. n ≡ sum_by retires (step (state_of state.now) op.now).effects) }
    ensures memory { OnErr result ((step (state_of state.now) op.now).effects ≢ []) }
{
    let mut retired = 0;
    for effect in &state.effects(alloc, op)? {
        retired = sum(retired, retired_for(effect))?;
    }
    Ok(retired)
}

// How many slots an effect retires.
fn retired_for(effect: &Effect) -> u64
    ensures { result ≡ retires effect.now }
{
    match effect {
        Effect::Inserts { .. } => 0,
        Effect::Replaces { .. } => 1,
        Effect::Removes { .. } => 2,
    }
}

// A sum that there is room for.
fn sum(a: u64, b: u64) -> Result<u64, AllocError>
    ensures sum { IfOk result (λ n. n ≡ a + b) }
    ensures memory { OnErr result (2 ^ 64 ≤ a + b) }
{
    a.checked_add(b).ok_or(AllocError)
}
