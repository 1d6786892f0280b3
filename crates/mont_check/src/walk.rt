// A walk along a unit's history: what its first entries lead to and did.
ghost use Rattle.std.specs.Prelude.{◌≡◌, ◌+◌, ◌^◌, ◌≤◌, IfOk, MatchResult, OnOk, count_by, sum_by};
ghost use Rattle.mont_base.specs.Counting.{is_enq, is_insertion};
ghost use Rattle.mont_base.specs.Room.{retires};
ghost use Rattle.plain.specs.States.{state_of};
ghost use Rattle.mont_check.specs.Walk.{facts_of, is_removal, is_replacement, more_facts, no_facts};

use crate::last_numbers::is_insertion;
use mont_base::{Effect, Entry, Op};
use plain::UnitState;
use std::alloc::{AllocError, Global};

/// The state of a unit after its first entries, and the sums of what these did.
#[derive(Debug, Drop)]
pub struct Walk {
    pub state: UnitState,
    pub entries: u64,
    /// The slots that they retired, closed or not.
    pub retired: u64,
    /// The things that they inserted.
    pub inserted: u64,
    /// All things that they inserted, replaced or removed.
    pub changed: u64,
    /// The items that they added to a queue.
    pub enqueued: u64,
}

impl Walk {
    /// The walk before the first entry.
    pub fn new(base: &UnitState) -> Result<Walk, AllocError>
        ensures { IfOk result (λ w. facts_of w ≡ no_facts (state_of base.now)) }
    {
        let state = copied(base)?;
        Ok(Walk {
            state,
            entries: 0,
            retired: 0,
            inserted: 0,
            changed: 0,
            enqueued: 0,
        })
    }

    /// Passes an entry. A sum above `u64::MAX`, for which no memory has room, is want of memory
    /// too.
    pub fn pass(&mut self, alloc: Global, entry: &Entry) -> Result<(), AllocError>
        ensures { OnOk result (facts_of self.new ≡ more_facts 0 (facts_of self.old) entry.now) }
    {
        let effects = self.state.effects(alloc, &entry.op)?;
        self.entries = sum(self.entries, 1)?;
        self.retired = sum(self.retired, retired_by(effects.as_slice())?)?;
        self.inserted = sum(self.inserted, inserted_by(effects.as_slice()))?;
        self.changed = sum(self.changed, effects.len() as u64)?;
        if is_enq(&entry.op) {
            self.enqueued = sum(self.enqueued, 1)?;
        }
        let _ = self.state.apply(&entry.op)?;
        Ok(())
    }
}

/// The same state, kept apart.
pub fn copied(state: &UnitState) -> Result<UnitState, AllocError>
    ensures { IfOk result (λ copy. state_of copy ≡ state_of state.now) }
{
    state.clone()
}

// How many slots the effects retire: a version each, and an anti-payload for each removal.
fn retired_by(effects: &[Effect]) -> Result<u64, AllocError>
    ensures { MatchResult result (λ n. n ≡ sum_by retires effects.now)
        (λ _. 2 ^ 64 ≤ sum_by retires effects.now) }
{
    let removed = removed_by(effects);
    let both = sum(removed, removed)?;
    let retired = sum(replaced_by(effects), both)?;
    Ok(retired)
}

fn replaced_by(effects: &[Effect]) -> u64
    ensures { result ≡ count_by is_replacement effects.now }
{
    effects
        .iter()
        .filter(|effect| is_replacement(effect))
        .count() as u64
}

fn removed_by(effects: &[Effect]) -> u64
    ensures { result ≡ count_by is_removal effects.now }
{
    effects.iter().filter(|effect| is_removal(effect)).count() as u64
}

// How many things the effects insert.
fn inserted_by(effects: &[Effect]) -> u64
    ensures { result ≡ count_by is_insertion effects.now }
{
    effects.iter().filter(|effect| is_insertion(effect)).count() as u64
}

fn is_replacement(effect: &Effect) -> bool
    ensures { result ≡ is_replacement effect.now }
{
    matches!(effect, Effect::Replaces { .. })
}

fn is_removal(effect: &Effect) -> bool
    ensures { result ≡ is_removal effect.now }
{
    matches!(effect, Effect::Removes { .. })
}

/// Whether an operation adds an item to a queue.
pub fn is_enq(op: &Op) -> bool
    ensures { result ≡ is_enq op.now }
{
    matches!(op, Op::Enq { .. })
}

/// A sum that there is room for.
pub fn sum(a: u64, b: u64) -> Result<u64, AllocError>
    ensures { MatchResult result (λ n. n ≡ a + b) (λ _. 2 ^ 64 ≤ a + b) }
{
    a.checked_add(b).ok_or(AllocError)
}
