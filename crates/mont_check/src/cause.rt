// What may have kept a call from being answered, at some moment of its unit's history.
ghost use Rattle.std.specs.Prelude.{◌≡◌, ◌+◌, ◌^◌, ◌≤◌, IfOk, IfSome, MatchResult};
ghost use Rattle.mont_base.specs.State.{size_of};
ghost use Rattle.mont_check.specs.JudgedCauses.{FreesAtMost, TellsEnd, TellsHeld, clock_of_cause, is_del_v, room_in};
ghost use Rattle.mont_check.specs.Walk.{closed_later, facts_of};

use crate::last_numbers::{any_lacks_version, is_insertion, reaches_last};
use crate::opened_numbers::Opening;
use crate::walk::{Walk, is_enq, sum};
use mont_base::{Effect, Epoch, LAST, Op, Which};
use std::alloc::{AllocError, Global};

/// What may have held at the moment of a call.
#[derive(Clone, Copy, Debug, PartialEq, Eq)]
pub enum Cause {
    /// The operation needed so many slots, and fewer were free at this durable clock.
    LacksRoom { need: u64, free: u64, clock: Epoch },
    /// It needed more slots than were free at this durable clock.
    NeedsMore { clock: Epoch },
    /// The number was at its end, where the caller had made so many calls.
    AtEnd { which: Which, calls: u64 },
}

/// An operation on a unit of so many slots, and what may have kept it from being answered.
#[derive(Clone, Copy, Debug, PartialEq, Eq)]
pub struct Case {
    pub op: Op,
    pub slots: u64,
    pub cause: Cause,
}

impl Case {
    /// The durable clock that the cause speaks of, and else any.
    pub fn clock(&self) -> Epoch
        ensures { result ≡ clock_of_cause self.now.cause }
    {
        match self.cause {
            Cause::LacksRoom { clock, .. } | Cause::NeedsMore { clock } => clock,
            Cause::AtEnd { .. } => 0,
        }
    }

    /// Whether the cause held after the entries that a walk has passed, in a unit that was opened
    /// so, at a clock at which so many of the slots that they retired are closed.
    pub fn holds(
        &self,
        alloc: Global,
        opening: &Opening,
        walk: &Walk,
        closed: u64,
    ) -> Result<bool, AllocError>
        ensures { IfOk result (TellsHeld self.now opening.now
            (closed_later closed (facts_of walk.now))) }
    {
        let effects = walk.state.effects(alloc, &self.op)?;
        let effects = effects.as_slice();
        let needed = effects.len() as u64;
        match self.cause {
            Cause::LacksRoom { need, free, .. } => {
                let room = self.room(walk, closed)?;
                Ok(needed == need && room == free && free < need)
            }
            Cause::NeedsMore { .. } => Ok(self.room(walk, closed)? < needed),
            Cause::AtEnd { which, calls } => {
                Ok(self.is_at_end(which, calls, opening, walk, effects))
            }
        }
    }

    // The slots that were free.
    fn room(&self, walk: &Walk, closed: u64) -> Result<u64, AllocError>
        ensures { let f = closed_later closed (facts_of walk.now) in
            MatchResult result (λ n. n ≡ room_in self.now.slots f)
            (λ _. 2 ^ 64 ≤ size_of f.state + f.waiting) }
    {
        let waiting = walk.retired.saturating_sub(closed);
        let used = sum(walk.state.size(), waiting)?;
        Ok(self.slots.saturating_sub(used))
    }

    // Whether the number was at its end, where the caller had made so many calls and the operation
    // would have done this.
    fn is_at_end(
        &self,
        which: Which,
        calls: u64,
        opening: &Opening,
        walk: &Walk,
        effects: &[Effect],
    ) -> bool
        ensures { TellsEnd which calls self.now.op opening.now (facts_of walk.now) effects.now
            result }
    {
        match which {
            Which::Call => calls > LAST,
            Which::Place => walk.entries > LAST,
            Which::Identity => {
                effects.iter().any(|effect| is_insertion(effect))
                    && reaches_last(opening.identity, walk.inserted)
            }
            Which::Version => {
                any_lacks_version(opening.objects.as_slice(), walk.changed, effects)
            }
            Which::Serial => is_enq(&self.op) && reaches_last(opening.serial, walk.enqueued),
        }
    }

    /// The most slots that may have been free where the cause held, if it speaks of room.
    pub fn most_free(&self) -> Option<u64>
        ensures { IfSome result (FreesAtMost self.now) }
    {
        match self.cause {
            Cause::LacksRoom { free, .. } => Some(free),
            Cause::NeedsMore { .. } if !is_del_v(&self.op) => Some(0),
            Cause::NeedsMore { .. } | Cause::AtEnd { .. } => None,
        }
    }
}

// Whether an operation deletes a vertex, which is the only one that changes several things.
fn is_del_v(op: &Op) -> bool
    ensures { result ≡ is_del_v op.now }
{
    matches!(op, Op::DelV { .. })
}
