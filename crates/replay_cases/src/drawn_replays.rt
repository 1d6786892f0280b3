// Drawn schedules and their replays: a case tells how they are drawn, and how many.
use crate::told_walks::{tell_core, tell_memories};
use crate::walks::Walk;
use case_file::{Case, Unanswered, numbers_in};
use mont_base::{Kinds, Layout};
use replay::{ReplayRefusal, replay};
use std::alloc::{AllocError, Global};

const DRAWN: &str = "drawn";

const UNCLEAR: Unanswered = Unanswered::Unclear { head: DRAWN };

/// The answer to a case with the parts `kinds` and `drawn`, the second of which has the slots of
/// each unit, the callers, how many events are drawn, the first seed, and how many seeds. It tells
/// of how many schedules the replay is as wanted, and the first seed of which it isn't.
pub fn drawn_answer(alloc: Global, case: &Case, drawn: &[u8]) -> Result<Vec<u8>, Unanswered> {
    let kinds = case.needed("kinds")?;
    let numbers = numbers_in(alloc, DRAWN, drawn)?;
    told_drawn(alloc, kinds.strip_suffix(b"\n").unwrap_or(kinds), &numbers)
}

fn told_drawn(alloc: Global, kinds: &[u8], numbers: &[u64]) -> Result<Vec<u8>, Unanswered> {
    let ([slots, callers, most, first, many], Ok(kinds)) = (numbers, Kinds::of_letters(kinds))
    else {
        return Err(UNCLEAR);
    };
    let Ok(layout) = Layout::new(kinds, *slots) else {
        return Err(UNCLEAR);
    };
    let mut as_wanted = 0_u64;
    for seed in *first..first.saturating_add(*many) {
        if !is_as_wanted(alloc, layout, *callers, *most, seed)? {
            return Ok(format!(in alloc; "seed {seed} isn't as wanted\n")?.into_bytes());
        }
        as_wanted = as_wanted.saturating_add(1);
    }
    Ok(format!(in alloc; "{as_wanted} as wanted\n")?.into_bytes())
}

fn is_as_wanted(
    alloc: Global,
    layout: Layout,
    callers: u64,
    most: u64,
    seed: u64,
) -> Result<bool, AllocError> {
    let mut walk = Walk::begin(alloc, layout, callers, seed)?;
    is_replayed(alloc, &mut walk, most)
}

// Whether the replay of a drawn schedule is told as its walk, or refused at the event that the
// machine didn't allow.
fn is_replayed(alloc: Global, walk: &mut Walk, most: u64) -> Result<bool, AllocError> {
    let mut wanted = String::new(alloc);
    let refused = walk_on(alloc, walk, most, &mut wanted)?;
    let last = walk.schedule.events.len().saturating_add(1);
    match replay(alloc, &walk.schedule) {
        Ok(text) => Ok(!refused && text.as_slice() == wanted.as_bytes()),
        Err(ReplayRefusal::NotAllowed { line }) => Ok(refused && line == last),
        Err(ReplayRefusal::Memory) => Err(AllocError),
    }
}

// Draws so many events and tells what they lead to. It answers whether the last was refused.
fn walk_on(
    alloc: Global,
    walk: &mut Walk,
    most: u64,
    told: &mut String,
) -> Result<bool, AllocError> {
    for _ in 0..most {
        let before = walk.schedule.events.len();
        if !walk.go_on(alloc)? {
            return Ok(true);
        }
        let events = walk.schedule.events.len();
        if events > before {
            tell_core(told, events, &walk.core)?;
        }
    }
    tell_memories(alloc, told, &walk.core)?;
    Ok(false)
}
