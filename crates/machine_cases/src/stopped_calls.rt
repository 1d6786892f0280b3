// Calls on a heap that are stopped before each of their steps.
use crate::call_lines::{is_made, play};
use crate::engine_ends::{begin_with, stop};
use crate::line_fault::LineFault;
use crate::machine_run::Memories;
use mont_base::{Fuel, Layout, Words};
use std::alloc::Global;
use std::sync::Wait;

// No call that is counted takes more steps.
const MOST_STEPS: u64 = 10_000;

/// The first number of steps after which the calls leave other words than these, or aren't at
/// their end as these are.
pub fn first_apart<R: Wait>(
    rt: &R,
    alloc: Global,
    layout: Layout,
    calls: &str,
    memories: &[Memories],
) -> Result<Option<u64>, LineFault> {
    let last = memories.len().saturating_sub(1);
    for (steps, memory) in memories.iter().enumerate() {
        let (words, ended) = words_after(rt, alloc, layout, calls, steps as u64)?;
        let same = words.cur.as_slice() == memory.current.as_slice()
            && words.dur.as_slice() == memory.durable.as_slice();
        if !same || ended != (steps == last) {
            return Ok(Some(steps as u64));
        }
    }
    Ok(None)
}

// The words of a heap that is stopped after so many steps, and whether the calls had ended.
fn words_after<R: Wait>(
    rt: &R,
    alloc: Global,
    layout: Layout,
    calls: &str,
    steps: u64,
) -> Result<(Words, bool), LineFault> {
    let mut engine = begin_with(alloc, layout, Fuel::new(steps))?;
    let ended = play(rt, alloc, &mut engine, calls)?;
    let (words, _) = stop(alloc, engine)?;
    Ok((words, ended))
}

/// How many steps a call takes after others: a gate that passes so many doesn't cut it, and one
/// that passes one less does.
pub fn steps_of<R: Wait>(
    rt: &R,
    alloc: Global,
    layout: Layout,
    calls: &str,
    counted: &str,
) -> Result<u64, LineFault> {
    let left = left_behind(rt, alloc, layout, calls, counted, MOST_STEPS)?;
    let steps = MOST_STEPS.saturating_sub(left.ok_or(LineFault::Cut)?);
    let less = steps.saturating_sub(1);
    if left_behind(rt, alloc, layout, calls, counted, steps)? != Some(0)
        || left_behind(rt, alloc, layout, calls, counted, less)?.is_some()
    {
        return Err(LineFault::Unclear);
    }
    Ok(steps)
}

// How many steps a gate still passes after the call, if it doesn't cut it.
fn left_behind<R: Wait>(
    rt: &R,
    alloc: Global,
    layout: Layout,
    calls: &str,
    counted: &str,
    steps: u64,
) -> Result<Option<u64>, LineFault> {
    let mut engine = begin_with(alloc, layout, Fuel::endless())?;
    if !play(rt, alloc, &mut engine, calls)? {
        return Err(LineFault::Cut);
    }
    engine.pass.gate = Fuel::new(steps);
    if is_made(rt, alloc, &mut engine, counted)? {
        Ok(engine.pass.gate.left)
    } else {
        Ok(None)
    }
}
