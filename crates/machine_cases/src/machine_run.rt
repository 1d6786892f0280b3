// A run of the abstract machine, and what is told of it.
use crate::line_fault::LineFault;
use core_run::{StepRefusal, step};
use core_steps::{Core, Event, Note};
use mont_base::Layout;
use std::alloc::{AllocError, Global};

/// The current and the durable words.
#[derive(Drop)]
pub struct Memories {
    pub current: Vec<u64>,
    pub durable: Vec<u64>,
}

/// A core, the note that was split off last, both memories at the beginning and after each step,
/// and what is told.
#[derive(Drop)]
pub struct Run {
    pub core: Core,
    pub note: Option<Note>,
    pub memories: Vec<Memories>,
    pub told: String,
}

/// A run of an empty store with so many callers.
pub fn begin(alloc: Global, layout: Layout, callers: u64) -> Result<Run, AllocError> {
    let mut run = Run {
        core: Core::fresh(alloc, layout, callers)?,
        note: None,
        memories: Vec::new(alloc),
        told: String::new(alloc),
    };
    keep_memories(alloc, &mut run)?;
    Ok(run)
}

fn keep_memories(alloc: Global, run: &mut Run) -> Result<(), AllocError> {
    let current = run.core.cur.as_slice().to_vec(alloc)?;
    let durable = run.core.dur.as_slice().to_vec(alloc)?;
    run.memories.push(Memories { current, durable })?;
    Ok(())
}

/// How many steps were made.
pub fn steps_made(run: &Run) -> u64 {
    (run.memories.len() as u64).saturating_sub(1)
}

/// Makes a step, if it is allowed.
pub fn make(alloc: Global, run: &mut Run, event: &Event) -> Result<(), LineFault> {
    match step(alloc, &mut run.core, event) {
        Ok(()) => Ok(keep_memories(alloc, run)?),
        Err(StepRefusal::NotAllowed) => Err(LineFault::NotAllowed),
        Err(StepRefusal::Memory) => Err(LineFault::Memory),
    }
}
