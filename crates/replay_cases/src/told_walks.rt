// What a replay is to tell of a walk: a line for each core on its way, and at last the states of
// the histories, cut two epochs before the clock of either memory.
use core_answer::core_words::{clock, durable_clock, word};
use core_steps::{Core, UnitStage};
use job_text::write_units;
use mont_base::Epoch;
use plain::Contents;
use std::alloc::{AllocError, Global};

/// Writes the line after an event.
pub fn tell_core(text: &mut String, number: u64, core: &Core) -> Result<(), AllocError> {
    let (now, durable) = (clock(core), durable_clock(core));
    write!(text, "{number} {now} {durable}")?;
    for (unit, part) in core.units.as_slice().iter().enumerate() {
        let stage = match part.stage {
            UnitStage::Idle => 'i',
            UnitStage::Told { .. } => 't',
            UnitStage::Within { .. } => 'w',
            UnitStage::Closing { .. } => 'c',
        };
        let announced = word(&core.told, unit as u64);
        write!(text, " {announced} {stage}")?;
    }
    text.push('\n')
}

/// Writes what stands after all lines.
pub fn tell_memories(alloc: Global, text: &mut String, core: &Core) -> Result<(), AllocError> {
    text.push_str("durable\n")?;
    tell_cut(alloc, text, core, durable_clock(core))?;
    text.push_str("current\n")?;
    tell_cut(alloc, text, core, clock(core))?;
    text.push_str("end\n")
}

// The state of each unit after the entries up to two epochs before a clock.
fn tell_cut(alloc: Global, text: &mut String, core: &Core, clock: Epoch) -> Result<(), AllocError> {
    let mut states = Contents::empty(alloc, core.layout)?.units;
    for (unit, part) in core.units.as_slice().iter().enumerate() {
        for entry in part.history.as_slice() {
            if entry.epoch.saturating_add(2) <= clock && (unit as u64) < states.len() {
                states.item_mut(unit as u64).apply(&entry.op)?;
            }
        }
    }
    write_units(text, &core.layout.kinds(), states.as_slice())
}
