// The lines below the lanes: of each unit what it held before the run and what recovery finds, and
// last what was answered, kept and lost.
use crate::kept_calls::all_calls;
use crate::label_spelling::Word;
use crate::lanes::unit_name;
use job_text::Report;
use mont_base::Epoch;
use plain::{Contents, UnitState};
use std::alloc::{AllocError, Global};

// How many things of a unit are shown at most.
const MOST_SHOWN: u64 = 12;

/// The lines below the lanes.
pub fn lines_of(alloc: Global, report: &Report) -> Result<Vec<String>, AllocError> {
    let mut lines = Vec::new(alloc);
    for unit in 0..report.layout.kinds().as_slice().len() {
        let mut line = unit_name(alloc, report, unit)?;
        line.push_str("   before:")?;
        push_held(&mut line, &report.base, unit as u64)?;
        line.push_str("   recovered:")?;
        push_held(&mut line, &report.contents, unit as u64)?;
        lines.push(line)?;
    }
    lines.push(last_line(alloc, report)?)?;
    Ok(lines)
}

// What a unit holds, as far as it is shown.
fn push_held(line: &mut String, contents: &Contents, unit: u64) -> Result<(), AllocError> {
    match contents.units.get(unit) {
        Some(UnitState::Map { state } | UnitState::Ordered { state }) => {
            let mut shown = 0;
            for (key, value) in state.iter() {
                if shown < MOST_SHOWN {
                    write!(line, " {}={}", Word(*key), Word(*value))?;
                }
                shown = u64::saturating_add(shown, 1);
            }
            push_rest(line, state.len())
        }
        Some(UnitState::Queue { state }) => {
            let mut shown = 0;
            for item in state.items() {
                if shown < MOST_SHOWN {
                    write!(line, " {item}")?;
                }
                shown = u64::saturating_add(shown, 1);
            }
            push_rest(line, state.len())
        }
        Some(UnitState::Graph { state }) => {
            let vertices = state.vertices_len();
            let edges = state.edges_len();
            write!(line, " {vertices} vertices, {edges} edges")
        }
        None => Ok(()),
    }
}

// How many things aren't shown; that there is none.
fn push_rest(line: &mut String, count: u64) -> Result<(), AllocError> {
    if count == 0 {
        return line.push_str(" empty");
    }
    if count > MOST_SHOWN {
        let more = count - MOST_SHOWN;
        write!(line, " and {more} more")?;
    }
    Ok(())
}

// What was answered, kept and lost.
fn last_line(alloc: Global, report: &Report) -> Result<String, AllocError> {
    let (answered, kept) = all_calls(alloc, report)?;
    let lost = answered.saturating_sub(kept);
    let clock = report.image_clock;
    let before = clock.saturating_sub(1);
    let mut line = format!(in alloc; "{answered} calls answered, {kept} kept, ")?;
    write!(line, "{lost} lost with epochs {before} and {clock}")?;
    Ok(line)
}
