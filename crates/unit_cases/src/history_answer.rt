// What is told of the histories of a report.
use crate::case_rows::{is_shown, numbers_of};
use crate::entry_shown::tell_entries;
use crate::history_told::{CutTold, copied, cut_told, is_legal_at, report_in, used_at};
use case_file::{Case, Unanswered};
use job_text::Report;
use mont_base::{Epoch, Unit};
use std::alloc::Global;

/// Of the history of each unit whether it is legal, how many slots are in use at each clock of the
/// part `clocks`, and whether the contents that the report tells are those of its cut. A part
/// `show` asks for a line on each entry.
pub fn tell_text(
    answer: &mut String,
    alloc: Global,
    case: &Case,
    text: &[u8],
) -> Result<(), Unanswered> {
    let report = report_in(alloc, text)?;
    tell_histories(answer, alloc, case, &report)
}

fn tell_histories(
    answer: &mut String,
    alloc: Global,
    case: &Case,
    report: &Report,
) -> Result<(), Unanswered> {
    let clocks = numbers_of(alloc, case, "clocks")?;
    for unit in 0..report.layout.units() {
        tell_unit(answer, alloc, report, unit, &clocks)?;
        if is_shown(case, "entries") {
            show_entries(answer, alloc, report, unit)?;
        }
    }
    Ok(())
}

fn tell_unit(
    answer: &mut String,
    alloc: Global,
    report: &Report,
    unit: Unit,
    clocks: &[Epoch],
) -> Result<(), Unanswered> {
    let legal = if is_legal_at(report, unit)? {
        "legal"
    } else {
        "not legal"
    };
    let CutTold { entries, same } = cut_told(alloc, report, unit)?;
    let cut = if same {
        "leads to the image"
    } else {
        "leads elsewhere"
    };
    writeln!(answer, "unit {unit}: {legal}, its cut of {entries} {cut}")?;
    for clock in clocks {
        let used = used_at(alloc, report, unit, *clock)?;
        writeln!(answer, "{used} slots in use at {clock}")?;
    }
    Ok(())
}

fn show_entries(
    answer: &mut String,
    alloc: Global,
    report: &Report,
    unit: Unit,
) -> Result<(), Unanswered> {
    let Some(state) = report.base.units.get(unit) else {
        return Err(Unanswered::Unclear { head: "report" });
    };
    let mut state = copied(state)?;
    Ok(tell_entries(answer, alloc, report, unit, &mut state)?)
}
