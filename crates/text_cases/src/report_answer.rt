// What is told of the text of a report.
use crate::report_outcome::ReportOutcome;
use case_file::{Case, Unanswered};
use job_text::{Report, write_contents};
use report_drawing::{Picture, terminal};
use std::alloc::{AllocError, Global};

/// Whether the text is read back, or the line that is refused. A part `show` asks for the text of
/// the contents that the report ends with, for its entries and outcomes one by one, or for its
/// picture as lines for a terminal.
pub fn answer_report(alloc: Global, case: &Case, text: &[u8]) -> Result<Vec<u8>, Unanswered> {
    let outcome = ReportOutcome::of(alloc, text)?;
    told_of(alloc, case, &outcome)
}

fn told_of(alloc: Global, case: &Case, outcome: &ReportOutcome) -> Result<Vec<u8>, Unanswered> {
    match outcome {
        ReportOutcome::Read { report, same: true } => answer_read(alloc, case, report),
        ReportOutcome::Read { .. } => Ok(b"a report whose text is another\n".to_vec(alloc)?),
        ReportOutcome::Refused { line } => Ok(format!(in alloc; "line {line}\n")?.into_bytes()),
    }
}

fn answer_read(alloc: Global, case: &Case, report: &Report) -> Result<Vec<u8>, Unanswered> {
    match case.part("show") {
        None => Ok(b"read back\n".to_vec(alloc)?),
        Some(b"contents\n") => {
            let (layout, clock) = (report.layout, report.image_clock);
            Ok(write_contents(alloc, layout, clock, &report.contents)?)
        }
        Some(b"entries\n") => Ok(entries_of(alloc, report)?),
        Some(b"picture\n") => Ok(picture_of(alloc, report)?),
        Some(_) => Err(Unanswered::Unclear { head: "show" }),
    }
}

// The picture of the report as lines.
fn picture_of(alloc: Global, report: &Report) -> Result<Vec<u8>, AllocError> {
    let picture = Picture::of_report(alloc, report)?;
    Ok(terminal::drawn(alloc, &picture)?.into_bytes())
}

// The entries of all units and the outcomes of all callers, one a line, by the names of their
// variants and fields.
fn entries_of(alloc: Global, report: &Report) -> Result<Vec<u8>, AllocError> {
    let mut shown = String::new(alloc);
    for history in report.histories.as_slice() {
        for entry in history.as_slice() {
            writeln!(shown, "{entry:?}")?;
        }
    }
    for outcomes in report.outcomes.as_slice() {
        for outcome in outcomes.as_slice() {
            writeln!(shown, "{outcome:?}")?;
        }
    }
    Ok(shown.into_bytes())
}
