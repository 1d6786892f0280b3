// The first outcome of a report that doesn't name its entry rightly, and as the first.
ghost use Rattle.std.specs.Prelude.{◌≡◌, ◌+◌, ◌<◌, None, Ok, IfOk, length, take};
ghost use Rattle.job_text.specs.Outcomes.{times_named};
ghost use Rattle.job_text.specs.PlainReport.{report_of};
ghost use Rattle.report_check.specs.HeldOutcomes.{OutcomeHolds};
ghost use Rattle.report_check.specs.Lowest.{IsFirst, IsFirstPair};
ghost use Rattle.report_check.specs.Marks.{AreMarks};

use crate::marks::{Marks, is_marked, mark};
use crate::shown_names::ShownNames;
use job_text::{Outcome, Report};
use std::alloc::{AllocError, Global};

/// The caller and the line of the first outcome that doesn't hold. Where there is none, each entry
/// that is named has its mark.
pub fn failing_outcome(
    alloc: Global,
    report: &Report,
    marks: &mut Marks,
) -> Result<Option<(u64, u64)>, AllocError>
    requires { AreMarks report.now.histories (λ unit place. 0) marks.old }
    ensures outcomes { IfOk result (IsFirstPair (OutcomeHolds (report_of report.now))) }
    ensures marks { result ≡ Ok None
        → AreMarks report.now.histories (times_named report.now.outcomes) marks.new }
{
    for caller in 0..report.outcomes.len() {
        if let Some(line) = failing_line(alloc, report, caller, marks)? {
            return Ok(Some((caller, line)));
        }
    }
    Ok(None)
}

// The line of a caller's first outcome that doesn't hold.
fn failing_line(
    alloc: Global,
    report: &Report,
    caller: u64,
    marks: &mut Marks,
) -> Result<Option<u64>, AllocError>
    requires caller { caller < length report.now.outcomes }
    requires marks { AreMarks report.now.histories
        (times_named (take caller report.now.outcomes)) marks.old }
    ensures outcomes { IfOk result (IsFirst (OutcomeHolds (report_of report.now) caller)) }
    ensures marks { result ≡ Ok None → AreMarks report.now.histories
        (times_named (take (caller + 1) report.now.outcomes)) marks.new }
{
    let Some(of_caller) = report.outcomes.get(caller) else {
        return Ok(None);
    };
    let outcomes = of_caller.as_slice();
    let mut shown = ShownNames::new(alloc, report)?;
    for (line, outcome) in outcomes.iter().enumerate() {
        if let Outcome::At { unit, place } = *outcome {
            let Some(entry) = shown.next_entry(report, caller, unit, place) else {
                return Ok(Some(line as u64));
            };
            if is_marked(marks, unit, place) {
                return Ok(Some(line as u64));
            }
            shown.add(entry.epoch, unit, place);
            mark(marks, unit, place);
        }
    }
    Ok(None)
}
