// Whether the outcomes of a report answer the lines of its job.
ghost use Rattle.std.specs.Prelude.{◌≡◌, ◌↔◌, ◌≤◌, ℕ, length, IsTrue, IfOk};
ghost use Rattle.job_text.specs.Report.{lines_of};
ghost use Rattle.job_text.specs.Faithful.{AnsweredAt};
ghost use Rattle.job_text.specs.PlainReport.{report_of};
ghost use Rattle.mont_check.specs.AnsweredCallers.{AreCounted, TellsCaller, TellsLines};
ghost use Rattle.mont_check.specs.CutUnits.{AllCutsLast};
ghost use Rattle.mont_check.specs.Questions.{AllRise};

use crate::ahead::places_ahead;
use crate::cut_units::all_cuts_last;
use crate::line_answers::answers;
use crate::moments::Question;
use crate::progress::Progress;
use crate::questions::are_met;
use crate::shown::is_cut;
use job_text::{Job, Line, Outcome, Report};
use mont_base::{Held, Sequence};
use std::alloc::{AllocError, Global};

/// Whether the outcomes of each caller answer the caller's lines. What has to be asked of moments
/// is asked after all else, once for each unit.
pub fn are_answered(
    alloc: Global,
    job: &Job,
    records: &[Sequence<Held>],
    report: &Report,
) -> Result<bool, AllocError>
    requires { AllRise (report_of report.now) }
    ensures { IfOk result (λ b. IsTrue b
        ↔ ((caller : ℕ) → AnsweredAt job.now records.now (report_of report.now) caller)) }
{
    if !all_cuts_last(report) {
        return Ok(false);
    }
    let mut questions = Vec::new(alloc);
    for caller in 0..report.outcomes.len() {
        if !is_answered(alloc, job, report, caller, &mut questions)? {
            return Ok(false);
        }
    }
    let met = are_met(alloc, report, records, questions.as_slice())?;
    Ok(met)
}

// Whether the outcomes of a caller answer the caller's lines, if the answer is yes to the questions
// that it adds.
fn is_answered(
    alloc: Global,
    job: &Job,
    report: &Report,
    caller: u64,
    questions: &mut Vec<Question>,
) -> Result<bool, AllocError>
    requires { AllCutsLast (report_of report.now) }
    ensures { IfOk result (TellsCaller job.now (report_of report.now) caller questions.old.items
        questions.new.items) }
{
    let Some(outcomes) = report.outcomes.get(caller) else {
        return Ok(true);
    };
    let lines = lines_of(alloc, job, caller)?;
    let (lines, outcomes) = (lines.as_slice(), outcomes.as_slice());
    if !are_counted(lines, outcomes) {
        return Ok(false);
    }
    let told = answer_in_order(alloc, job, report, lines, outcomes, questions)?;
    Ok(told)
}

// The lines of one caller, in their order.
fn lines_of(alloc: Global, job: &Job, caller: u64) -> Result<Vec<Line>, AllocError>
    ensures { IfOk result (λ v. v.items ≡ lines_of job.now caller) }
{
    job.lines
        .as_slice()
        .iter()
        .filter(|line| line.caller == caller)
        .copied()
        .collect(alloc)
}

// Whether there is an outcome for each line, or the caller was cut.
fn are_counted(lines: &[Line], outcomes: &[Outcome]) -> bool
    ensures { IsTrue result ↔ AreCounted lines.now outcomes.now }
{
    outcomes.len() <= lines.len()
        && (outcomes.len() == lines.len() || outcomes.iter().any(|outcome| is_cut(outcome)))
}

// Whether each outcome answers its line and may stand after those before it, if the answer is yes
// to the questions that it adds.
fn answer_in_order(
    alloc: Global,
    job: &Job,
    report: &Report,
    lines: &[Line],
    outcomes: &[Outcome],
    questions: &mut Vec<Question>,
) -> Result<bool, AllocError>
    requires few { length outcomes.now ≤ length lines.now }
    requires cuts_last { AllCutsLast (report_of report.now) }
    ensures { IfOk result (TellsLines job.now (report_of report.now) lines.now outcomes.now
        questions.old.items questions.new.items) }
{
    let ahead = places_ahead(alloc, report.layout, lines, outcomes)?;
    let ahead = ahead.as_slice();
    let mut progress = Progress::new(alloc);
    for at in 0..outcomes.len() {
        let outcome = &outcomes[at];
        if !progress.allows(report, outcome) {
            return Ok(false);
        }
        let found = answers(job, report, &lines[at], &progress, outcome, ahead[at]);
        if found.is_wrong() {
            return Ok(false);
        }
        found.ask(questions)?;
        progress.note(report, outcome)?;
    }
    Ok(true)
}
