// Whether the text of a report is faithful to the text of a job.
ghost use Rattle.std.specs.Prelude.{◌≡◌, IfOk};
ghost use Rattle.job_text.specs.JobText.{job_text};
ghost use Rattle.job_text.specs.PlainReport.{report_of};
ghost use Rattle.job_text.specs.ReportText.{report_text};
ghost use Rattle.text_cases.specs.Judged.{IsJudged, IsJudgedBy, IsJudgedOn};

use crate::job_outcome::source_of;
use crate::records::records_in;
use case_file::{Case, Unanswered};
use job_text::{Job, JobRefusal, Report, ReportRefusal, read_job, read_report};
use mont_base::{Held, Sequence};
use mont_check::is_faithful;
use std::alloc::Global;

/// Whether a report is faithful to a job. The store was opened as the right report tells, and with
/// the records of the part `records`.
pub fn answer_judged(
    alloc: Global,
    case: &Case,
    job: &[u8],
    right: &[u8],
    report: &[u8],
) -> Result<Vec<u8>, Unanswered> {
    let records = records_in(alloc, case)?;
    let told: &[u8] = if judged(alloc, job, right, report, records.as_slice())? {
        b"faithful\n"
    } else {
        b"not faithful\n"
    };
    Ok(told.to_vec(alloc)?)
}

/// Whether a report is faithful to a job on a store that was opened as the right report tells, with
/// these records of each unit.
pub fn judged(
    alloc: Global,
    job: &[u8],
    right: &[u8],
    report: &[u8],
    records: &[Sequence<Held>],
) -> Result<bool, Unanswered>
    ensures { IfOk result (λ b. IsJudged job.now right.now report.now records.now b) }
{
    let asked = job_of(alloc, job)?;
    judged_by(alloc, &asked, right, report, records)
}

// The same of a job that was read.
fn judged_by(
    alloc: Global,
    asked: &Job,
    right: &[u8],
    report: &[u8],
    records: &[Sequence<Held>],
) -> Result<bool, Unanswered>
    ensures { IfOk result (λ b. IsJudgedBy asked.now right.now report.now records.now b) }
{
    let opened = report_in(alloc, "report", right)?;
    judged_on(alloc, asked, &opened, report, records)
}

// The same of a right report that was read too.
fn judged_on(
    alloc: Global,
    asked: &Job,
    opened: &Report,
    report: &[u8],
    records: &[Sequence<Held>],
) -> Result<bool, Unanswered>
    ensures { IfOk result (λ b.
        IsJudgedOn asked.now (report_of opened.now) report.now records.now b) }
{
    let given = report_in(alloc, "other lines", report)?;
    let (clock, base) = (opened.base_clock, &opened.base);
    Ok(is_faithful(alloc, asked, clock, base, records, &given)?)
}

// The job that a text spells.
fn job_of(alloc: Global, text: &[u8]) -> Result<Job, Unanswered>
    ensures { IfOk result (λ j. text.now ≡ job_text j) }
{
    let mut source = source_of(alloc, text, 4096, &[])?;
    match read_job(alloc, &mut source) {
        Ok(job) => Ok(job),
        Err(JobRefusal::Memory) => Err(Unanswered::Memory),
        Err(_) => Err(Unanswered::Unclear { head: "job" }),
    }
}

/// The report that the text of a part spells.
pub fn report_in(alloc: Global, head: &'static str, text: &[u8]) -> Result<Report, Unanswered>
    ensures { IfOk result (λ r. text.now ≡ report_text (report_of r)) }
{
    match read_report(alloc, text) {
        Ok(report) => Ok(report),
        Err(ReportRefusal::Memory) => Err(Unanswered::Memory),
        Err(ReportRefusal::Text { .. }) => Err(Unanswered::Unclear { head }),
    }
}
