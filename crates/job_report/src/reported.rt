// The report of a run.
ghost use Rattle.std.specs.Prelude.{◌≡◌, IfOk, List, ℕ};
ghost use Rattle.plain.specs.States.{states_of};
ghost use Rattle.heap_rule.specs.declared.rule.Opening.{Opening};
ghost use Rattle.heap.specs.HeapShown.{CallerShown};
ghost use Rattle.job_text.specs.Faithful.{IsFaithful};
ghost use Rattle.job_text.specs.PlainReport.{report_of};
ghost use Rattle.caller.specs.Continued.{opened_records};
ghost use Rattle.job_report.specs.FoundRuns.{AreRuns};
ghost use Rattle.job_report.specs.Reported.{WasRun, report_made};

use crate::found_runs::all_runs;
use job_text::{Job, Outcome, Report};
use mont_base::{Epoch, Sequence};
use plain::Contents;
use std::alloc::{AllocError, Global};
use store_stop::Stopped;

/// The report of a job that was run on a store which was then stopped, with the clock of an image
/// and what recovery rebuilds from it.
///
/// Whoever shows that the job was run, that the store was stopped and that its words permit the
/// image has a faithful report.
pub fn make_report(
    alloc: Global,
    job: &Job,
    stopped: Stopped,
    outcomes: Sequence<Sequence<Outcome>>,
    image_clock: Epoch,
    contents: Contents,
) -> Result<Report, AllocError>
    ensures made { IfOk result (λ report. report_of report
        ≡ report_made job.now stopped report.runs outcomes image_clock (states_of contents)) }
    ensures runs { IfOk result (λ report.
        AreRuns (states_of stopped.base) stopped.histories report.runs) }
    ensures faithful { IfOk result (λ report.
        (o : Opening) (callers : List CallerShown) (image : List ℕ)
        → WasRun job.now o callers outcomes stopped image image_clock (states_of contents)
        → IsFaithful job.now stopped.base_clock (states_of stopped.base) (opened_records o)
        (report_of report)) }
{
    let runs = all_runs(alloc, &stopped.base, stopped.histories.as_slice())?;
    let Stopped {
        words: _,
        base_clock,
        base,
        histories,
    } = stopped;
    Ok(Report {
        layout: job.layout,
        callers: job.callers,
        base_clock,
        base,
        histories,
        runs,
        outcomes,
        image_clock,
        contents,
    })
}
