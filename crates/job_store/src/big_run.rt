// A run of the generated job, and its summary.
ghost use Rattle.std.specs.Prelude.{◌≡◌, map, IfOk, IfErr, OnOk};
ghost use Rattle.std.specs.FinMap as finite;
ghost use Rattle.big_job.specs.Generated.{generated_head, generated_job};
ghost use Rattle.job_store.specs.SyncedRun.{EndsSynced};
ghost use Rattle.job_store.specs.Base.{nothing};
ghost use Rattle.job_store.specs.WholeRun.{IsRunOn};
ghost use Rattle.job_text.specs.PlainReport.{report_of};
ghost use Rattle.store.specs.MapBoxes.{HaveEmptyBoxes, LacksBox};
ghost use Rattle.job_store.specs.BigRun.{IsBigSummary, IsSummaryOf};

use crate::counts::{count_answered, has_clock_end};
use crate::synced_run::{SyncedRun, run_synced};
use crate::whole_run::WholeRun;
use big_job::{big_job, big_summary};
use caller::SyncRefusal;
use index_kit::Index;
use montage::OpenRefusal;
use std::alloc::{AllocError, Global};
use std::sync::Wait;
use std::thread::Threads;

/// How many lines the generated job has.
const LINES: u64 = 20_000;

/// Runs the generated job of a number on a store that was never used, lets each caller sync, and
/// gives the text of the summary of what recovery finds in the durable words. Each map unit is
/// given the next of the boxes.
pub fn run_big<R: Threads + Wait + Sync, I: Index + Send>(
    rt: &R,
    alloc: Global,
    number: u64,
    indexes: Vec<I>,
) -> Result<Vec<u8>, OpenRefusal>
    ensures summary { IfOk result (λ bytes. IsBigSummary number bytes.items) }
    ensures boxes { OnOk result (HaveEmptyBoxes generated_head.layout
        (map (λ b. finite.len (I.places b)) indexes.items)) }
    ensures lacks { IfErr result (λ why. LacksBox generated_head.layout
        (map (λ b. finite.len (I.places b)) indexes.items) why) }
{
    let job = big_job(alloc, number)?;
    let SyncedRun { run, synced } = run_synced(rt, alloc, &job, indexes)?;
    Ok(summary_of(alloc, number, &run, synced)?)
}

// The summary of a run of the generated job, after which the callers' syncs ended so.
fn summary_of(
    alloc: Global,
    number: u64,
    run: &WholeRun,
    synced: Result<(), SyncRefusal>,
) -> Result<Vec<u8>, AllocError>
    requires run { IsRunOn (generated_job number) (nothing generated_head.layout) run.now }
    requires synced { EndsSynced (generated_job number) (report_of run.now.report) synced }
    ensures { IfOk result (λ bytes. IsSummaryOf number (report_of run.now.report) bytes.items) }
{
    let outcomes = run.report.outcomes.as_slice();
    let answered = count_answered(outcomes);
    // The job stops nobody, so a sync is refused at the clock's end alone.
    let clock_end = synced.is_err() || has_clock_end(outcomes);
    big_summary(
        alloc,
        number,
        &run.report.contents,
        LINES,
        answered,
        clock_end,
    )
}
