// The reports of runs, which are judged.
ghost use Rattle.std.specs.Prelude.{IfOk};
ghost use Rattle.job_text.specs.Grammar.{IsJob};
ghost use Rattle.jobs_worked.specs.Stopped.{WasStopped};

use crate::ended_runs::{Ended, ended_run};
use index_kit::SortedIndex;
use job_report::make_report;
use job_text::{Job, Report, read_job, write_report};
use mont_base::{Epoch, FIRST_CLOCK, Gate, MemSource, Sequence, Steady};
use mont_check::is_faithful;
use mont_image::pick;
use plain::{Contents, recover};
use std::alloc::{AllocError, Global};
use std::sync::Wait;
use std::test::Fail;
use std::thread::Threads;
use store_stop::Stopped;

// How many bytes of a job's text are given at once.
const PIECE: u64 = 4096;

// The job of a text.
pub(crate) fn job_of(alloc: Global, text: &str) -> Result<Job, Fail>
    ensures { IfOk result IsJob }
{
    let bytes = Vec::from_slice(alloc, text.as_bytes())?;
    let mut source = MemSource::new(bytes, PIECE, Vec::new(alloc));
    Ok(read_job(alloc, &mut source)?)
}

// The text of the report of a run in which no one is held or cut. The report is faithful.
pub(crate) fn text_of_steady_run(
    rt: &(impl Threads + Wait + Sync),
    alloc: Global,
    job: &Job,
) -> Result<Vec<u8>, Fail>
    requires { IsJob job.now }
{
    let gates = vec![in alloc; Steady; job.callers as usize]?;
    text_of_run(rt, alloc, job, gates, Steady)
}

// The text of the report of a run in which each caller has one of the gates, and the advancer
// another. The report is faithful.
pub(crate) fn text_of_run<R: Threads + Wait + Sync, G: Gate + Drop + Send>(
    rt: &R,
    alloc: Global,
    job: &Job,
    gates: Vec<G>,
    mut gate: G,
) -> Result<Vec<u8>, Fail>
    requires { IsJob job.now }
{
    let indexes = sorted_indexes(alloc, job)?;
    let ended = ended_run(rt, alloc, job, indexes, gates, &mut gate)?;
    let report = reported(alloc, job, ended)?;
    judged_text(alloc, job, &report)
}

// An index for each map unit.
fn sorted_indexes(alloc: Global, job: &Job) -> Result<Vec<SortedIndex>, AllocError> {
    let mut indexes = Vec::new(alloc);
    for _ in 0..job.layout.maps() {
        indexes.push(SortedIndex::new(alloc))?;
    }
    Ok(indexes)
}

// The report, with what recovery finds in the image that the job's mask picks.
fn reported(alloc: Global, job: &Job, ended: Ended) -> Result<Report, Fail>
    requires { WasStopped job.now.layout ended.stopped }
{
    let (clock, contents) = found(alloc, job, &ended.stopped)?;
    let Ended { ran, stopped } = ended;
    let outcomes = ran?.outcomes;
    Ok(make_report(alloc, job, stopped, outcomes, clock, contents)?)
}

// The clock of the image that the job's mask picks, and what recovery finds in it.
fn found(alloc: Global, job: &Job, stopped: &Stopped) -> Result<(Epoch, Contents), Fail>
    requires { WasStopped job.now.layout stopped.now }
{
    let image = pick(alloc, &stopped.words, job.mask)?;
    let contents = recover(alloc, job.layout, image.words.as_slice())?;
    Ok((image.clock(), contents))
}

// The text of a report, which is faithful to the job of a store that was never used.
fn judged_text(alloc: Global, job: &Job, report: &Report) -> Result<Vec<u8>, Fail> {
    let base = Contents::empty(alloc, job.layout)?;
    let mut records = Vec::new(alloc);
    for _ in 0..job.layout.units() {
        records.push(Sequence::new(alloc))?;
    }
    if !is_faithful(alloc, job, FIRST_CLOCK, &base, records.as_slice(), report)? {
        return Err(Fail::new("the report isn't faithful"));
    }
    Ok(write_report(alloc, report)?)
}
