// A job is run on a store that was opened, up to its report and the image that a crash leaves.
ghost use Rattle.std.specs.Prelude.{◌≡◌, Bool, false, All, map, Ok, IfOk, OnOk};
ghost use Rattle.core_steps.specs.Places.{EachAt};
ghost use Rattle.heap_pass.specs.Kept.{IsWhole};
ghost use Rattle.mont_base.specs.Image.{IsRecovered};
ghost use Rattle.plain.specs.States.{states_of};
ghost use Rattle.job_text.specs.Grammar.{IsJob};
ghost use Rattle.store.specs.Store.{AreAllCallers, IsFirstPass};
ghost use Rattle.job_store.specs.JobGates.{AreGates, KeepsEnd};
ghost use Rattle.job_store.specs.WholeRun.{HasEnded, HaveRun, IsPickOf, IsRunFrom, TellsEnd};

use crate::image_contents::contents_in;
use crate::image_words::show_words;
use crate::job_gates::gate_of;
use heap_pass::{HeapName, Pass};
use image_units::RecoverRefusal;
use index_kit::Index;
use job_report::make_report;
use job_text::{Job, Outcome, Report};
use mont_base::{Fuel, Sequence};
use mont_image::{Image, pick};
use montage::{Ran, Store, run};
use plain::Contents;
use std::alloc::{AllocError, Global};
use std::sync::Wait;
use std::thread::Threads;
use store_stop::Stopped;

// How many workers look for the records of an image.
pub(crate) const WORKERS: u64 = 4;

/// What a run of a job gives once its store was stopped.
#[derive(Debug, Drop)]
pub struct WholeRun {
    pub report: Report,
    /// What a crash leaves of the store's words: those that the job's mask picks.
    pub image: Image,
}

// A run whose store was stopped.
#[derive(Drop)]
pub(crate) struct Ended {
    pub(crate) outcomes: Sequence<Sequence<Outcome>>,
    pub(crate) stopped: Stopped,
}

// Runs a job on a store in which nothing was done yet, with the passes of its callers, and reports.
pub(crate) fn run_whole<R: Threads + Wait + Sync, N: HeapName + Send + Sync, I: Index + Send>(
    rt: &R,
    alloc: Global,
    store: Store<N, I>,
    passes: Vec<Pass<Fuel>>,
    job: &Job,
) -> Result<WholeRun, AllocError>
    requires job { IsJob job.now }
    requires layout { N.heap.opening.layout ≡ job.now.layout }
    requires callers { AreAllCallers N.heap (map (λ p. p.ticket) passes.items) }
    requires first { All (IsFirstPass N.heap) passes.items }
    requires gates { AreGates job.now.stops job.now.callers (map (λ p. p.gate) passes.items) }
    ensures { IfOk result (IsRunFrom job.now N.heap.opening.words) }
{
    let ended = run_and_stop(rt, alloc, store, passes, job)?;
    report_on::<R, N>(rt, alloc, job, ended)
}

// Runs a job, and stops the store whatever came of it.
fn run_and_stop<R: Threads + Wait + Sync, N: HeapName + Send + Sync, I: Index + Send>(
    rt: &R,
    alloc: Global,
    store: Store<N, I>,
    mut passes: Vec<Pass<Fuel>>,
    job: &Job,
) -> Result<Ended, AllocError>
    requires job { IsJob job.now }
    requires layout { N.heap.opening.layout ≡ job.now.layout }
    requires callers { AreAllCallers N.heap (map (λ p. p.ticket) passes.items) }
    requires first { All (IsFirstPass N.heap) passes.items }
    requires gates { AreGates job.now.stops job.now.callers (map (λ p. p.gate) passes.items) }
    ensures { IfOk result (λ e. HasEnded job.now N.heap e.outcomes e.stopped) }
{
    let ran = run_lines(rt, alloc, &store, &mut passes, job);
    let stopped = store.stop(alloc, passes);
    ended_with(ran, stopped)
}

// Carries the lines of a job out, beside its attempts to move the clock on.
pub(crate) fn run_lines<R: Threads + Wait + Sync, N: HeapName + Send + Sync, I: Index + Send>(
    rt: &R,
    alloc: Global,
    store: &Store<N, I>,
    passes: &mut Vec<Pass<Fuel>>,
    job: &Job,
) -> Result<Ran, AllocError>
    requires job { IsJob job.now }
    requires layout { N.heap.opening.layout ≡ job.now.layout }
    requires callers { AreAllCallers N.heap (map (λ p. p.ticket) passes.old.items) }
    requires first { All (IsFirstPass N.heap) passes.old.items }
    requires gates { AreGates job.now.stops job.now.callers
        (map (λ p. p.gate) passes.old.items) }
    ensures callers { AreAllCallers N.heap (map (λ p. p.ticket) passes.new.items) }
    ensures whole { All (λ p. IsWhole p.ticket p.receipts.items) passes.new.items }
    ensures ran { IfOk result (λ ran. HaveRun job.now N.heap
        (map (λ p. p.ticket) passes.new.items) ran.outcomes) }
    ensures gates { OnOk result (EachAt (KeepsEnd job.now.stops)
        (map (λ p. p.gate) passes.new.items)) }
{
    let mut gate = gate_of(job.stops.as_slice(), job.callers);
    run(rt, alloc, store, job, passes, &mut gate)
}

// What the run and the stop gave, where neither lacked memory.
pub(crate) fn ended_with(
    ran: Result<Ran, AllocError>,
    stopped: Result<Stopped, AllocError>,
) -> Result<Ended, AllocError>
    ensures { IfOk result (λ e. ((cut : Bool)
        × (ran ≡ Ok (record { outcomes = e.outcomes; advancer_cut = cut })))
        × (stopped ≡ Ok e.stopped)) }
{
    Ok(Ended {
        outcomes: ran?.outcomes,
        stopped: stopped?,
    })
}

// The report of a job that was run on the heap that N names, and the image.
pub(crate) fn report_on<R: Threads + Sync, N: HeapName>(
    rt: &R,
    alloc: Global,
    job: &Job,
    ended: Ended,
) -> Result<WholeRun, AllocError>
    requires job { IsJob job.now }
    requires ended { HasEnded job.now N.heap ended.outcomes ended.stopped }
    ensures run { IfOk result (IsRunFrom job.now N.heap.opening.words) }
    ensures told { IfOk result (TellsEnd job.now ended.outcomes ended.stopped) }
{
    let Ended { outcomes, stopped } = ended;
    let image = picked::<N>(alloc, job, &outcomes, &stopped)?;
    let contents = rebuilt::<R, N>(rt, alloc, job, &outcomes, &stopped, &image)?;
    show_words(image.words.as_slice());
    let clock = image.clock();
    let report = make_report(alloc, job, stopped, outcomes, clock, contents)?;
    Ok(WholeRun { report, image })
}

// The image that the job's mask picks.
fn picked<N: HeapName>(
    alloc: Global,
    job: &Job,
    outcomes: &Sequence<Sequence<Outcome>>,
    stopped: &Stopped,
) -> Result<Image, AllocError>
    requires { HasEnded job.now N.heap outcomes.now stopped.now }
    ensures layout { IfOk result (λ image. image.layout ≡ job.now.layout) }
    ensures picked { IfOk result (λ image. IsPickOf job.now stopped.now image.words) }
    ensures new { IfOk result (λ image. image.old ≡ false) }
{
    pick(alloc, &stopped.words, job.mask)
}

// What recovery rebuilds of the image. It refuses none of a store that was stopped.
fn rebuilt<R: Threads + Sync, N: HeapName>(
    rt: &R,
    alloc: Global,
    job: &Job,
    outcomes: &Sequence<Sequence<Outcome>>,
    stopped: &Stopped,
    image: &Image,
) -> Result<Contents, AllocError>
    requires ended { HasEnded job.now N.heap outcomes.now stopped.now }
    requires layout { image.now.layout ≡ job.now.layout }
    requires picked { IsPickOf job.now stopped.now image.now.words }
    requires new { image.now.old ≡ false }
    ensures { IfOk result (λ c. IsRecovered job.now.layout image.now.words (states_of c)) }
{
    match contents_in(rt, alloc, image, WORKERS) {
        Ok(contents) => Ok(contents),
        Err(why) => Err(out_of_memory(why)),
    }
}

// A refusal for want of memory.
fn out_of_memory(_why: RecoverRefusal) -> AllocError
    requires { _why ≡ RecoverRefusal.Memory }
{
    AllocError
}
