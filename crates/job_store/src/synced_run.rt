// A job is run on a store that was never used, and one caller syncs for all after the lines.
ghost use Rattle.std.specs.Prelude.{◌≡◌, All, map, IfOk, IfErr, OnOk};
ghost use Rattle.std.specs.FinMap as finite;
ghost use Rattle.heap.specs.FreshOpening.{fresh_opening};
ghost use Rattle.heap.specs.Opens.{Opens};
ghost use Rattle.job_text.specs.Grammar.{IsJob};
ghost use Rattle.job_text.specs.PlainReport.{report_of};
ghost use Rattle.store.specs.MapBoxes.{HaveEmptyBoxes, LacksBox};
ghost use Rattle.store.specs.Store.{AreAllCallers, IsFirstPass};
ghost use Rattle.job_store.specs.Base.{nothing};
ghost use Rattle.job_store.specs.JobGates.{AreGates};
ghost use Rattle.job_store.specs.SyncedRun.{EndsSynced, HasEndedSynced};
ghost use Rattle.job_store.specs.WholeRun.{IsRunFrom, IsRunOn};

use crate::job_gates::gates_of;
use crate::syncs::sync_for_all;
use crate::whole_run::{Ended, WholeRun, ended_with, report_on, run_lines};
use caller::SyncRefusal;
use heap::{Heap, Seats};
use heap_pass::{HeapName, Pass};
use index_kit::Index;
use job_text::Job;
use mont_base::Fuel;
use montage::{OpenRefusal, Store};
use std::alloc::{AllocError, Global};
use std::marker::Brand;
use std::sync::Wait;
use std::thread::Threads;

/// A run of a job after which its first caller heard the others and synced.
#[derive(Debug, Drop)]
pub struct SyncedRun {
    pub run: WholeRun,
    /// Why the sync was refused, if it was.
    pub synced: Result<(), SyncRefusal>,
}

// A run whose store was stopped after the sync.
#[derive(Drop)]
struct EndedSynced {
    ended: Ended,
    synced: Result<(), SyncRefusal>,
}

/// Runs a job as `run_fresh` does, but that the first caller hears the others and syncs before the
/// store is stopped, once the lines of all are carried out. No outcome tells of that sync.
pub fn run_synced<R: Threads + Wait + Sync, I: Index + Send>(
    rt: &R,
    alloc: Global,
    job: &Job,
    indexes: Vec<I>,
) -> Result<SyncedRun, OpenRefusal>
    requires job { IsJob job.now }
    ensures run { IfOk result (λ r. IsRunOn job.now (nothing job.now.layout) r.run) }
    ensures synced { IfOk result (λ r. EndsSynced job.now (report_of r.run.report) r.synced) }
    ensures boxes { OnOk result (HaveEmptyBoxes job.now.layout
        (map (λ b. finite.len (I.places b)) indexes.items)) }
    ensures lacks { IfErr result (λ why. LacksBox job.now.layout
        (map (λ b. finite.len (I.places b)) indexes.items) why) }
{
    let (heap, seats) = Heap::fresh(alloc, job.layout, job.callers)?;
    synced_on_fresh::<_, Brand, _>(rt, alloc, heap, seats, job, indexes)
}

// Runs a job on the heap that N names.
fn synced_on_fresh<R: Threads + Wait + Sync, N: HeapName + Send + Sync, I: Index + Send>(
    rt: &R,
    alloc: Global,
    heap: Heap,
    seats: Seats,
    job: &Job,
    indexes: Vec<I>,
) -> Result<SyncedRun, OpenRefusal>
    requires named { heap ≡ N.heap }
    requires opens { Opens (fresh_opening job.now.layout job.now.callers) N.heap
        seats.units.items seats.advancer seats.callers.items }
    requires job { IsJob job.now }
    ensures run { IfOk result (λ r. IsRunFrom job.now N.heap.opening.words r.run) }
    ensures synced { IfOk result (λ r. EndsSynced job.now (report_of r.run.report) r.synced) }
    ensures boxes { OnOk result (HaveEmptyBoxes job.now.layout
        (map (λ b. finite.len (I.places b)) indexes.items)) }
    ensures lacks { IfErr result (λ why. LacksBox job.now.layout
        (map (λ b. finite.len (I.places b)) indexes.items) why) }
{
    let gates = gates_of(alloc, job)?;
    let (store, passes) = Store::<N, I>::fresh(alloc, heap, seats, gates, indexes)?;
    Ok(run_whole_synced(rt, alloc, store, passes, job)?)
}

// Runs a job on a store in which nothing was done yet, with the passes of its callers, of which the
// first one then syncs for all, and reports.
fn run_whole_synced<R: Threads + Wait + Sync, N: HeapName + Send + Sync, I: Index + Send>(
    rt: &R,
    alloc: Global,
    store: Store<N, I>,
    passes: Vec<Pass<Fuel>>,
    job: &Job,
) -> Result<SyncedRun, AllocError>
    requires job { IsJob job.now }
    requires layout { N.heap.opening.layout ≡ job.now.layout }
    requires callers { AreAllCallers N.heap (map (λ p. p.ticket) passes.items) }
    requires first { All (IsFirstPass N.heap) passes.items }
    requires gates { AreGates job.now.stops job.now.callers (map (λ p. p.gate) passes.items) }
    ensures run { IfOk result (λ r. IsRunFrom job.now N.heap.opening.words r.run) }
    ensures synced { IfOk result (λ r. EndsSynced job.now (report_of r.run.report) r.synced) }
{
    let EndedSynced { ended, synced } = run_sync_and_stop(rt, alloc, store, passes, job)?;
    let run = report_on::<R, N>(rt, alloc, job, ended)?;
    Ok(SyncedRun { run, synced })
}

// Runs a job, lets the first caller sync for all, and stops the store whatever came of it.
fn run_sync_and_stop<R: Threads + Wait + Sync, N: HeapName + Send + Sync, I: Index + Send>(
    rt: &R,
    alloc: Global,
    store: Store<N, I>,
    mut passes: Vec<Pass<Fuel>>,
    job: &Job,
) -> Result<EndedSynced, AllocError>
    requires job { IsJob job.now }
    requires layout { N.heap.opening.layout ≡ job.now.layout }
    requires callers { AreAllCallers N.heap (map (λ p. p.ticket) passes.items) }
    requires first { All (IsFirstPass N.heap) passes.items }
    requires gates { AreGates job.now.stops job.now.callers (map (λ p. p.gate) passes.items) }
    ensures { IfOk result (λ e. HasEndedSynced job.now N.heap e.ended.outcomes e.ended.stopped
        e.synced) }
{
    let ran = run_lines(rt, alloc, &store, &mut passes, job);
    let synced = sync_for_all(rt, alloc, &store, passes.as_mut_slice());
    let stopped = store.stop(alloc, passes);
    let ended = ended_with(ran, stopped)?;
    Ok(EndedSynced {
        ended,
        synced: synced?,
    })
}
