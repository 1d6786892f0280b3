// A job is run on a store that was never used.
ghost use Rattle.std.specs.Prelude.{◌≡◌, map, IfOk, IfErr, OnOk};
ghost use Rattle.std.specs.FinMap as finite;
ghost use Rattle.heap.specs.FreshOpening.{fresh_opening};
ghost use Rattle.heap.specs.Opens.{Opens};
ghost use Rattle.job_text.specs.Grammar.{IsJob};
ghost use Rattle.store.specs.MapBoxes.{HaveEmptyBoxes, LacksBox};
ghost use Rattle.job_store.specs.Base.{nothing};
ghost use Rattle.job_store.specs.WholeRun.{IsRunFrom, IsRunOn};

use crate::job_gates::gates_of;
use crate::whole_run::{WholeRun, run_whole};
use heap::{Heap, Seats};
use heap_pass::HeapName;
use index_kit::Index;
use job_text::Job;
use montage::{OpenRefusal, Store};
use std::alloc::Global;
use std::marker::Brand;
use std::sync::Wait;
use std::thread::Threads;

/// Runs a job on a store that was never used, with a thread for each caller and one that moves the
/// clock on. Each map unit is given the next of the boxes. The image is what the job's mask picks
/// of the stopped store's words, and the report tells what recovery finds in it.
pub fn run_fresh<R: Threads + Wait + Sync, I: Index + Send>(
    rt: &R,
    alloc: Global,
    job: &Job,
    indexes: Vec<I>,
) -> Result<WholeRun, OpenRefusal>
    requires job { IsJob job.now }
    ensures run { IfOk result (IsRunOn job.now (nothing job.now.layout)) }
    ensures boxes { OnOk result (HaveEmptyBoxes job.now.layout
        (map (λ b. finite.len (I.places b)) indexes.items)) }
    ensures lacks { IfErr result (λ why. LacksBox job.now.layout
        (map (λ b. finite.len (I.places b)) indexes.items) why) }
{
    let (heap, seats) = Heap::fresh(alloc, job.layout, job.callers)?;
    run_on_fresh::<_, Brand, _>(rt, alloc, heap, seats, job, indexes)
}

// Runs a job on the heap that N names.
fn run_on_fresh<R: Threads + Wait + Sync, N: HeapName + Send + Sync, I: Index + Send>(
    rt: &R,
    alloc: Global,
    heap: Heap,
    seats: Seats,
    job: &Job,
    indexes: Vec<I>,
) -> Result<WholeRun, OpenRefusal>
    requires named { heap ≡ N.heap }
    requires opens { Opens (fresh_opening job.now.layout job.now.callers) N.heap
        seats.units.items seats.advancer seats.callers.items }
    requires job { IsJob job.now }
    ensures run { IfOk result (IsRunFrom job.now N.heap.opening.words) }
    ensures boxes { OnOk result (HaveEmptyBoxes job.now.layout
        (map (λ b. finite.len (I.places b)) indexes.items)) }
    ensures lacks { IfErr result (λ why. LacksBox job.now.layout
        (map (λ b. finite.len (I.places b)) indexes.items) why) }
{
    let gates = gates_of(alloc, job)?;
    let (store, passes) = Store::<N, I>::fresh(alloc, heap, seats, gates, indexes)?;
    Ok(run_whole(rt, alloc, store, passes, job)?)
}
