// A job is run on a store that goes on from an image.
ghost use Rattle.std.specs.Prelude.{◌≡◌, true, map, IfOk, IfErr, OnOk};
ghost use Rattle.std.specs.FinMap as finite;
ghost use Rattle.job_text.specs.Grammar.{IsJob};
ghost use Rattle.store.specs.MapBoxes.{HaveEmptyBoxes, LacksBox};
ghost use Rattle.job_store.specs.WholeRun.{IsRunFrom};

use crate::job_gates::gates_of;
use crate::whole_run::{WholeRun, run_whole};
use heap_pass::HeapName;
use index_kit::Index;
use job_text::Job;
use mont_base::Steady;
use montage::{OpenRefusal, Store};
use recover::Recovered;
use std::alloc::Global;
use std::marker::Brand;
use std::sync::Wait;
use std::thread::Threads;

/// Closes what a crash left open in a store that was recovered, and runs a job on it as `run_fresh`
/// does. It goes on with what the image holds: the run's base is the image's clock and contents,
/// and its records within the cut. Closing asks no caller's gate. After a refusal the store is
/// gone; the image isn't.
pub fn run_recovered<R: Threads + Wait + Sync, I: Index + Send>(
    rt: &R,
    alloc: Global,
    job: &Job,
    recovered: Recovered,
    indexes: Vec<I>,
) -> Result<WholeRun, OpenRefusal>
    requires job { IsJob job.now }
    requires layout { recovered.heap.opening.layout ≡ job.now.layout }
    requires callers { recovered.heap.opening.callers ≡ job.now.callers }
    ensures run { IfOk result (IsRunFrom job.now recovered.heap.opening.words) }
    ensures boxes { OnOk result (HaveEmptyBoxes job.now.layout
        (map (λ b. finite.len (I.places b)) indexes.items)) }
    ensures lacks { IfErr result (λ why. LacksBox job.now.layout
        (map (λ b. finite.len (I.places b)) indexes.items) why) }
{
    let swept = swept(recovered);
    run_on_recovered::<_, Brand, _>(rt, alloc, swept, job, indexes)
}

// The store with every slot beyond the cut closed.
fn swept(mut recovered: Recovered) -> Recovered
    ensures heap { result.heap ≡ recovered.heap }
    ensures swept { result.swept ≡ true }
{
    let Ok(()) = recovered.sweep(&mut Steady) else {
        unreachable!()
    };
    recovered
}

// Runs a job on the heap that N names, with which the store was recovered.
fn run_on_recovered<R: Threads + Wait + Sync, N: HeapName + Send + Sync, I: Index + Send>(
    rt: &R,
    alloc: Global,
    recovered: Recovered,
    job: &Job,
    indexes: Vec<I>,
) -> Result<WholeRun, OpenRefusal>
    requires named { recovered.heap ≡ N.heap }
    requires swept { recovered.swept ≡ true }
    requires layout { recovered.heap.opening.layout ≡ job.now.layout }
    requires callers { recovered.heap.opening.callers ≡ job.now.callers }
    requires job { IsJob job.now }
    ensures run { IfOk result (IsRunFrom job.now N.heap.opening.words) }
    ensures boxes { OnOk result (HaveEmptyBoxes job.now.layout
        (map (λ b. finite.len (I.places b)) indexes.items)) }
    ensures lacks { IfErr result (λ why. LacksBox job.now.layout
        (map (λ b. finite.len (I.places b)) indexes.items) why) }
{
    let gates = gates_of(alloc, job)?;
    let (store, passes) = Store::<N, I>::resume(alloc, recovered, gates, indexes)?;
    Ok(run_whole(rt, alloc, store, passes, job)?)
}
