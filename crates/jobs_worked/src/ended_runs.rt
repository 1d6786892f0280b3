// A job is run on a store that was never used, which is then stopped.
ghost use Rattle.std.specs.Prelude.{◌≡◌, vec_len, IfOk};
ghost use Rattle.heap.specs.FreshOpening.{fresh_opening};
ghost use Rattle.heap.specs.Opens.{Opens};
ghost use Rattle.job_text.specs.Grammar.{IsJob};
ghost use Rattle.jobs_worked.specs.Stopped.{WasStopped};

use heap::{Heap, Seats};
use heap_pass::HeapName;
use index_kit::Index;
use job_text::Job;
use mont_base::Gate;
use montage::{Ran, Store, run};
use std::alloc::{AllocError, Global};
use std::marker::Brand;
use std::sync::Wait;
use std::test::Fail;
use std::thread::Threads;
use store_stop::Stopped;

// A run whose store was stopped, whether or not a caller found no memory in it.
#[derive(Drop)]
pub(crate) struct Ended {
    pub(crate) ran: Result<Ran, AllocError>,
    pub(crate) stopped: Stopped,
}

// A run in which each caller has one of the gates, and the advancer another.
pub(crate) fn ended_run<R: Threads + Wait + Sync, G: Gate + Drop + Send, I: Index + Send>(
    rt: &R,
    alloc: Global,
    job: &Job,
    indexes: Vec<I>,
    gates: Vec<G>,
    gate: &mut G,
) -> Result<Ended, Fail>
    requires { IsJob job.now }
    ensures { IfOk result (λ e. WasStopped job.now.layout e.stopped) }
{
    if gates.len() as u64 != job.callers {
        return Err(Fail::new("not a gate for each caller"));
    }
    let (heap, seats) = Heap::fresh(alloc, job.layout, job.callers)?;
    run_on::<_, Brand, _, _>(rt, alloc, heap, seats, job, indexes, gates, gate)
}

// Runs a job on the heap that N names.
fn run_on<
    R: Threads + Wait + Sync,
    N: HeapName + Send + Sync,
    G: Gate + Drop + Send,
    I: Index + Send,
>(
    rt: &R,
    alloc: Global,
    heap: Heap,
    seats: Seats,
    job: &Job,
    indexes: Vec<I>,
    gates: Vec<G>,
    gate: &mut G,
) -> Result<Ended, Fail>
    requires named { heap ≡ N.heap }
    requires opens { Opens (fresh_opening job.now.layout job.now.callers) N.heap
        seats.units.items seats.advancer seats.callers.items }
    requires gates { vec_len gates ≡ job.now.callers }
    requires job { IsJob job.now }
    ensures { IfOk result (λ e. WasStopped job.now.layout e.stopped) }
{
    let (store, mut passes) = Store::<N, I>::fresh(alloc, heap, seats, gates, indexes)?;
    let ran = run(rt, alloc, &store, job, &mut passes, gate);
    let stopped = store.stop(alloc, passes)?;
    Ok(Ended { ran, stopped })
}
