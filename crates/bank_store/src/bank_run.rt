// A run of the bank, from its opening to what recovery finds.
ghost use Rattle.std.specs.Prelude.{◌≡◌, All, map, vec_len, IfOk, IfErr, OnOk};
ghost use Rattle.std.specs.FinMap as finite;
ghost use Rattle.plain.specs.States.{states_of};
ghost use Rattle.heap.specs.FreshOpening.{fresh_opening};
ghost use Rattle.heap.specs.Opens.{Opens};
ghost use Rattle.bank_job.specs.Bank.{bank_layout};
ghost use Rattle.store.specs.MapBoxes.{HaveEmptyBoxes, LacksBox};
ghost use Rattle.store.specs.Store.{IsFirstPass};
ghost use Rattle.bank_store.specs.BankCallers.{AreNewTickets};
ghost use Rattle.bank_store.specs.BankEnd.{HasEnded};
ghost use Rattle.bank_store.specs.BankRun.{IsBankRun, IsBankRunOn};
ghost use Rattle.bank_store.specs.BankStore.{TellsDurable};

use crate::bank_contents::contents_left;
use crate::side_by_side::run_tellers;
use bank_job::{BankReport, CALLERS, bank_layout};
use heap::{Heap, Seats};
use heap_pass::{HeapName, Pass};
use index_kit::Index;
use mont_base::Steady;
use mont_image::pick;
use std::alloc::{AllocError, Global};
use std::marker::Brand;
use std::sync::Wait;
use std::thread::Threads;
use store::{OpenRefusal, Store};
use store_stop::Stopped;

// The image is made of the durable words alone.
const DURABLE: u64 = 0;

/// Runs the bank of a number on a store that was never used. One caller opens the accounts and
/// waits until they are durable, unless the clock is the last one. Then four callers shift, each in
/// a thread of its own, beside one that moves the clock on. When all are done the store is stopped,
/// and recovery looks at what is durable then. Each map unit is given the next of the boxes.
pub fn run_bank<R: Threads + Wait + Sync, I: Index + Send>(
    rt: &R,
    alloc: Global,
    number: u64,
    indexes: Vec<I>,
) -> Result<BankReport, OpenRefusal>
    ensures run { IfOk result (λ report. IsBankRun number report.histories report.image_clock
        (states_of report.contents)) }
    ensures boxes { OnOk result (HaveEmptyBoxes bank_layout
        (map (λ b. finite.len (I.places b)) indexes.items)) }
    ensures lacks { IfErr result (λ why. LacksBox bank_layout
        (map (λ b. finite.len (I.places b)) indexes.items) why) }
{
    let (heap, seats) = Heap::fresh(alloc, bank_layout(), CALLERS)?;
    run_on_fresh::<R, Brand, I>(rt, alloc, heap, seats, number, indexes)
}

// Runs the bank on the heap that N names.
fn run_on_fresh<R: Threads + Wait + Sync, N: HeapName + Send + Sync, I: Index + Send>(
    rt: &R,
    alloc: Global,
    heap: Heap,
    seats: Seats,
    number: u64,
    indexes: Vec<I>,
) -> Result<BankReport, OpenRefusal>
    requires named { heap ≡ N.heap }
    requires opening { N.heap.opening ≡ fresh_opening bank_layout 4 }
    requires opens { Opens (fresh_opening bank_layout 4) N.heap
        seats.units.items seats.advancer seats.callers.items }
    ensures run { IfOk result (λ report. IsBankRunOn N.heap number report.histories
        report.image_clock (states_of report.contents)) }
    ensures boxes { OnOk result (HaveEmptyBoxes N.heap.opening.layout
        (map (λ b. finite.len (I.places b)) indexes.items)) }
    ensures lacks { IfErr result (λ why. LacksBox N.heap.opening.layout
        (map (λ b. finite.len (I.places b)) indexes.items) why) }
{
    let gates = steady_gates(alloc)?;
    let (store, passes) = Store::<N, I>::fresh(alloc, heap, seats, gates, indexes)?;
    let stopped = run_and_stop(rt, alloc, store, passes, number)?;
    Ok(report_on::<R, N>(rt, alloc, stopped, number)?)
}

// A gate for each caller, which never cuts.
fn steady_gates(alloc: Global) -> Result<Vec<Steady>, AllocError>
    ensures { IfOk result (λ gates. vec_len gates ≡ 4) }
{
    let mut gates = Vec::new(alloc);
    for _caller in 0..CALLERS {
        gates.push(Steady)?;
    }
    Ok(gates)
}

// Runs the bank, and stops the store.
fn run_and_stop<R: Threads + Wait + Sync, N: HeapName + Send + Sync, I: Index + Send>(
    rt: &R,
    alloc: Global,
    store: Store<N, I>,
    passes: Vec<Pass<Steady>>,
    number: u64,
) -> Result<Stopped, AllocError>
    requires opening { N.heap.opening ≡ fresh_opening bank_layout 4 }
    requires tickets { AreNewTickets N.heap (map (λ p. p.ticket) passes.items) }
    requires first { All (IsFirstPass N.heap) passes.items }
    ensures { IfOk result (HasEnded N.heap number) }
{
    let passes = run_tellers(rt, alloc, &store, passes, number)?;
    store.stop(alloc, passes)
}

// What the run tells, with what recovery finds of the durable words.
fn report_on<R: Threads + Sync, N: HeapName>(
    rt: &R,
    alloc: Global,
    stopped: Stopped,
    _number: u64,
) -> Result<BankReport, AllocError>
    requires opening { N.heap.opening ≡ fresh_opening bank_layout 4 }
    requires ended { HasEnded N.heap _number stopped }
    ensures run { IfOk result (λ report. IsBankRunOn N.heap _number report.histories
        report.image_clock (states_of report.contents)) }
    ensures told { IfOk result (λ report. TellsDurable stopped report.histories
        report.image_clock (states_of report.contents)) }
{
    let image = pick(alloc, &stopped.words, DURABLE)?;
    let contents = contents_left(rt, alloc, &image, &stopped)?;
    let image_clock = image.clock();
    Ok(BankReport {
        histories: stopped.histories,
        image_clock,
        contents,
    })
}
