// How stores open, stop, and open again from an image.
ghost use Rattle.std.specs.Prelude.{vec_len, ◌≡◌, false, IfOk};
ghost use Rattle.store.specs.FreshStore.{IsFreshHeap};
ghost use Rattle.store.specs.StoreCalls.{IsSamePass};
ghost use Rattle.store_bench.specs.StoppedRuns.{WasStopped};

use crate::clock_ends::sync;
use crate::course::Course;
use crate::lent_store::{Kind, empty_indexes, endless_gates, layout_of, lend};
use crate::timed_rounds::{nanos_since, time_calls};
use crate::timing_trouble::Trouble;
use heap::{Heap, Seats};
use heap_pass::{HeapName, Pass};
use index_kit::{Index, ProbeIndex};
use mont_base::{Fuel, Layout, Op};
use mont_image::{Image, pick};
use recover::recover;
use std::alloc::Global;
use std::marker::Brand;
use std::sync::Wait;
use std::thread::Threads;
use std::time::{Clock, Instant};
use store::{Store, StoreRefusal};
use store_door::Work;
use store_stop::Stopped;

const SLOTS: u64 = 4096;

// Over how many keys the puts go that a stopped store was asked.
const KEYS: u64 = 16;

// Makes so many calls, syncs, and looks at the time.
#[derive(Drop)]
struct Fills {
    ops: Vec<Op>,
    calls: u64,
    // When that was.
    ended: Result<Instant, Trouble>,
}

impl<R: Wait + Clock> Work<R, Fuel> for Fills {
    ghost did = { λ _ _ _ _. Unit {0} };

    fn work<N: HeapName, I: Index>(&mut self, rt: &R, store: &Store<N, I>, pass: &mut Pass<Fuel>) {
        self.ended = fill(rt, store, pass, &self.ops, self.calls);
    }
}

fn fill<R: Wait + Clock, N: HeapName, I: Index>(
    rt: &R,
    store: &Store<N, I>,
    pass: &mut Pass<Fuel>,
    ops: &[Op],
    calls: u64,
) -> Result<Instant, Trouble>
    requires { pass.old.ticket.table ≡ N.heap.table }
    ensures { IsSamePass pass.old pass.new }
{
    let many = (ops.len() as u64).max(1);
    for _time in 0..calls.div_ceil(many) {
        time_calls(rt, store, pass, ops)?;
    }
    sync(rt, store, pass)?;
    Ok(Instant::now(rt)?)
}

// The nanoseconds of so many openings of a map of so many slots.
pub(crate) fn time_openings<R: AllocGlobal + Clock>(
    rt: &R,
    slots: u64,
    openings: u64,
) -> Result<u64, Trouble> {
    let alloc = rt.alloc();
    let layout = layout_of(Kind::Map, 1, slots)?;
    let mut nanos = 0u64;
    for _opening in 0..openings {
        nanos = nanos.saturating_add(time_opening(rt, alloc, layout)?);
    }
    Ok(nanos)
}

// An opening for one caller, with what it is handed.
fn time_opening<R: Clock>(rt: &R, alloc: Global, layout: Layout) -> Result<u64, Trouble> {
    let begin = Instant::now(rt)?;
    let gates = endless_gates(alloc, 1)?;
    let indexes = empty_indexes(alloc, layout)?;
    let (heap, seats) = Heap::fresh(alloc, layout, 1)?;
    open_on::<R, Brand>(rt, alloc, begin, heap, seats, gates, indexes)
}

// Opens a store on the heap that N names, and answers the nanoseconds since then. The store is let
// go after.
fn open_on<R: Clock, N: HeapName>(
    rt: &R,
    alloc: Global,
    begin: Instant,
    heap: Heap,
    seats: Seats,
    gates: Vec<Fuel>,
    indexes: Vec<ProbeIndex>,
) -> Result<u64, Trouble>
    requires named { heap ≡ N.heap }
    requires opens { IsFreshHeap N.heap seats.units.items seats.advancer seats.callers.items }
    requires gates { vec_len gates ≡ N.heap.opening.callers }
{
    match Store::<N, ProbeIndex>::fresh(alloc, heap, seats, gates, indexes) {
        Ok(_opened) => nanos_since(rt, begin),
        Err(why) => Err(StoreRefusal::from(why).into()),
    }
}

// The nanoseconds of so many stops, each of a store with so many entries.
pub(crate) fn time_stops<R: AllocGlobal + Threads + Wait + Clock + Sync>(
    rt: &R,
    entries: u64,
    stops: u64,
) -> Result<u64, Trouble> {
    let alloc = rt.alloc();
    let mut nanos = 0u64;
    for _stop in 0..stops {
        let ops = Course::puts(alloc, KEYS)?;
        nanos = nanos.saturating_add(time_stop(rt, alloc, ops, entries)?);
    }
    Ok(nanos)
}

fn time_stop<R: Threads + Wait + Clock + Sync>(
    rt: &R,
    alloc: Global,
    ops: Vec<Op>,
    entries: u64,
) -> Result<u64, Trouble> {
    match stop_one(rt, alloc, SLOTS, ops, entries) {
        Ok((_stopped, took)) => Ok(took),
        Err(why) => Err(why),
    }
}

// A store that was stopped after so many calls, with the nanoseconds that its stop took.
fn stop_one<R: Threads + Wait + Clock + Sync>(
    rt: &R,
    alloc: Global,
    slots: u64,
    ops: Vec<Op>,
    calls: u64,
) -> Result<(Stopped, u64), Trouble>
    ensures { IfOk result (λ r. WasStopped r.0) }
{
    let layout = layout_of(Kind::Map, 1, slots)?;
    let fills = Fills {
        ops,
        calls,
        ended: Err(Trouble::NoClock),
    };
    let (stopped, works) = lend(rt, alloc, layout, vec![in alloc; fills]?)?;
    match nanos_behind(rt, &works) {
        Ok(nanos) => Ok((stopped, nanos)),
        Err(why) => Err(why),
    }
}

// The nanoseconds since its work was done.
fn nanos_behind<R: Clock>(rt: &R, works: &[Fills]) -> Result<u64, Trouble> {
    match works.first() {
        Some(fills) => nanos_since(rt, fills.ended?),
        None => Err(Trouble::NoClock),
    }
}

// The nanoseconds of so many openings from the image of a map, half of whose slots have a pair,
// each with the sweep.
pub(crate) fn time_recoveries<R: AllocGlobal + Threads + Wait + Clock + Sync>(
    rt: &R,
    slots: u64,
    recoveries: u64,
) -> Result<u64, Trouble> {
    let alloc = rt.alloc();
    let image = image_of_pairs(rt, alloc, slots)?;
    let mut nanos = 0u64;
    for _recovery in 0..recoveries {
        let begin = Instant::now(rt)?;
        recover_once(rt, alloc, &image)?;
        nanos = nanos.saturating_add(nanos_since(rt, begin)?);
    }
    Ok(nanos)
}

// The image of a map, half of whose slots have a pair.
fn image_of_pairs<R: Threads + Wait + Clock + Sync>(
    rt: &R,
    alloc: Global,
    slots: u64,
) -> Result<Image, Trouble>
    ensures { IfOk result (λ image. image.old ≡ false) }
{
    let pairs = slots / 2;
    let ops = Course::puts(alloc, pairs)?;
    let (stopped, _took) = stop_one(rt, alloc, slots, ops, pairs)?;
    Ok(pick(alloc, &stopped.words, 0)?)
}

fn recover_once<R: Threads + Sync>(rt: &R, alloc: Global, image: &Image) -> Result<(), StoreRefusal>
    requires { image.now.old ≡ false }
{
    let mut recovered = recover(rt, alloc, image, 1, 1)?;
    recovered.sweep(&mut Fuel::endless())?;
    Ok(())
}
