// One call from a layout, or from an image, to the stop: it lends a store to its callers' work.
ghost use Rattle.std.specs.Prelude.{◌≡◌, ◌<◌, ◌≤◌, ◌∷◌, true, All, length, map, vec_len, IfOk, IfErr, OnOk};
ghost use Rattle.std.specs.FinMap as finite;
ghost use Rattle.std.specs.Vec.Iter.{into_iter_items};
ghost use Rattle.store_door.specs.Door.{IsDone, IsDoneFresh, HasWorked, HaveWorked};
ghost use Rattle.store.specs.FreshStore.{IsFreshHeap};
ghost use Rattle.store.specs.MapBoxes.{HaveEmptyBoxes, LacksBox};
ghost use Rattle.store.specs.Store.{AreAllCallers, IsFirstPass};
ghost use Rattle.store.specs.StoreCalls.{IsSamePass};

use heap::{Heap, Seats};
use heap_pass::{HeapName, Pass};
use index_kit::Index;
use mont_base::{Gate, Layout};
use recover::Recovered;
use std::alloc::{AllocError, Global};
use std::marker::Brand;
use std::thread::{Threads, for_each_mut};
use std::vec::IntoIter;
use store::{OpenRefusal, Store};
use store_stop::Stopped;

// As many callers as a store may have.
const MOST_CALLERS: usize = 8;

/// What a caller does with a store while it is open. It has a pass of its own, and shares the store
/// with the others.
pub trait Work<R, G: Gate> {
    ghost use Rattle.heap.specs.HeapShown.{HeapShown, CallerShown};

    /// How it was before and is after, with the heap of the store and the caller's ticket then.
    ghost did: { Self → Self → HeapShown → CallerShown → Type 0 };

    /// Works with the store. The pass may make no step more once its gate cut.
    fn work<N: HeapName, I: Index>(&mut self, rt: &R, store: &Store<N, I>, pass: &mut Pass<G>)
        requires first { IsFirstPass N.heap pass.old }
        ensures same { IsSamePass pass.old pass.new }
        ensures did { did self.old self.new N.heap pass.new.ticket };
}

// A caller's pass, and its work.
#[derive(Drop)]
pub(crate) struct AtWork<G: Gate, W> {
    pub(crate) pass: Pass<G>,
    pub(crate) work: W,
}

/// Opens a store that was never used, lends it to the work of each caller in a thread of its own,
/// and stops it when all are done. It gives what the store leaves, and the works.
///
/// There are as many callers as works, and each has the gate in the place of its work. Map units
/// are given the indexes as `Store::fresh` does. After want of memory the store is gone, and the
/// works.
pub fn with_fresh<
    R: Threads + Sync,
    G: Gate + Drop + Send,
    I: Index + Send,
    W: Work<R, G> + Drop + Send,
>(
    rt: &R,
    alloc: Global,
    layout: Layout,
    gates: Vec<G>,
    indexes: Vec<I>,
    works: Vec<W>,
) -> Result<(Stopped, Vec<W>), OpenRefusal>
    requires callers { (1 ≤ vec_len works) × (vec_len works ≤ 8) }
    requires gates { vec_len gates ≡ vec_len works }
    ensures done { IfOk result (λ r. IsDoneFresh W.did layout works.items r.1.items r.0) }
    ensures boxes { OnOk result (HaveEmptyBoxes layout
        (map (λ b. finite.len (I.places b)) indexes.items)) }
    ensures lacks { IfErr result (λ why. LacksBox layout
        (map (λ b. finite.len (I.places b)) indexes.items) why) }
{
    let (heap, seats) = Heap::fresh(alloc, layout, works.len() as u64)?;
    work_on_fresh::<R, G, I, W, Brand>(rt, alloc, heap, seats, gates, indexes, works)
}

/// Goes on with a store that was recovered and swept, as `with_fresh` does with one that was never
/// used. There are as many callers as it was recovered for. Map units are given the indexes as
/// `Store::resume` does.
pub fn with_recovered<
    R: Threads + Sync,
    G: Gate + Drop + Send,
    I: Index + Send,
    W: Work<R, G> + Drop + Send,
>(
    rt: &R,
    alloc: Global,
    recovered: Recovered,
    gates: Vec<G>,
    indexes: Vec<I>,
    works: Vec<W>,
) -> Result<(Stopped, Vec<W>), OpenRefusal>
    requires swept { recovered.swept ≡ true }
    requires callers { vec_len works ≡ recovered.heap.opening.callers }
    requires gates { vec_len gates ≡ vec_len works }
    ensures done { IfOk result (λ r. IsDone W.did recovered.heap works.items r.1.items r.0) }
    ensures boxes { OnOk result (HaveEmptyBoxes recovered.heap.opening.layout
        (map (λ b. finite.len (I.places b)) indexes.items)) }
    ensures lacks { IfErr result (λ why. LacksBox recovered.heap.opening.layout
        (map (λ b. finite.len (I.places b)) indexes.items) why) }
{
    work_on_recovered::<R, G, I, W, Brand>(rt, alloc, recovered, gates, indexes, works)
}

// Works on the heap that N names, which was never used.
fn work_on_fresh<
    R: Threads + Sync,
    G: Gate + Drop + Send,
    I: Index + Send,
    W: Work<R, G> + Drop + Send,
    N: HeapName + Send + Sync,
>(
    rt: &R,
    alloc: Global,
    heap: Heap,
    seats: Seats,
    gates: Vec<G>,
    indexes: Vec<I>,
    works: Vec<W>,
) -> Result<(Stopped, Vec<W>), OpenRefusal>
    requires named { heap ≡ N.heap }
    requires opens { IsFreshHeap N.heap seats.units.items seats.advancer seats.callers.items }
    requires callers { vec_len works ≡ N.heap.opening.callers }
    requires gates { vec_len gates ≡ vec_len works }
    ensures done { IfOk result (λ r. IsDone W.did N.heap works.items r.1.items r.0) }
    ensures boxes { OnOk result (HaveEmptyBoxes N.heap.opening.layout
        (map (λ b. finite.len (I.places b)) indexes.items)) }
    ensures lacks { IfErr result (λ why. LacksBox N.heap.opening.layout
        (map (λ b. finite.len (I.places b)) indexes.items) why) }
{
    let (store, passes) = Store::<N, I>::fresh(alloc, heap, seats, gates, indexes)?;
    Ok(work_and_stop(rt, alloc, store, passes, works)?)
}

// Works on the heap that N names, with which a store was recovered.
fn work_on_recovered<
    R: Threads + Sync,
    G: Gate + Drop + Send,
    I: Index + Send,
    W: Work<R, G> + Drop + Send,
    N: HeapName + Send + Sync,
>(
    rt: &R,
    alloc: Global,
    recovered: Recovered,
    gates: Vec<G>,
    indexes: Vec<I>,
    works: Vec<W>,
) -> Result<(Stopped, Vec<W>), OpenRefusal>
    requires named { recovered.heap ≡ N.heap }
    requires swept { recovered.swept ≡ true }
    requires callers { vec_len works ≡ N.heap.opening.callers }
    requires gates { vec_len gates ≡ vec_len works }
    ensures done { IfOk result (λ r. IsDone W.did N.heap works.items r.1.items r.0) }
    ensures boxes { OnOk result (HaveEmptyBoxes N.heap.opening.layout
        (map (λ b. finite.len (I.places b)) indexes.items)) }
    ensures lacks { IfErr result (λ why. LacksBox N.heap.opening.layout
        (map (λ b. finite.len (I.places b)) indexes.items) why) }
{
    let (store, passes) = Store::<N, I>::resume(alloc, recovered, gates, indexes)?;
    Ok(work_and_stop(rt, alloc, store, passes, works)?)
}

// Lends the store to each caller's work, and stops it.
fn work_and_stop<
    R: Threads + Sync,
    G: Gate + Drop + Send,
    I: Index + Send,
    W: Work<R, G> + Drop + Send,
    N: HeapName + Send + Sync,
>(
    rt: &R,
    alloc: Global,
    store: Store<N, I>,
    passes: Vec<Pass<G>>,
    works: Vec<W>,
) -> Result<(Stopped, Vec<W>), AllocError>
    requires all { AreAllCallers N.heap (map (λ p. p.ticket) passes.items) }
    requires first { All (IsFirstPass N.heap) passes.items }
    requires works { vec_len works ≡ N.heap.opening.callers }
    ensures { IfOk result (λ r. IsDone W.did N.heap works.items r.1.items r.0) }
{
    let mut at_work = brought_together(alloc, passes, works)?;
    work_each(rt, &store, at_work.as_mut_slice());
    let (passes, works) = taken_apart(alloc, at_work)?;
    let stopped = store.stop(alloc, passes)?;
    Ok((stopped, works))
}

// Lets each caller work in a thread of its own.
fn work_each<
    R: Threads + Sync,
    G: Gate + Send,
    I: Index + Send,
    W: Work<R, G> + Send,
    N: HeapName + Send + Sync,
>(rt: &R, store: &Store<N, I>, at_work: &mut [AtWork<G, W>])
    requires { All (λ a. IsFirstPass N.heap a.pass) at_work.old }
    ensures { HaveWorked W.did N.heap at_work.old at_work.new }
{
    for_each_mut(
        rt,
        at_work,
        MOST_CALLERS,
        &|_caller: usize, one: &mut AtWork<G, W>|
            requires { IsFirstPass N.heap one.now.pass }
            ensures { HasWorked W.did N.heap one.entry.now one.exit.now }
        { one.work.work(rt, store, &mut one.pass) },
    );
}

// Each pass with the work in its place.
fn brought_together<G: Gate + Drop, W: Drop>(
    alloc: Global,
    passes: Vec<Pass<G>>,
    works: Vec<W>,
) -> Result<Vec<AtWork<G, W>>, AllocError>
    requires as_many { vec_len works ≡ vec_len passes }
    ensures passes { IfOk result (λ r. map (λ a. a.pass) r.items ≡ passes.items) }
    ensures works { IfOk result (λ r. map (λ a. a.work) r.items ≡ works.items) }
{
    let mut works = works.into_iter();
    let mut at_work = Vec::with_capacity(alloc, passes.len())?;
    for pass in passes {
        let work = next_work(&mut works);
        at_work.push(AtWork { pass, work })?;
    }
    Ok(at_work)
}

// The next of the works. There is one.
fn next_work<W: Drop>(works: &mut IntoIter<W, Global>) -> W
    requires { 0 < length (into_iter_items works.old) }
    ensures { into_iter_items works.old ≡ result ∷ into_iter_items works.new }
{
    let Some(work) = works.next() else {
        unreachable!()
    };
    work
}

// The passes and the works, each by themselves.
fn taken_apart<G: Gate + Drop, W: Drop>(
    alloc: Global,
    at_work: Vec<AtWork<G, W>>,
) -> Result<(Vec<Pass<G>>, Vec<W>), AllocError>
    ensures passes { IfOk result (λ r. r.0.items ≡ map (λ a. a.pass) at_work.items) }
    ensures works { IfOk result (λ r. r.1.items ≡ map (λ a. a.work) at_work.items) }
{
    let mut passes = Vec::with_capacity(alloc, at_work.len())?;
    let mut works = Vec::with_capacity(alloc, at_work.len())?;
    for one in at_work {
        let AtWork { pass, work } = one;
        passes.push(pass)?;
        works.push(work)?;
    }
    Ok((passes, works))
}
