// A store that was never used, lent to those who time it.
ghost use Rattle.std.specs.Prelude.{vec_len, ◌≡◌, IfOk};
ghost use Rattle.store_bench.specs.StoppedRuns.{WasStopped};

use index_kit::ProbeIndex;
use mont_base::{Fuel, Kinds, Layout};
use std::alloc::{AllocError, Global};
use std::thread::Threads;
use store::StoreRefusal;
use store_door::{Work, with_fresh};
use store_stop::Stopped;

// The letters of as many units of a kind as there may be.
const MAPS: &[u8] = b"mmmm";

const QUEUES: &[u8] = b"qqqq";

const GRAPHS: &[u8] = b"gggg";

// As many callers as a store may have.
const MOST: usize = 8;

// The kinds of units on which something is timed.
#[derive(Clone, Copy)]
pub(crate) enum Kind {
    Map,
    Queue,
    Graph,
}

// So many units of a kind, with so many slots each.
pub(crate) fn layout_of(kind: Kind, units: u64, slots: u64) -> Result<Layout, StoreRefusal> {
    let all = match kind {
        Kind::Map => MAPS,
        Kind::Queue => QUEUES,
        Kind::Graph => GRAPHS,
    };
    let letters = &all[..units.min(4) as usize];
    Ok(Layout::new(Kinds::of_letters(letters)?, slots)?)
}

// Opens a store, lends it to these, each in a thread of its own, and stops it. No gate cuts.
pub(crate) fn lend<R: Threads + Sync, W: Work<R, Fuel> + Drop + Send>(
    rt: &R,
    alloc: Global,
    layout: Layout,
    works: Vec<W>,
) -> Result<(Stopped, Vec<W>), StoreRefusal>
    ensures { IfOk result (λ r. WasStopped r.0) }
{
    if works.is_empty() || works.len() > MOST {
        return Err(StoreRefusal::Memory);
    }
    let gates = endless_gates(alloc, works.len())?;
    let indexes = empty_indexes(alloc, layout)?;
    Ok(with_fresh(rt, alloc, layout, gates, indexes, works)?)
}

// An index for each map unit.
pub(crate) fn empty_indexes(alloc: Global, layout: Layout) -> Result<Vec<ProbeIndex>, AllocError> {
    let mut indexes = Vec::new(alloc);
    for _map in 0..layout.maps() {
        indexes.push(ProbeIndex::new(alloc))?;
    }
    Ok(indexes)
}

// Lends a store to these, and gives them back when it was stopped.
pub(crate) fn lend_to<R: Threads + Sync, W: Work<R, Fuel> + Drop + Send>(
    rt: &R,
    alloc: Global,
    layout: Layout,
    works: Vec<W>,
) -> Result<Vec<W>, StoreRefusal> {
    match lend(rt, alloc, layout, works) {
        Ok((_stopped, works)) => Ok(works),
        Err(why) => Err(why),
    }
}

// So many gates, none of which ever cuts.
pub(crate) fn endless_gates(alloc: Global, many: usize) -> Result<Vec<Fuel>, AllocError>
    ensures { IfOk result (λ gates. vec_len gates ≡ many) }
{
    vec![in alloc; Fuel::endless(); many]
}
