// A store that is recovered from what a crash left, and swept: at times the sweep is cut first, and
// the store crashes again.
ghost use Rattle.std.specs.Prelude.{◌≡◌, true, IfOk};

use crate::crashed_images::{have_same_units, picked};
use crate::drawn_operations::Draws;
use mont_base::{Fuel, Steady};
use mont_image::Image;
use plain::Contents;
use recover::{Recovered, recover};
use std::alloc::Global;
use std::test::Fail;
use std::thread::Threads;

// How many callers a store has.
pub(crate) const CALLERS: u64 = 5;

// How many threads look for what an image holds.
const WORKERS: u64 = 3;

// At most so many sweeps of a store are cut.
const CUT_SWEEPS: u64 = 2;

// What a crash left of a store.
#[derive(Drop)]
pub(crate) struct Crashed {
    pub(crate) image: Image,
    // What it has to hold.
    pub(crate) contents: Contents,
}

// The store of what a crash left, after some sweeps that may be cut. It is swept.
pub(crate) fn swept(
    rt: &(impl Threads + Sync),
    alloc: Global,
    draws: &mut Draws,
    crashed: Crashed,
) -> Result<Recovered, Fail>
    ensures swept { IfOk result (λ r. r.swept ≡ true) }
    ensures callers { IfOk result (λ r. r.heap.opening.callers ≡ 5) }
{
    let mut left = crashed;
    for _ in 0..draws.below(CUT_SWEEPS + 1) {
        left.image = behind_cut(rt, alloc, draws, &left)?;
    }
    let mut store = opened(rt, alloc, &left)?;
    store.sweep(&mut Steady)?;
    Ok(store)
}

// An image that a crash leaves of a sweep that may be cut.
fn behind_cut(
    rt: &(impl Threads + Sync),
    alloc: Global,
    draws: &mut Draws,
    crashed: &Crashed,
) -> Result<Image, Fail> {
    let mut store = opened(rt, alloc, crashed)?;
    let steps = draws.below(store.lost().saturating_mul(2).saturating_add(1));
    let _swept = store.sweep(&mut Fuel::new(steps));
    let words = store.stop(alloc)?;
    picked(alloc, &words, draws.number())
}

// The store of what a crash left, for all callers. It holds what it has to.
fn opened(rt: &(impl Threads + Sync), alloc: Global, crashed: &Crashed) -> Result<Recovered, Fail>
    ensures { IfOk result (λ r. r.heap.opening.callers ≡ 5) }
{
    let Crashed { image, contents } = crashed;
    if image.old {
        return Err(Fail::new("an image of the first version"));
    }
    let store = recover(rt, alloc, image, WORKERS, CALLERS)?;
    if store.clock() != image.clock() || !have_same_units(store.contents(), contents) {
        return Err(Fail::new("an image holds something else"));
    }
    Ok(store)
}
