// A store of a queue that goes on after a crash: a caller takes a turn, the store is stopped, and
// an image is picked as a crash may leave it. The store is recovered from it, a caller takes a turn
// on what it holds, and it is stopped again.
ghost use Rattle.std.specs.Prelude.{◌≡◌, false, IfOk};

use crate::queue_turn::Turn;
use index_kit::SortedIndex;
use mont_base::{Kinds, Layout, Steady};
use mont_image::{Image, pick};
use recover::recover;
use std::io;
use std::sync::Wait;
use std::thread::Threads;
use store::StoreRefusal;
use store_door::{with_fresh, with_recovered};
use store_stop::Stopped;

// Every third word is lost in the crash, if it isn't durable.
const MASK: u64 = 0xB6DB_6DB6_DB6D_B6DB;

/// Tells what the second store began with, what its caller took, and how much was done on it.
pub fn tell(rt: &HostRuntime, stopped: &Stopped, turns: &[Turn]) -> io::Result<()> {
    for unit in stopped.base.units.as_slice() {
        println!(rt; "opened again with {} item", unit.size())?;
    }
    for turn in turns {
        println!(rt; "took {:?}", turn.took)?;
    }
    for history in stopped.histories.as_slice() {
        println!(rt; "stopped again after {} calls", history.len())?;
    }
    Ok(())
}

/// What the store leaves that goes on from the image of a crash, after a second turn.
pub fn crash_and_resume<R: AllocGlobal + Threads + Wait + Sync>(
    rt: &R,
) -> Result<(Stopped, Vec<Turn>), StoreRefusal> {
    let alloc = rt.alloc();
    let image = crash(rt)?;
    let mut store = recover(rt, alloc, &image, 1, 1)?;
    store.sweep(&mut Steady)?;
    let gates = vec![in alloc; Steady]?;
    let turns = vec![in alloc; Turn::new(2)]?;
    Ok(with_recovered(rt, alloc, store, gates, no_indexes(rt), turns)?)
}

// The image that a crash leaves of a store of one queue after one turn.
fn crash<R: AllocGlobal + Threads + Wait + Sync>(rt: &R) -> Result<Image, StoreRefusal>
    ensures { IfOk result (λ image. image.old ≡ false) }
{
    let alloc = rt.alloc();
    let layout = Layout::new(Kinds::of_letters(b"q")?, 8)?;
    let gates = vec![in alloc; Steady]?;
    let turns = vec![in alloc; Turn::new(1)]?;
    let (stopped, _turns) = with_fresh(rt, alloc, layout, gates, no_indexes(rt), turns)?;
    Ok(pick(alloc, &stopped.words, MASK)?)
}

// A queue needs no index.
fn no_indexes<R: AllocGlobal>(rt: &R) -> Vec<SortedIndex> {
    Vec::new(rt.alloc())
}
