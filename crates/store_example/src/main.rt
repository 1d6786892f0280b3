//! A store on one page: two callers, each in a thread of its own, put a pair and wait until it is
//! durable; the store is stopped, an image is picked as a crash may leave it, and recovery rebuilds
//! the structures from it.
#![tactic(auto)]

ghost use Rattle.std.specs.Prelude.{IfOk};
ghost use Rattle.plain.specs.States.{states_of};
ghost use Rattle.store_example.specs.Outlived.{OutlivesStop};

mod crash;
mod pair;

use crash::recover_after_crash;
use index_kit::SortedIndex;
use mont_base::{Kinds, Layout, Steady, Text};
use pair::PutsPair;
use plain::{Contents, UnitState};
use std::io;
use std::sync::Wait;
use std::thread::Threads;
use store::StoreRefusal;
use store_door::with_fresh;
use store_stop::Stopped;

fn main(rt: HostRuntime) -> io::Result<()> {
    let Ok((_stopped, contents)) = stop_and_recover(&rt) else {
        return println!(rt; "no store could be opened");
    };
    for caller in 0..2 {
        let kept = if has_pair(&contents, caller) {
            "kept"
        } else {
            "lost"
        };
        println!(rt; "caller {caller}: {kept}")?;
    }
    Ok(())
}

// A store of a map, a queue and a graph on which two callers worked, and what recovery rebuilds of
// it after a crash.
fn stop_and_recover<R: AllocGlobal + Threads + Wait + Sync>(
    rt: &R,
) -> Result<(Stopped, Contents), StoreRefusal>
    ensures { IfOk result (λ r. OutlivesStop r.0 (states_of r.1)) }
{
    let alloc = rt.alloc();
    let layout = Layout::new(Kinds::of_letters(b"mqg")?, 8)?;
    let gates = vec![in alloc; Steady, Steady]?;
    let indexes = vec![in alloc; SortedIndex::new(alloc)]?;
    let works = vec![in alloc; PutsPair { durable: None }, PutsPair { durable: None }]?;
    let (stopped, _works) = with_fresh(rt, alloc, layout, gates, indexes, works)?;
    let contents = recover_after_crash(alloc, &stopped)?;
    Ok((stopped, contents))
}

// Whether the map has the pair of a caller.
fn has_pair(contents: &Contents, caller: u64) -> bool {
    match contents.units.get(0) {
        Some(UnitState::Map { state }) => {
            state.get(&Text::of_number(caller)) == Some(Text::of_number(10))
        }
        _ => false,
    }
}
