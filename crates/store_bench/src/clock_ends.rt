// Ticks and syncs of one caller.
ghost use Rattle.std.specs.Prelude.{◌≡◌};
ghost use Rattle.store.specs.StoreCalls.{IsSamePass};

use crate::course::Course;
use crate::lent_store::{Kind, layout_of, lend_to};
use crate::timed_rounds::{nanos_since, time_calls};
use crate::timing_trouble::Trouble;
use heap_pass::{HeapName, Pass};
use index_kit::Index;
use mont_base::{Fuel, Op};
use std::sync::Wait;
use std::thread::Threads;
use std::time::{Clock, Instant};
use store::{Store, StoreRefusal};
use store_door::Work;

const SLOTS: u64 = 4096;

// What ends a round.
#[derive(Clone, Copy)]
pub(crate) enum End {
    // An advance that writes the round's records back.
    Tick,
    // A sync.
    Sync,
}

// So many ends, each after these operations.
#[derive(Drop)]
struct Rounds {
    end: End,
    ops: Vec<Op>,
    ends: u64,
    // The nanoseconds that the ends took.
    came: Result<u64, Trouble>,
}

impl<R: Wait + Clock> Work<R, Fuel> for Rounds {
    ghost did = { λ _ _ _ _. Unit {0} };

    fn work<N: HeapName, I: Index>(&mut self, rt: &R, store: &Store<N, I>, pass: &mut Pass<Fuel>) {
        self.came = go_round(rt, store, pass, self.end, &self.ops, self.ends);
    }
}

// The nanoseconds of so many ends, each after so many puts.
pub(crate) fn time_ends<R: AllocGlobal + Threads + Wait + Clock + Sync>(
    rt: &R,
    end: End,
    puts: u64,
    ends: u64,
) -> Result<u64, Trouble> {
    let alloc = rt.alloc();
    let layout = layout_of(Kind::Map, 1, SLOTS)?;
    let rounds = Rounds {
        end,
        ops: Course::puts(alloc, puts)?,
        ends,
        came: Ok(0),
    };
    match lend_to(rt, alloc, layout, vec![in alloc; rounds]?)?.pop() {
        Some(rounds) => rounds.came,
        None => Ok(0),
    }
}

fn go_round<R: Wait + Clock, N: HeapName, I: Index>(
    rt: &R,
    store: &Store<N, I>,
    pass: &mut Pass<Fuel>,
    end: End,
    ops: &[Op],
    ends: u64,
) -> Result<u64, Trouble>
    requires { pass.old.ticket.table ≡ N.heap.table }
    ensures { IsSamePass pass.old pass.new }
{
    let mut nanos = 0u64;
    for _round in 0..ends {
        time_calls(rt, store, pass, ops)?;
        let took = match end {
            End::Tick => time_tick(rt, store, pass)?,
            End::Sync => time_sync(rt, store, pass)?,
        };
        nanos = nanos.saturating_add(took);
    }
    Ok(nanos)
}

// The second of three ticks. The records of an epoch are written back by the second advance after
// it; the others write nothing.
fn time_tick<R: Wait + Clock, N: HeapName, I: Index>(
    rt: &R,
    store: &Store<N, I>,
    pass: &mut Pass<Fuel>,
) -> Result<u64, Trouble>
    requires { pass.old.ticket.table ≡ N.heap.table }
    ensures { IsSamePass pass.old pass.new }
{
    tick(rt, store, pass)?;
    let begin = Instant::now(rt)?;
    let ticked = store.tick(rt, pass);
    let nanos = nanos_since(rt, begin)?;
    if let Err(why) = ticked {
        return Err(StoreRefusal::from(why).into());
    }
    tick(rt, store, pass)?;
    Ok(nanos)
}

fn tick<R: Wait, N: HeapName, I: Index>(
    rt: &R,
    store: &Store<N, I>,
    pass: &mut Pass<Fuel>,
) -> Result<(), StoreRefusal>
    requires { pass.old.ticket.table ≡ N.heap.table }
    ensures { IsSamePass pass.old pass.new }
{
    store.tick(rt, pass)?;
    Ok(())
}

fn time_sync<R: Wait + Clock, N: HeapName, I: Index>(
    rt: &R,
    store: &Store<N, I>,
    pass: &mut Pass<Fuel>,
) -> Result<u64, Trouble>
    requires { pass.old.ticket.table ≡ N.heap.table }
    ensures { IsSamePass pass.old pass.new }
{
    let begin = Instant::now(rt)?;
    let synced = store.sync(rt, pass);
    let nanos = nanos_since(rt, begin)?;
    match synced {
        Ok(_clock) => Ok(nanos),
        Err(why) => Err(StoreRefusal::from(why).into()),
    }
}

pub(crate) fn sync<R: Wait, N: HeapName, I: Index>(
    rt: &R,
    store: &Store<N, I>,
    pass: &mut Pass<Fuel>,
) -> Result<(), StoreRefusal>
    requires { pass.old.ticket.table ≡ N.heap.table }
    ensures { IsSamePass pass.old pass.new }
{
    store.sync(rt, pass)?;
    Ok(())
}
