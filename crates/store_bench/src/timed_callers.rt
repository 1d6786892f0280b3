// Callers that call a store beside each other, each in a thread of its own.
ghost use Rattle.std.specs.Prelude.{◌≡◌};
ghost use Rattle.store.specs.StoreCalls.{IsSamePass};

use crate::course::{Course, Turns};
use crate::lent_store::{Kind, layout_of, lend_to};
use crate::timed_plan::{Callers, Timed};
use crate::timed_rounds::go_through;
use crate::timing_trouble::Trouble;
use heap_pass::{HeapName, Pass};
use index_kit::Index;
use mont_base::Fuel;
use std::alloc::{AllocError, Global};
use std::sync::Wait;
use std::sync::atomic::{AtomicU64, Ordering};
use std::thread::Threads;
use std::time::Clock;
use store::Store;
use store_door::Work;

const SLOTS: u64 = 4096;

// One of those who share a store.
#[derive(Drop)]
struct Sharer<'a> {
    part: Part,
    // How many callers are done.
    done: &'a AtomicU64,
    // The nanoseconds that its calls took.
    came: Result<u64, Trouble>,
}

// What it does.
#[derive(Drop)]
enum Part {
    // Goes through a course until so many of its calls were timed.
    Calls { course: Course, calls: u64 },
    // Moves the clock on until so many callers are done.
    Ticks { callers: u64 },
}

impl<'a, R: Wait + Clock> Work<R, Fuel> for Sharer<'a> {
    ghost did = { λ _ _ _ _. Unit {0} };

    fn work<N: HeapName, I: Index>(&mut self, rt: &R, store: &Store<N, I>, pass: &mut Pass<Fuel>) {
        match &self.part {
            Part::Calls { course, calls } => {
                self.came = go_through(rt, store, pass, course, *calls);
                self.done.fetch_add(1, Ordering::SeqCst);
            }
            Part::Ticks { callers } => tick_along(rt, store, pass, *callers, self.done),
        }
    }
}

// The nanoseconds that so many calls of each caller took the slowest.
pub(crate) fn time_callers<R: AllocGlobal + Threads + Wait + Clock + Sync>(
    rt: &R,
    work: Timed,
    by: Callers,
    size: u64,
    calls: u64,
) -> Result<u64, Trouble> {
    let alloc = rt.alloc();
    let kind = match work {
        Timed::Put | Timed::Get | Timed::Del => Kind::Map,
        Timed::Enq | Timed::Deq => Kind::Queue,
        Timed::AddEdge | Timed::Degree => Kind::Graph,
    };
    let layout = layout_of(kind, by.many, SLOTS)?;
    let done = AtomicU64::new(0);
    let sharers = sharers_of(alloc, work, by, size, calls, &done)?;
    slowest(&lend_to(rt, alloc, layout, sharers)?)
}

// Those who share a store: each caller, and the one who moves the clock on if there is one.
fn sharers_of(
    alloc: Global,
    work: Timed,
    by: Callers,
    size: u64,
    calls: u64,
    done: &AtomicU64,
) -> Result<Vec<Sharer<'_>>, AllocError> {
    let mut sharers = Vec::new(alloc);
    for caller in 0..by.many {
        let turns = Turns {
            caller,
            units: by.many,
            own: by.own,
        };
        let course = Course::of(alloc, work, turns, size)?;
        sharers.push(sharer_of(Part::Calls { course, calls }, done))?;
    }
    if by.advancer {
        sharers.push(sharer_of(Part::Ticks { callers: by.many }, done))?;
    }
    Ok(sharers)
}

fn sharer_of(part: Part, done: &AtomicU64) -> Sharer<'_> {
    Sharer {
        part,
        done,
        came: Ok(0),
    }
}

// Moves the clock on until so many are done.
fn tick_along<R: Wait, N: HeapName, I: Index>(
    rt: &R,
    store: &Store<N, I>,
    pass: &mut Pass<Fuel>,
    many: u64,
    done: &AtomicU64,
)
    requires { pass.old.ticket.table ≡ N.heap.table }
    ensures { IsSamePass pass.old pass.new }
{
    for _ in rt.forever() {
        if done.load(Ordering::SeqCst) >= many {
            return;
        }
        let _clock = store.tick(rt, pass);
    }
    unreachable!()
}

// What the slowest took, where all came to their end.
fn slowest(sharers: &[Sharer]) -> Result<u64, Trouble> {
    let mut most = 0;
    for sharer in sharers {
        most = sharer.came?.max(most);
    }
    Ok(most)
}
