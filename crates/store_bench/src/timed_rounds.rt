// Timed rounds of a caller.
ghost use Rattle.std.specs.Prelude.{◌≡◌};
ghost use Rattle.store.specs.StoreCalls.{IsSamePass};

use crate::asked_ops::can_all_be_asked;
use crate::course::Course;
use crate::made_calls::call_all;
use crate::timing_trouble::Trouble;
use heap_pass::{HeapName, Pass};
use index_kit::Index;
use mont_base::{Fuel, Op};
use std::sync::Wait;
use std::time::{Clock, Instant};
use store::Store;

// The nanoseconds since then.
pub(crate) fn nanos_since<R: Clock>(rt: &R, begin: Instant) -> Result<u64, Trouble> {
    let took = begin.elapsed(rt)?;
    Ok(took.as_nanos().min(u64::MAX as u128) as u64)
}

// Goes through a course, until so many of its timed calls are made, and answers the nanoseconds
// that these took.
pub(crate) fn go_through<R: Wait + Clock, N: HeapName, I: Index>(
    rt: &R,
    store: &Store<N, I>,
    pass: &mut Pass<Fuel>,
    course: &Course,
    calls: u64,
) -> Result<u64, Trouble>
    requires { pass.old.ticket.table ≡ N.heap.table }
    ensures { IsSamePass pass.old pass.new }
{
    time_calls(rt, store, pass, &course.first)?;
    let (mut nanos, mut left) = (0u64, calls);
    let long = (course.timed.len() as u64).max(1);
    for _round in 0..calls.div_ceil(long) {
        let many = left.min(long);
        nanos = nanos.saturating_add(time_round(rt, store, pass, course, many)?);
        left = left.saturating_sub(many);
    }
    Ok(nanos)
}

// One round, of which so many timed calls are made.
fn time_round<R: Wait + Clock, N: HeapName, I: Index>(
    rt: &R,
    store: &Store<N, I>,
    pass: &mut Pass<Fuel>,
    course: &Course,
    many: u64,
) -> Result<u64, Trouble>
    requires { pass.old.ticket.table ≡ N.heap.table }
    ensures { IsSamePass pass.old pass.new }
{
    time_calls(rt, store, pass, front(&course.before, many))?;
    let nanos = time_calls(rt, store, pass, front(&course.timed, many))?;
    time_calls(rt, store, pass, front(&course.after, many))?;
    Ok(nanos)
}

// Makes each of these calls once, and answers the nanoseconds that they took.
pub(crate) fn time_calls<R: Wait + Clock, N: HeapName, I: Index>(
    rt: &R,
    store: &Store<N, I>,
    pass: &mut Pass<Fuel>,
    ops: &[Op],
) -> Result<u64, Trouble>
    requires { pass.old.ticket.table ≡ N.heap.table }
    ensures { IsSamePass pass.old pass.new }
{
    if !can_all_be_asked(&store.heap().layout(), ops) {
        return Err(Trouble::NoUnit);
    }
    let begin = Instant::now(rt)?;
    call_all(rt, store, pass, ops)?;
    nanos_since(rt, begin)
}

// So many of the operations, or all where there are fewer.
fn front(ops: &[Op], many: u64) -> &[Op] {
    let end = many.min(ops.len() as u64) as usize;
    &ops[..end]
}
