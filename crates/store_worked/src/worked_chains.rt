// What is done with stores in chains of rounds.
use crate::chained_rounds::{Chain, first_round, go_on};
use crate::threaded_callers::{Part, TOTAL};
use std::alloc::Global;
use std::sync::Wait;
use std::test::Fail;
use std::thread::Threads;

// Rounds of callers that call, tick and sync, on a unit of each kind.
fn follow(rt: &(impl Threads + Wait + Sync), alloc: Global, seed: u64) -> Result<(), Fail> {
    let mut chain = Chain::new(b"mqgo", 32, Part::TakesTurns, seed)?;
    let crashed = first_round(rt, alloc, &mut chain)?;
    go_on(rt, alloc, &mut chain, crashed, 49)
}

// Rounds of callers that shift amounts between four maps, after one in which the first numbers are
// put there.
fn keep_the_total(rt: &(impl Threads + Wait + Sync), alloc: Global, seed: u64) -> Result<(), Fail> {
    let mut chain = Chain::new(b"mmmm", 8, Part::Puts, seed)?;
    chain.total = Some(TOTAL);
    let crashed = first_round(rt, alloc, &mut chain)?;
    chain.part = Part::Shifts;
    go_on(rt, alloc, &mut chain, crashed, 250)
}

#[test]
fn threads_leave_a_legal_history(rt: HostRuntime) -> Result<(), Fail> {
    let mut chain = Chain::new(b"mmmmqgo", 256, Part::Calls, 0)?;
    let _crashed = first_round(&rt, rt.alloc(), &mut chain)?;
    Ok(())
}

#[test]
fn each_round_goes_on_from_a_cut(rt: HostRuntime) -> Result<(), Fail> {
    follow(&rt, rt.alloc(), 0)
}

#[test]
fn each_round_of_other_draws_goes_on_from_a_cut(rt: HostRuntime) -> Result<(), Fail> {
    follow(&rt, rt.alloc(), 1)
}

#[test]
fn shifts_keep_the_total(rt: HostRuntime) -> Result<(), Fail> {
    keep_the_total(&rt, rt.alloc(), 2)
}

#[test]
fn shifts_of_second_draws_keep_the_total(rt: HostRuntime) -> Result<(), Fail> {
    keep_the_total(&rt, rt.alloc(), 3)
}

#[test]
fn shifts_of_third_draws_keep_the_total(rt: HostRuntime) -> Result<(), Fail> {
    keep_the_total(&rt, rt.alloc(), 4)
}

#[test]
fn shifts_of_fourth_draws_keep_the_total(rt: HostRuntime) -> Result<(), Fail> {
    keep_the_total(&rt, rt.alloc(), 5)
}
