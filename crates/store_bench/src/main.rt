//! Times the calls of a store.
#![tactic(auto)]

mod asked_ops;
mod clock_ends;
mod course;
mod lent_store;
mod made_calls;
mod plan_words;
mod timed_callers;
mod timed_plan;
mod timed_rounds;
mod timing_trouble;
mod whole_stores;

use clock_ends::{End, time_ends};
use plan_words::plan_of;
use std::alloc::{AllocError, Global};
use std::env;
use std::env::Args;
use std::process::ExitCode;
use std::sync::Wait;
use std::thread::Threads;
use std::time::Clock;
use timed_callers::time_callers;
use timed_plan::{Plan, Subject};
use timing_trouble::Trouble;
use whole_stores::{time_openings, time_recoveries, time_stops};

// The exit statuses: words of no form, and nothing timed.
const BAD_WORDS: u8 = 2;

const UNTIMED: u8 = 1;

fn main(rt: HostRuntime) -> ExitCode {
    let Ok(args) = env::args(&rt) else {
        return ExitCode::from(BAD_WORDS);
    };
    let Ok(words) = behind_first(rt.alloc(), args) else {
        return ExitCode::from(UNTIMED);
    };
    if words.is_empty() {
        return ExitCode::from(0);
    }
    let Some(plan) = plan_of(&words) else {
        let _ = println!(rt; "store_bench: bad words");
        return ExitCode::from(BAD_WORDS);
    };
    match time(&rt, plan) {
        Ok(nanos) => {
            let tenths = tenths_of(nanos, plan.calls);
            let _ = println!(rt; "ns {}.{}", tenths / 10, tenths % 10);
            ExitCode::from(0)
        }
        Err(trouble) => {
            let _ = println!(rt; "store_bench: {trouble}");
            ExitCode::from(UNTIMED)
        }
    }
}

// The words after the program's name.
fn behind_first(alloc: Global, args: Args) -> Result<Vec<String>, AllocError> {
    let mut rest = args;
    let _ = rest.next();
    let mut words = Vec::new(alloc);
    for word in rest {
        words.push(word)?;
    }
    Ok(words)
}

// The nanoseconds of what a plan asks for.
fn time<R: AllocGlobal + Threads + Wait + Clock + Sync>(
    rt: &R,
    plan: Plan,
) -> Result<u64, Trouble> {
    let Plan {
        subject,
        size,
        calls,
    } = plan;
    match subject {
        Subject::Calls { work, by } => time_callers(rt, work, by, size, calls),
        Subject::Tick => time_ends(rt, End::Tick, size, calls),
        Subject::Sync => time_ends(rt, End::Sync, size, calls),
        Subject::Stop => time_stops(rt, size, calls),
        Subject::Open => time_openings(rt, size, calls),
        Subject::Recover => time_recoveries(rt, size, calls),
    }
}

// Tenths of a nanosecond for each call.
fn tenths_of(nanos: u64, calls: u64) -> u128 {
    match (u128::from(nanos) * 10).checked_div(u128::from(calls)) {
        Some(tenths) => tenths,
        None => 0,
    }
}
