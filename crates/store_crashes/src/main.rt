//! Two stores that crash: one of a queue, which goes on after its crash, and one of two maps
//! between which callers transfer amounts, whose total stands in what the crash leaves.
#![tactic(auto)]

mod opened_account;
mod queue_turn;
mod resumed;
mod transferred_amounts;

use resumed::{crash_and_resume, tell};
use std::io;
use transferred_amounts::total_kept;

fn main(rt: HostRuntime) -> io::Result<()> {
    match crash_and_resume(&rt) {
        Ok((stopped, turns)) => tell(&rt, &stopped, &turns)?,
        Err(why) => println!(rt; "given up: {why:?}")?,
    }
    match total_kept(&rt) {
        Ok(total) => println!(rt; "total: {total}"),
        Err(why) => println!(rt; "given up: {why:?}"),
    }
}
