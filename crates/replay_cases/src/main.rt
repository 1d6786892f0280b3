//! Tries worked cases of schedules: which are refused and at which line, which have an event that
//! isn't allowed, and the text of the others' replay.
#![tactic(auto)]

mod drawn_replays;
mod event_draws;
mod replay_answers;
mod replay_outcome;
mod told_walks;
mod walks;
mod written_stores;

use anyhow::Result;
use case_file::try_cases;
use replay_answers::ReplayCases;
use std::process::ExitCode;

fn main(rt: HostRuntime) -> Result<ExitCode> {
    try_cases(&rt, &ReplayCases { alloc: rt.alloc() })
}
