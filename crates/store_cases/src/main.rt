//! Tries worked cases of a store: scripts of calls by several callers, and what each is answered.
#![tactic(auto)]

mod drawn_calls;
mod drawn_work;
mod empty_box;
mod entry_words;
mod history_lines;
mod judged_round;
mod left_looks;
mod left_words;
mod plain_units;
mod refusing_index;
mod round_ends;
mod round_openings;
mod round_play;
mod scene;
mod script_fault;
mod script_runs;
mod script_words;
mod scripted_caller;
mod shift_words;
mod store_trial;
mod told_calls;
mod told_images;
mod works_done;

use anyhow::Result;
use std::process::ExitCode;
use store_trial::try_all;

fn main(rt: HostRuntime) -> Result<ExitCode> {
    try_all(&rt)
}
