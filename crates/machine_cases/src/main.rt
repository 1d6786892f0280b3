//! Tries worked cases of the abstract machine: its steps, what its core shows between them and what
//! crashes leave; and the same steps made by calls on a heap, which is stopped before each.
#![tactic(auto)]

mod call_lines;
mod crash_images;
mod drawn_puts;
mod engine;
mod engine_ends;
mod event_lines;
mod following;
mod found_records;
mod held_cuts;
mod line_fault;
mod line_numbers;
mod machine_answers;
mod machine_run;
mod many_steps;
mod moving_clock;
mod opened_cores;
mod operating;
mod permits;
mod reopened;
mod run_trial;
mod shown_parts;
mod step_effects;
mod stopped_calls;
mod store_line;

use anyhow::Result;
use run_trial::try_runs;
use std::process::ExitCode;

fn main(rt: HostRuntime) -> Result<ExitCode> {
    try_runs(&rt)
}
