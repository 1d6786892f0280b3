//! Tries worked cases of jobs: what the words and the job come to, on devices in memory or on
//! files.
#![tactic(auto)]

mod came_of_process;
mod devices_told;
mod ended_process;
mod failing_table;
mod image_told;
mod job_answers;
mod job_trial;
mod number_ranges;
mod short_answer;
mod stop_table;

use anyhow::Result;
use job_trial::try_jobs;
use std::process::ExitCode;

fn main(rt: HostRuntime) -> Result<ExitCode> {
    try_jobs(&rt)
}
