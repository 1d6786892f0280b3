//! Tries worked cases of the texts of jobs and of reports: which are refused, at which line and
//! why, which are read back byte for byte, which reports are faithful to a job or agree with an
//! image, and how one is drawn; and of what is made of a number.
#![tactic(auto)]

mod agreement;
mod changed_reports;
mod generated_answer;
mod job_answer;
mod job_outcome;
mod judged;
mod records;
mod report_answer;
mod report_outcome;
mod text_answers;
mod text_trial;
mod verdict_answer;

use anyhow::Result;
use std::process::ExitCode;
use text_trial::try_texts;

fn main(rt: HostRuntime) -> Result<ExitCode> {
    try_texts(&rt)
}
