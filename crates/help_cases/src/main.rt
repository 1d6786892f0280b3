//! Tries worked cases of refusals: the sentence on a refused line of a job or of a schedule, and
//! on words of the command line.
#![tactic(auto)]

mod answers;

use answers::HelpCases;
use anyhow::Result;
use case_file::try_cases;
use std::process::ExitCode;

fn main(rt: HostRuntime) -> Result<ExitCode> {
    try_cases(&rt, &HelpCases { alloc: rt.alloc() })
}
