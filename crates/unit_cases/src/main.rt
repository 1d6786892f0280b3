//! Tries worked cases of units: layouts and texts, what operations do and what histories lead to,
//! what callers have seen, and what recovery finds in images.
#![tactic(auto)]

mod answers;
mod caller_answer;
mod case_rows;
mod crash_answer;
mod device_answer;
mod entry_shown;
mod history_answer;
mod history_told;
mod image_answer;
mod image_findings;
mod layout_answer;
mod operation_answer;
mod step_told;
mod text_answer;

use answers::UnitCases;
use anyhow::Result;
use case_file::try_cases;
use std::process::ExitCode;

fn main(rt: HostRuntime) -> Result<ExitCode> {
    try_cases(&rt, &UnitCases { alloc: rt.alloc() })
}
