//! The generated job: for each number one job of four callers, and the summary of what a crash
//! leaves of its run.
//!
//! The definitions stand in `specs/`: the words of each caller, the lines that are made of them,
//! and how the summary is spelled.
#![tactic(auto)]

mod caller_words;
mod digits;
mod generated;
mod generated_lines;
mod summary;
mod totals;

pub use digits::number_spelled;
pub use generated::big_job;
pub use summary::big_summary;
