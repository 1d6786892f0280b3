//! The report of a job that was run on a store: what its callers had as answers, beside the
//! histories that the store told when it was stopped and what recovery finds in an image of it.
#![tactic(auto)]

mod found_runs;
mod reported;

pub use reported::make_report;
