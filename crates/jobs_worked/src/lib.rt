//! Worked runs of jobs on a store: callers that meet in the middle of their calls, a caller that
//! finds no memory beside one that does, one job that is run a hundred times, and a job of as many
//! lines as there may be. Each report is judged by the check of reports.
//!
//! The crate has tests alone: beside the store's calls they would have all of it proved again.
#![tactic(auto)]

#[cfg(test)]
mod drawn_jobs;
#[cfg(test)]
mod drawn_runs;
#[cfg(test)]
mod ended_runs;
#[cfg(test)]
mod meeting_callers;
#[cfg(test)]
mod meeting_gates;
#[cfg(test)]
mod refused_memory;
#[cfg(test)]
mod reports;
