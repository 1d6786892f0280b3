//! The end of a store: its words, what it opened with, and one history for each unit, told by the
//! receipts of all callers. What `stop_store` ensures is the promise of the whole store: every
//! image that a crash then permits holds one cut of these histories.
#![tactic(auto)]

mod closed_stores;
mod headline;
mod told_histories;

pub use closed_stores::close_store;
pub use headline::{Stopped, are_whole, stop_store, stopped_stores_outlive_crashes};
