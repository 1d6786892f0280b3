//! A run of a job: the lines of each caller in a thread of their own, beside a thread that moves
//! the clock on.
//!
//! The store stands after two traits: what a caller asks of it, and what its advancer does. So
//! what a run leaves is known from what the store's answers tell, whatever the threads did.
#![tactic(auto)]

mod advances;
mod desks;
mod run;

pub use advances::Advances;
pub use run::{Ran, run_job};
