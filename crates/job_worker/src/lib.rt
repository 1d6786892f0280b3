//! What one caller of a job does: its lines in order, each with what came of it.
//!
//! The store stands after a trait, which says what its answers tell the caller. That is enough for
//! the outcomes to be those of a faithful report, whatever the other callers did.
#![tactic(auto)]

mod asks;
mod carried_lines;
mod outcomes;
mod worker;

pub use asks::Asks;
pub use worker::work;
