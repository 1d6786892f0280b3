//! The bytes of a source to its end, or its first so many where it has more.
//!
//! What is taken of the source stands in `specs/`.
#![tactic(auto)]

mod bounded;
mod read_refusal;

pub use bounded::read_at_most;
pub use read_refusal::ReadRefusal;
