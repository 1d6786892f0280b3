//! An index of a map unit that keeps its keys in order, so that it also tells how many are below
//! another, which is the greatest up to another, and which are between two.
#![tactic(auto)]

mod order_index;
mod stretch;

pub use order_index::OrderIndex;
pub use stretch::Stretch;
