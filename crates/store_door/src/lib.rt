//! One door to a store: a call from a layout, or from an image, to the stop. It makes the heap, its
//! name and the store, and lends the store to the work of each caller in a thread of its own.
#![tactic(auto)]

mod door;

pub use door::{Work, with_fresh, with_recovered};
