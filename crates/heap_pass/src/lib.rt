//! What callers and locks hold of a heap: a caller's pass, and parts whose type names the heap that
//! they are of.
#![tactic(auto)]

mod kept_receipt;
mod named;
mod padding;
mod pass;

pub use kept_receipt::last_receipt;
pub use named::{HeapName, Named, OfHeap};
pub use padding::{Apart, Padding};
pub use pass::Pass;
