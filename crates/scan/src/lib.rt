//! What an image holds, slot by slot, found by several workers: the records that recovery keeps,
//! and the slots that it closes.
#![tactic(auto)]

mod scanned;
mod slots;
mod workers;

pub use scanned::{Scan, ScanRefusal};
pub use workers::scan;
