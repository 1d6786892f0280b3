//! The slots of one unit: which are free, which hold records, which wait to be closed, and how a
//! record is written into a slot and a slot is closed.
//!
//! A region owns its unit's seat, so whoever holds the region makes the unit's steps.
#![tactic(auto)]

mod books;
mod changes;
mod finding;
mod putting;
mod reclaiming;
mod region;
mod region_beginning;
mod sweeping;

pub use books::Written;
pub use region::Region;
