//! One operation of a unit, step by step: room is made and the unit registers, each change is
//! written, and the unit leaves with one entry. An operation that changes nothing is one step.
//!
//! Where a caller is cut in any of these, the unit is halted for good and gets no entry.
#![tactic(auto)]

mod answer_place;
mod beginning;
mod committing;
mod guard;
mod halting;
mod reading;
mod writing;

pub use beginning::{begin, begin_at, make_room};
pub use committing::{commit, keep_commit};
pub use guard::{AtRefusal, Guard, GuardRefusal};
pub use halting::halt;
pub use reading::{keep_read, read};
pub use writing::{abandon, change};
