//! One operation over two units, both or neither: room is made in both, they register at one epoch,
//! a record is written in each, and each leaves with an entry of that epoch, the lower unit first.
//!
//! Where a caller is cut in any of these, both units are halted for good. An entry with which the
//! lower unit has left by then stands alone, and is in the cut of no image that a crash permits.
#![tactic(auto)]

mod pair_beginning;
mod pair_committing;
mod pair_guard;
mod pair_writing;

pub use pair_beginning::begin_pair;
pub use pair_committing::commit_pair;
pub use pair_guard::{PairCut, PairGuard, PairReceipt, PairRefusal};
pub use pair_writing::write_pair;
