//! Indexes of map units: finite maps from texts to places, as a boxed trait, and two kinds of them.
#![tactic(auto)]

mod boxed_index;
mod cells;
mod home;
mod index;
mod probe_index;
mod ring;
mod sorted_index;
mod table;

pub use index::Index;
pub use probe_index::ProbeIndex;
pub use sorted_index::SortedIndex;
