//! The store: the heap, each unit behind a lock of its own, and the advancer behind another.
//! Callers share it, each with a pass of its own; what `Store::stop` ensures is the promise of the
//! whole store.
#![tactic(auto)]

mod any_calls;
mod first_opening;
mod graph_calls;
mod map_calls;
mod open_refusal;
mod ordered_calls;
mod queue_calls;
mod range_calls;
mod refusal_words;
mod resuming;
mod shift_locks;
mod shifting;
mod store;
mod store_closing;
mod store_end;
mod store_opening;
mod store_refusal;
mod ticking;
mod unit_at;
mod unit_locks;
mod unit_structure;

pub use open_refusal::OpenRefusal;
pub use shard_map::ShiftRefusal;
pub use store::Store;
pub use store_refusal::StoreRefusal;
