//! What a caller does beside its operations: it tells others what it has seen, hears what they
//! have, and waits until all of it is durable.
#![tactic(auto)]

mod sync_refusal;
mod syncing;
mod telling;

pub use sync_refusal::SyncRefusal;
pub use syncing::sync;
pub use telling::{hear, tell};
