//! A queue as a unit of a store: its items stand in the records of a region, and in memory by
//! rising serial.
#![tactic(auto)]

mod pqueue;
mod queue_plan;
mod queued;
mod rebuilding;

pub use pqueue::PQueue;
pub use queued::Queued;
