//! Jobs on a store: each caller's lines on a thread of its own, beside the advancer. The store
//! itself is the crate `store`, whose public items are exported here again.
#![tactic(auto)]

mod asked_store;
mod asking;
mod attempting;
mod running;

pub use job_run::Ran;
pub use running::run;
pub use store::{OpenRefusal, Store};
