//! The abstract machine of a store as a program: whether a core allows a step, the step itself,
//! what a part shows, and which slots an advance writes back.
#![tactic(auto)]

mod advancing;
mod allowing;
mod announcing;
mod closing;
mod flushing;
mod hearing;
mod notes;
mod stepping;

pub use allowing::allowed;
pub use flushing::flush_list;
pub use notes::note_of;
pub use stepping::{StepRefusal, step};
