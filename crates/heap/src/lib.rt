//! The abstract machine of a store in one table of atomic words and slots, shared between threads.
//!
//! Each step call makes one load or one store of one word through a seat, and is one step of the
//! machine. Each unit, the advancer and each caller has a seat of its own, which shows its part.
#![tactic(auto)]

mod answer_steps;
mod caller_steps;
mod dealing;
mod flush_calls;
mod fresh_heap;
mod heap;
mod in_slot;
mod list_calls;
mod news;
mod next_answer;
mod note_calls;
mod opening;
mod seats;
mod stopping;
mod store_calls;
mod unit_calls;

pub use heap::Heap;
pub use in_slot::InSlot;
pub use news::News;
pub use next_answer::NextAnswer;
pub use opening::Seats;
pub use seats::{AdvSeat, Ticket, UnitSeat};
pub use stopping::stopped_words_hold_cuts;
