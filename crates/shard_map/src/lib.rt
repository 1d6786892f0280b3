//! Map units, and the keys of ordered units: a finite map from texts to texts on the slots of one
//! unit, whose index says where each live key is.
#![tactic(auto)]

mod map_answer;
mod map_beginning;
mod map_call;
mod map_plan;
mod map_shard;
mod map_shift;
mod moved_numbers;
mod number_texts;
mod pair_carrying;
mod shift_planning;
mod shift_refusal;

pub use map_plan::Found;
pub use map_shard::MapShard;
pub use map_shift::shift;
pub use shift_refusal::ShiftRefusal;
