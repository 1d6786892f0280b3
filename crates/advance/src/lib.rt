//! Advances of the clock: the advancer passes the units, writes back what they have listed, moves
//! the clock and makes it durable. An advance that was refused goes on where it stood.
#![tactic(auto)]

mod advance_refusal;
mod advancer;
mod stage;

pub use advance_refusal::AdvanceRefusal;
pub use advancer::Advancer;
pub use stage::AdvStage;
