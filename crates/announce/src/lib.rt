//! How a unit registers: it announces an epoch, and looks whether the clock still shows it.
#![tactic(auto)]

mod register_refusal;
mod registration;

pub use register_refusal::RegisterRefusal;
pub use registration::{register, register_at};
