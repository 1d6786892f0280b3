//! What the calls of all structures do alike: a unit in which a caller was cut is refused, and so
//! is a call whose numbers are at their end; a planned operation is then carried out, step by step.
#![tactic(auto)]

mod carrying;
mod checking;
mod counting;
mod refusing;

pub use carrying::{answer, carry_out};
pub use checking::{check_numbers, check_running, take_note};
pub use counting::{
    answers_are_counted, fresh_units_are_counted, numbers_end, recovered_units_are_counted,
    refusals_are_counted,
};
