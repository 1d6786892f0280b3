//! Checks of reports against what they tell of.
#![tactic(auto)]

mod ahead;
mod answered;
mod asked;
mod cause;
mod cut_units;
mod faithful;
mod judged_runs;
mod last_numbers;
mod line_answers;
mod moments;
mod named_entries;
mod opened_numbers;
mod points;
mod progress;
mod questions;
mod shown;
mod walk;

pub use faithful::is_faithful;
