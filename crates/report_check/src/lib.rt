//! Whether a report of a job's run agrees with an image.
#![tactic(auto)]

mod failing_entry;
mod failing_outcome;
mod marks;
mod other_contents;
mod report_check;
mod run_left;
mod shown_names;
mod verdict;
mod verdict_laws;

pub use report_check::check;
pub use verdict::Verdict;
pub use verdict_laws::{reports_have_shape, verdicts_are_one, yes_is_agreement};
