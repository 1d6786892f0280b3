//! A whole run of a job: on a store that was never used, or on one that goes on from an image. It
//! gives the report, and the image that a crash leaves; one of the generated job, its summary.
#![tactic(auto)]

mod base;
mod big_run;
mod counts;
mod fresh_run;
mod image_contents;
mod image_now;
mod image_words;
mod job_gates;
mod recovered_run;
mod resume_refusal;
mod resumed_run;
mod run_rounds;
mod synced_run;
mod syncs;
mod whole_run;

pub use base::{bases_are_one, fresh_stores_hold_nothing};
pub use big_run::run_big;
pub use fresh_run::run_fresh;
pub use image_contents::contents_in;
pub use image_now::migrated_if_old;
pub use recovered_run::run_recovered;
pub use resume_refusal::ResumeRefusal;
pub use resumed_run::run_resumed;
pub use run_rounds::{runs_go_on, runs_make_rounds};
pub use synced_run::{SyncedRun, run_synced};
pub use whole_run::WholeRun;
