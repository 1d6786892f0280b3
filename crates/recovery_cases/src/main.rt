//! Tries worked cases of recovery: which images are refused, where and why, what others hold, what
//! a sweep that is cut leaves, and what is left of a store that crashes again and again.
#![tactic(auto)]

mod asked_image;
mod chains;
mod damage;
mod damaged_images;
mod drawn_images;
mod failing_devices;
mod found_text;
mod leftovers;
mod now;
mod plain_front;
mod plain_judge;
mod plain_records;
mod plain_slots;
mod plain_store;
mod recovery_answers;
mod recovery_trial;
mod slot_told;
mod sweep_table;
mod tellings;
mod texts_told;
mod units_told;

use anyhow::Result;
use recovery_trial::try_all;
use std::process::ExitCode;

fn main(rt: HostRuntime) -> Result<ExitCode> {
    try_all(&rt)
}
