//! A run of the generated bank on a store that was never used: its accounts are opened, four
//! callers shift amounts between them on threads of their own, and recovery looks at what a crash
//! leaves.
#![tactic(auto)]

mod attempts;
mod bank_contents;
mod bank_run;
mod first_puts;
mod readying;
mod shift_making;
mod side_by_side;
mod tellers;

pub use bank_run::run_bank;
