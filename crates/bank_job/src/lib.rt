//! The generated bank: for each number the same accounts, and for each of four callers the shifts
//! that it makes between them; and the text of a run of it: what its callers were answered, what
//! recovery found, and the total of the accounts.
#![tactic(auto)]

mod bank;
mod bank_report;
mod bank_total;
mod bank_words;
mod bank_writer;
mod shifts;

pub use bank::{ATTEMPTS, CALLERS, bank_layout, opening_puts};
pub use bank_report::BankReport;
pub use bank_writer::write_bank;
pub use shifts::{SHIFTS, Shift, shift_of, shifts_of_caller};
