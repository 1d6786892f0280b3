//! Worked cases as files that a person reads and writes, and programs that try them: each case
//! has a name, texts, and the text that is wanted.
#![tactic(auto)]

mod case;
mod case_numbers;
mod case_reader;
mod case_refusal;
mod escapes;
mod other_lines;
mod row;
mod tally;
mod text_lines;
mod trial;
mod wanted;

pub use case::{Case, Part};
pub use case_numbers::{number_in, numbers_in};
pub use case_reader::read_cases;
pub use case_refusal::{CaseFault, CaseRefusal, Unanswered};
pub use other_lines::with_other_lines;
pub use tally::Tally;
pub use trial::{Subject, cases_of, try_cases};
pub use wanted::{is_wanted, said};
