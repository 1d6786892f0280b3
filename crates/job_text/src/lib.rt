//! The texts of jobs and of reports: a reader of jobs that refuses a wrong text at its first wrong
//! line, and the writers of the one text of each job and of each report. Besides, how the lines of
//! such texts are read: their words, numbers, layouts, operations and replies.
//!
//! The definitions stand in `specs/`: which texts are jobs, how reports are spelled, and when a
//! report is faithful.
#![tactic(auto)]

mod contents_reader;
mod contents_text;
mod contents_writer;
mod deeds;
mod draft;
mod entry_reader;
mod header;
mod history_reader;
mod history_writer;
mod job;
mod job_refusal;
mod job_writer;
mod limits;
mod lines;
mod masks;
mod number_row;
mod number_words;
mod op_name;
mod operations;
mod outcome;
mod outcome_reader;
mod parser;
mod ranks;
mod reader;
mod report;
mod report_heads;
mod report_reader;
mod report_refusal;
mod report_writer;
mod row_reader;
mod run_reader;
mod run_writer;
mod spelling;
mod split;
mod split_words;
mod stops;
mod text_word;
mod unread;
mod words_behind;

pub use contents_text::write_contents;
pub use contents_writer::write_units;
pub use entry_reader::answer_of;
pub use header::{layout, number_within};
pub use history_writer::write_histories;
pub use job::{Deed, Job, JobFault, Line, Stop};
pub use job_refusal::JobRefusal;
pub use job_writer::write_job;
pub use limits::{LINE_BYTES, MOST_ATTEMPTS, MOST_CALLERS, MOST_LINES, MOST_STEPS, READ_BYTES};
pub use number_words::{number, numbers};
pub use operations::read_op;
pub use outcome::Outcome;
pub use reader::read_job;
pub use report::{Report, Run};
pub use report_reader::read_report;
pub use report_refusal::ReportRefusal;
pub use report_writer::write_report;
pub use split::split_once;
pub use split_words::{MOST_WORDS, words};
pub use words_behind::{behind, named};
