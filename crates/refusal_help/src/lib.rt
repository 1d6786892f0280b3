//! Why a line of a job or of a schedule is refused, or words of the command line are: the first
//! cause, and a sentence that tells it.
#![tactic(auto)]

mod cause;
mod command_words;
mod event;
mod form;
mod given;
mod job_lines;
mod layout_words;
mod limits;
mod line_bytes;
mod nouns;
mod number_word;
mod operation;
mod part;
mod quoted;
mod reply;
mod schedule_lines;
mod sentence;
mod text_lines;
mod text_word;
mod texts;
mod told;
mod wanted;
mod word_check;
mod words;

pub use cause::{Cause, KindsFault, MaskFault, NumberFault, Range, TextFault, WordFault};
pub use command_words::command_cause;
pub use given::Given;
pub use job_lines::{header_cause, line_cause};
pub use limits::{JOB_LINE_BYTES, MOST_LINES, SCHEDULE_LINE_BYTES};
pub use quoted::{QUOTED_BYTES, Quoted};
pub use schedule_lines::{event_cause, title_cause};
pub use text_lines::{TextLine, line_at};
pub use texts::{job_cause, schedule_cause};
pub use told::{job_sentence, schedule_sentence, words_sentence};
pub use wanted::{Figure, Fixed, Wanted};
pub use words::{check_words, words_of};
