//! The tool that runs jobs over buffered durable structures: its top call, what it says of itself,
//! its statuses with their lines and exit statuses, and the devices of its process.
#![tactic(auto)]

mod about;
mod command_line;
mod forms;
mod generated_runs;
mod job_runs;
mod kind_letters;
mod program;
mod read_inputs;
mod replayed_text;
mod sending;
mod serving;
mod status;
mod status_causes;
mod told_contents;
mod top_call;
mod verdict_line;

pub use about::{HELP, VERSION};
pub use command_line::words_of;
pub use forms::{FileWords, Form, files_of, forms_are_one};
pub use process_devices::{FileSink, FileSource, StdSink, StdSource};
pub use program::{answer, exit_of, say};
pub use serving::serve;
pub use status::{SinkName, SourceName, Status, exit_code, status_text};
pub use top_call::montage;
