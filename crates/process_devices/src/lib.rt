//! The devices of a process: its standard streams and the files that its words name, as sources and
//! sinks. What a stream or a file gives and takes is known to no contract.
#![tactic(auto)]

mod beside;
mod beside_name;
mod explains;
mod file_sink;
mod file_source;
mod kept_source;
mod place;
mod places_held;
mod std_streams;
mod tried_again;

pub use explains::{Explains, Recalls};
pub use file_sink::FileSink;
pub use file_source::FileSource;
pub use kept_source::KeptSource;
pub use places_held::{PlacesHeld, hold_places};
pub use std_streams::{StdSink, StdSource};
