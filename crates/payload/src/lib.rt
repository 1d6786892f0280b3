//! The words of a slot: how a label and a body are written, how what stands in a slot is read, what
//! the bodies of maps, queues and graphs say, and which of the records that were read are live.
#![tactic(auto)]

mod graph_body;
mod map_body;
mod objects;
mod queue_body;
mod read;
mod spare;
mod write;

pub use graph_body::{edge_body, edge_in, is_edge_body, is_vertex_body, vertex_body, vertex_in};
pub use map_body::{pair_body, pair_in, value_in};
pub use mont_base::SlotFault;
pub use objects::{live_objects, newest_of};
pub use queue_body::{item_body, item_in};
pub use read::read_words;
pub use spare::no_body;
pub use write::{kind_word, write_words};
