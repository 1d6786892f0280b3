//! A graph unit: its vertices and edges, found in memory, with their records in slots.
#![tactic(auto)]

mod edges_at;
mod graph_answer;
mod graph_beginning;
mod graph_call;
mod graph_edit;
mod graph_index;
mod graph_plan;
mod index_names;
mod node;
mod pgraph;
mod shelf;

pub use node::Node;
pub use pgraph::PGraph;
