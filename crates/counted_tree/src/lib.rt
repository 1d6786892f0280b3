//! A list in a balanced tree whose nodes count what hangs below them, so that an item is found, put
//! in or taken out by its place in a few steps.
#![tactic(auto)]

mod balance;
mod order;
mod tree;

pub use tree::Tree;
