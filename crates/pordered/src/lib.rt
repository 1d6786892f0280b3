//! An ordered unit of a store: a finite map from texts to texts whose keys stand in order.
#![tactic(auto)]

mod order_answers;
mod pordered;
mod ranges;

pub use pordered::POrdered;
