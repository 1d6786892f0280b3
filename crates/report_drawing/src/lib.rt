//! Draws a report: what is in a picture of it, as SVG or as lines for a terminal. Epochs stand from
//! left to right, the cut is a wall, and what is lost after it is grey.
#![tactic(auto)]

mod columns;
mod folding;
mod kept_calls;
mod label_spelling;
mod labels;
mod lanes;
mod picture;
pub mod svg;
pub mod terminal;
mod unit_contents;

pub use columns::Column;
pub use folding::{Label, Strip};
pub use lanes::{Cell, Lane};
pub use picture::Picture;
