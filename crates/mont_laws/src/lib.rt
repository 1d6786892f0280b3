//! Laws over the definitions of `mont_base` that no machine owns: what the words of a slot are read
//! as, what an image holds of it, and which structures records make, in whatever order they stand.
//!
//! Each law stands on a public function with an empty body. Layers above cite the lemmas in
//! `proofs/`.
#![tactic(auto)]

pub mod effects;
pub mod retiring;
pub mod settled_words;
pub mod slot_images;
pub mod slot_readings;
pub mod slot_words;
pub mod structures;
pub mod unit_records;

pub use retiring::Retired;
