//! Laws on regions that no call of a region owns.
//!
//! Each law stands on a public function with an empty body. Layers above cite the lemmas in
//! `proofs/`.
#![tactic(auto)]

mod found_images;

pub use found_images::images_are_found;
