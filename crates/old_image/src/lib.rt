//! Images of the first version, in whose slots a body has four words and a map's key and value are
//! numbers, and how one becomes an image of now.
#![tactic(auto)]

mod migration;
mod old_records;
mod renewal;
mod widening;

pub use migration::{migrate, refused_old_images_are_malformed};
