//! A store that is opened from an image: its heap and its units, whose slots beyond the cut are
//! then closed. A crash at any moment of that leaves an image with the same clock and contents.
#![tactic(auto)]

mod clean_notes;
mod image_opening;
mod lost_slots;
mod recovered;
mod stopped_images;
mod stopped_words;
mod store_parts;
mod store_sweep;

pub use image_opening::recover;
pub use image_units::{FoundImage, FoundUnit, ImageFault, RecoverRefusal, find_units};
pub use old_image::migrate;
pub use recovered::Recovered;
pub use stopped_images::{stopped_stores_are_recovered, swept_stores_are_recovered};
pub use stopped_words::unused_stores_keep_base;
pub use store_parts::Parts;
