//! How a case writes the text of an image: the slots that aren't all zeros, one line each.
#![tactic(auto)]

mod image_part;
mod image_shape;
mod record_row;
mod slot_line;

pub use image_part::{has_image, image_text};
pub use record_row::record_words;
pub use slot_line::number_in;
