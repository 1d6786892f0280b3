//! Images of word memory: how their bytes are read and written, and which image a mask picks of the
//! words of a store.
#![tactic(auto)]

mod byte_filling;
mod image_header;
mod image_layout;
mod image_reader;
mod image_refusal;
mod image_text;
mod image_writer;
mod picking;
mod stored_image;

pub use image_reader::read_image;
pub use image_refusal::ImageRefusal;
pub use image_text::{IMAGE_BYTES, MOST_OLD_MAPS, OLD_FIELDS};
pub use image_writer::write_image;
pub use picking::pick;
pub use stored_image::Image;
