//! What an image holds, unit by unit: the records that recovery keeps, the slots that it closes,
//! the live objects and the structures that they make, or the first reason why it is refused.
#![tactic(auto)]

mod fault_words;
mod found;
mod found_versions;
mod image_fault;
mod recovery_refusal;
mod refusal_laws;
mod unit_search;
mod unit_slots;

pub use found::{FoundImage, FoundUnit};
pub use found_versions::check_versions;
pub use image_fault::ImageFault;
pub use recovery_refusal::RecoverRefusal;
pub use refusal_laws::{refusals_are_one, refused_images_are_malformed};
pub use unit_search::find_units;
