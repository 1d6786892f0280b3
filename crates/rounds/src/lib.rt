//! Chains of rounds: a store is opened, worked on and stopped, a crash leaves an image, and
//! recovery opens the next store with what it holds.
//!
//! Each law stands on a public function with an empty body.
#![tactic(auto)]

mod rounds;

pub use rounds::{
    chains_are_legal, rounds_go_on, stopped_stores_make_rounds, swept_images_open_the_same,
};
