//! The abstract machine of a store: its persistent words, announcements, units, advancer and
//! callers as plain data, its kinds of step, and what every step keeps.
//!
//! A step is one load or one store of one word, or a move of notes and lists that touches none. The
//! definitions in `specs/` say which steps a core allows and what each of them leaves; each law on
//! them stands on a public function with an empty body.
#![tactic(auto)]

mod cuts;
mod event;
mod fresh;
mod noting;
mod parts;
mod reuse;
mod soundness;

pub use cuts::{images_hold_cuts, images_hold_synced};
pub use event::Event;
pub use mont_laws::Retired;
pub use noting::{notes_last, splits_are_true};
pub use parts::{AdvPart, CallerPart, Core, Mark, Note, Part, UnitPart, UnitStage, Writing};
pub use reuse::{
    closed_slots_are_unneeded, first_stores_are_unseen, free_slots_are_unseen, reclaimed_have_room,
};
pub use soundness::{
    fresh_cores_are_sound, images_are_recovered, recovered_cores_are_sound, soundness_lasts,
    steps_keep_soundness,
};
