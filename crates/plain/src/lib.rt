//! The structures kept plainly in memory, and plain programs of the definitions: what operations
//! do, what histories lead to and use, what callers have seen, the structure that objects make,
//! which images recovery accepts, and what it rebuilds.
#![tactic(auto)]

mod acceptance;
mod callers;
mod contents;
mod gather;
mod graph_parts;
mod graph_state;
mod history;
mod image;
mod item_row;
mod map_state;
mod pair_table;
mod queue_state;
mod recovery;
mod replies;
mod room;
mod same;
mod structure;
mod unit_effects;
mod unit_state;
mod view;

pub use acceptance::is_well_formed;
pub use callers::{continues_view, fits_histories, is_callers_order};
pub use contents::Contents;
pub use graph_state::GraphState;
pub use history::{cut_at, is_legal, state_after};
pub use image::{record_at, records};
pub use map_state::{MapState, OrderedState};
pub use queue_state::QueueState;
pub use recovery::recover;
pub use room::used_slots;
pub use same::same_state;
pub use structure::{BuildRefusal, build, one_structure};
pub use unit_state::UnitState;
pub use view::View;
