//! The types, traits and definitions of buffered durable structures: kinds of units and layouts,
//! texts, slots, records, operations and what they do, gates, and the devices that bytes are read
//! from and written to.
//!
//! The definitions that contracts cite stand in `specs/`, one file for each subject.
#![tactic(auto)]

mod constants;
mod delivery;
mod effect;
mod gate;
mod kinds;
mod layout;
mod memory;
mod operation;
mod pair_list;
mod record;
mod refusal;
mod sequence;
mod sink;
mod slot_list;
mod source;
mod text;

pub use constants::{
    BODY, EDGE_TAG, FIELDS, FIRST_CLOCK, LABEL, LAST, LEAST_SLOTS, MOST_PAIRS, MOST_SLOTS,
    MOST_UNITS, TEXT_BYTES, VERTEX_TAG,
};
pub use delivery::deliver;
pub use effect::{Effect, Thing};
pub use gate::{Cut, Fuel, Gate, Steady};
pub use kinds::{BadKinds, Kinds, Signs, UnitKind};
pub use layout::{BadLayout, Epoch, Layout, Slot, Unit};
pub use memory::Words;
pub use operation::{Aim, Entry, Op, Receipt, Reply};
pub use pair_list::PairList;
pub use record::{Change, Held, Kind, Label, Object, ObjectFault, SlotFault};
pub use refusal::{CallRefusal, Which};
pub use sequence::Sequence;
pub use sink::{MemSink, Sink};
pub use slot_list::SlotList;
pub use source::{Failed, MemSource, Source};
pub use text::{Text, TextTooLong};
