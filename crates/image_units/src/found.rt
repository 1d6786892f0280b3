// What an image holds of each unit.
use mont_base::{Held, Object, Sequence, Slot};
use plain::Contents;

/// What an image holds of a unit, each by rising slot.
#[derive(Debug, Drop)]
pub struct FoundUnit {
    /// The records that recovery keeps.
    pub records: Sequence<Held>,
    /// The slots whose epoch is beyond the cut, which are to be closed.
    pub lost: Sequence<Slot>,
    /// The live ones of the records.
    pub objects: Sequence<Object>,
}

/// What an image holds.
#[derive(Debug, Drop)]
pub struct FoundImage {
    /// In the order of the units.
    pub units: Sequence<FoundUnit>,
    /// The structures that the live objects make.
    pub contents: Contents,
}
