// What a slot holds.
use crate::constants::BODY;
use crate::layout::{Epoch, Slot, Unit};

/// What a payload is among the versions of its identity.
#[derive(Clone, Copy, Debug, PartialEq, Eq)]
pub enum Kind {
    /// The first version.
    New,
    /// A later version.
    Copy,
    /// An anti-payload: from its epoch on the identity is absent.
    Delete,
}

/// The label of a payload.
#[derive(Clone, Copy, Debug, PartialEq, Eq)]
pub struct Label {
    pub epoch: Epoch,
    pub kind: Kind,
    pub unit: Unit,
    /// What all versions of one payload share.
    pub identity: u64,
    /// 1 for the first version, and one more for each later one.
    pub version: u64,
}

/// A payload with the slot that holds it.
#[derive(Clone, Copy, Debug, PartialEq, Eq)]
pub struct Held {
    pub slot: Slot,
    pub label: Label,
    pub body: [u64; BODY],
}

/// The live version of a payload.
#[derive(Clone, Copy, Debug, PartialEq, Eq)]
pub struct Object {
    pub slot: Slot,
    pub identity: u64,
    pub version: u64,
    pub body: [u64; BODY],
}

/// What an operation does to one payload. The slot is that of the identity's live record.
#[derive(Clone, Copy, Debug, PartialEq, Eq)]
pub enum Change {
    Insert {
        body: [u64; BODY],
    },
    Replace {
        slot: Slot,
        identity: u64,
        body: [u64; BODY],
    },
    Remove {
        slot: Slot,
        identity: u64,
    },
}

/// Why an open slot can't be read, and which word says so. The order of the variants is that in
/// which they are tried.
#[derive(Clone, Copy, Debug, PartialEq, Eq)]
pub enum SlotFault {
    /// The word at field 1, divided by 256, is no kind.
    Kind { word: u64 },
    /// The word at field 1, modulo 256, is another unit.
    Unit { word: u64 },
    /// The word at field 2 is no identity.
    Identity { word: u64 },
    /// The word at field 3 is no version of that kind.
    Version { word: u64 },
}

/// Why objects are no structure.
#[derive(Clone, Copy, Debug, PartialEq, Eq)]
pub enum ObjectFault {
    /// A body word that isn't used isn't 0.
    Spare,
    /// A map's key belongs to another unit.
    Shard,
    /// An object in a lower slot has the key.
    Key,
    /// A queue's serial is 0, above 2^62, or that of an object in a lower slot.
    Serial,
    /// A graph's body is neither a vertex nor an edge.
    Tag,
    /// An edge goes to where it begins.
    Loop,
    /// An object in a lower slot has the vertex.
    Vertex,
    /// An object in a lower slot has the edge.
    Edge,
    /// An end of an edge is no vertex.
    End,
    /// The words of a map's key or value are no text.
    Text,
}
