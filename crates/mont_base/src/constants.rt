// Numbers that every crate calls by name.
use crate::layout::Epoch;

/// The words of a slot: those of its label, and those of its body.
pub const FIELDS: usize = 12;

/// The words of a body.
pub const BODY: usize = 8;

/// The words of a label: epoch, kind and unit, identity, version.
pub const LABEL: usize = FIELDS - BODY;

/// The greatest epoch, identity, version, serial, place and call number: 2^62.
pub const LAST: u64 = 1 << 62;

/// The clock of a store that was never used. Its cut, two epochs before, is empty.
pub const FIRST_CLOCK: Epoch = 2;

/// A store has at most so many units.
pub const MOST_UNITS: usize = 16;

/// A unit has at least so many slots.
pub const LEAST_SLOTS: u64 = 8;

/// A unit has at most so many slots.
pub const MOST_SLOTS: u64 = 4096;

/// A key or a value has at most so many bytes.
pub const TEXT_BYTES: usize = 24;

/// A range of keys is answered with at most so many pairs.
pub const MOST_PAIRS: usize = 16;

/// The first word of the body of a graph's vertex.
pub const VERTEX_TAG: u64 = 1;

/// The first word of the body of a graph's edge.
pub const EDGE_TAG: u64 = 2;

const _: () = prove!(FIELDS == 12);

const _: () = prove!(BODY == 8);

const _: () = prove!(LAST == 4_611_686_018_427_387_904);

const _: () = prove!(FIRST_CLOCK == 2);

const _: () = prove!(MOST_UNITS == 16);

const _: () = prove!(LEAST_SLOTS == 8);

const _: () = prove!(MOST_SLOTS == 4096);

const _: () = prove!(TEXT_BYTES == 24);

const _: () = prove!(MOST_PAIRS == 16);

const _: () = prove!(VERTEX_TAG == 1);

const _: () = prove!(EDGE_TAG == 2);
