// What callers ask of units, and what they are answered.
ghost use Rattle.std.specs.Prelude.{◌≡◌};
ghost use Rattle.mont_base.specs.State.{can_range};

use crate::constants::MOST_PAIRS;
use crate::kinds::UnitKind;
use crate::layout::{Epoch, Layout, Unit};
use crate::text::Text;

/// An operation on a structure. A map operation is of the map unit that keeps its key; every other
/// one names its unit.
#[derive(Clone, Copy, Debug, PartialEq, Eq)]
pub enum Op {
    /// Sets the value of a key.
    Put {
        key: Text,
        value: Text,
    },
    /// Looks a key up.
    Get {
        key: Text,
    },
    /// Removes a key.
    Del {
        key: Text,
    },
    /// Adds an item after the last.
    Enq {
        unit: Unit,
        item: u64,
    },
    /// Takes the first item.
    Deq {
        unit: Unit,
    },
    /// Counts the items.
    Len {
        unit: Unit,
    },
    /// Sets the attribute of a vertex.
    AddV {
        unit: Unit,
        vertex: u64,
        attr: u64,
    },
    /// Removes a vertex with every edge from or to it.
    DelV {
        unit: Unit,
        vertex: u64,
    },
    /// Sets the attribute of the edge from one vertex to another.
    AddE {
        unit: Unit,
        from: u64,
        to: u64,
        attr: u64,
    },
    /// Removes an edge.
    DelE {
        unit: Unit,
        from: u64,
        to: u64,
    },
    /// Looks a vertex up.
    Vertex {
        unit: Unit,
        vertex: u64,
    },
    /// Counts the edges from or to a vertex.
    Degree {
        unit: Unit,
        vertex: u64,
    },
    /// Sets the value of a key of an ordered unit.
    OPut {
        unit: Unit,
        key: Text,
        value: Text,
    },
    /// Looks a key of an ordered unit up.
    OGet {
        unit: Unit,
        key: Text,
    },
    /// Removes a key of an ordered unit.
    ODel {
        unit: Unit,
        key: Text,
    },
    /// Looks up the greatest key that isn't above this one.
    OFloor {
        unit: Unit,
        key: Text,
    },
    /// Counts the keys below this one.
    ORank {
        unit: Unit,
        key: Text,
    },
    /// Counts the first pairs with a key from one to another, with both: at most so many, which
    /// are 1 to 16.
    ORange {
        unit: Unit,
        from: Text,
        to: Text,
        most: u64,
    },
}

/// Where an operation belongs.
#[derive(Clone, Copy, Debug, PartialEq, Eq)]
pub enum Aim {
    /// To the map unit that keeps this key.
    Key { key: Text },
    /// To the unit of this number, if it is of this kind.
    Unit { kind: UnitKind, unit: Unit },
    /// To no unit.
    Nowhere,
}

/// The answer to an operation.
#[derive(Clone, Copy, Debug, PartialEq, Eq)]
pub enum Reply {
    /// There was nothing.
    Nothing,
    /// The number that was there.
    Was { value: u64 },
    /// The text that was there.
    WasText { value: Text },
    /// So many there are.
    Count { number: u64 },
    /// An edge can't go where it was asked to.
    NoEnds,
    /// The key that was asked for.
    Key { key: Text },
    /// So many pairs a range has. Which they are is told where they are handed over.
    Pairs { number: u64 },
}

/// An answered operation, as its unit's history keeps it.
#[derive(Clone, Copy, Debug, PartialEq, Eq)]
pub struct Entry {
    pub caller: u64,
    /// How many calls of this caller were answered before.
    pub call: u64,
    pub op: Op,
    pub reply: Reply,
    pub epoch: Epoch,
}

/// What a caller keeps of an answered operation.
#[derive(Clone, Copy, Debug, PartialEq, Eq)]
pub struct Receipt {
    pub unit: Unit,
    /// The entry's place in the history of its unit.
    pub place: u64,
    pub entry: Entry,
}

impl Op {
    ghost use Rattle.mont_base.specs.State.{aim_of, unit_of_op};

    /// Where the operation belongs. A range of no pairs, or of more than 16, belongs nowhere.
    #[inline(always)]
    pub fn aim(&self) -> Aim
        ensures { result ≡ aim_of self.now }
    {
        let (kind, unit) = match *self {
            Op::Put { key, .. } | Op::Get { key } | Op::Del { key } => return Aim::Key { key },
            Op::Enq { unit, .. } | Op::Deq { unit } | Op::Len { unit } => (UnitKind::Queue, unit),
            Op::AddV { unit, .. }
            | Op::DelV { unit, .. }
            | Op::AddE { unit, .. }
            | Op::DelE { unit, .. }
            | Op::Vertex { unit, .. }
            | Op::Degree { unit, .. } => (UnitKind::Graph, unit),
            Op::OPut { unit, .. }
            | Op::OGet { unit, .. }
            | Op::ODel { unit, .. }
            | Op::OFloor { unit, .. }
            | Op::ORank { unit, .. } => (UnitKind::Ordered, unit),
            Op::ORange { unit, most, .. } => {
                if !can_range(most) {
                    return Aim::Nowhere;
                }
                (UnitKind::Ordered, unit)
            }
        };
        Aim::Unit { kind, unit }
    }

    /// The unit that the operation belongs to. There is none for a map operation where no unit is a
    /// map, for one that names a unit of another kind or a number of no unit, and for a range of no
    /// pairs or of more than 16.
    #[inline(always)]
    pub fn unit(&self, layout: Layout) -> Option<Unit>
        ensures { result ≡ unit_of_op layout self.now }
    {
        match self.aim() {
            Aim::Key { key } => layout.keeper(&key),
            Aim::Unit { kind, unit } => layout.named(kind, unit),
            Aim::Nowhere => None,
        }
    }
}

// Whether a range may be of so many pairs.
fn can_range(most: u64) -> bool
    ensures { result ≡ can_range most }
{
    (1..=MOST_PAIRS as u64).contains(&most)
}
