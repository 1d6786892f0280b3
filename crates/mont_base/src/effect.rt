// What an operation does to a structure, told by the things in it.
use crate::text::Text;

/// A thing that a structure holds.
#[derive(Clone, Copy, Debug, PartialEq, Eq)]
pub enum Thing {
    /// A key of a map or of an ordered unit, with its value.
    Pair { key: Text, value: Text },
    /// An item of a queue.
    Item { item: u64 },
    /// A vertex of a graph with its attribute.
    Vertex { vertex: u64, attribute: u64 },
    /// An edge of a graph with its attribute.
    Edge { from: u64, to: u64, attribute: u64 },
}

/// What becomes of a thing by an operation. A thing that is set anew is replaced, also where it
/// stays the same.
#[derive(Clone, Copy, Debug, PartialEq, Eq)]
pub enum Effect {
    /// It comes in.
    Inserts { thing: Thing },
    /// It takes the place of what had its name.
    Replaces { thing: Thing },
    /// It goes.
    Removes { thing: Thing },
}
