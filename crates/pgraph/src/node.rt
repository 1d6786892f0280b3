// The vertices and edges of a graph by their names, and where they are.

use mont_base::Slot;
use std::collections::BTreeSet;

/// Where a vertex or an edge is: what its live record holds, and which record that is.
#[derive(Clone, Copy, Debug, PartialEq, Eq)]
pub struct Node {
    pub attribute: u64,
    pub identity: u64,
    pub slot: Slot,
}

// The vertices that an edge goes from and to.
pub(crate) type Ends = (u64, u64);

// What a vertex or an edge is called.
#[derive(Clone, Copy)]
pub(crate) enum Name {
    Vertex(u64),
    Edge(Ends),
}

// A vertex, with the edges that go from or to it.
#[derive(Drop)]
pub(crate) struct VertexNode {
    pub(crate) node: Node,
    pub(crate) ends: BTreeSet<Ends>,
}
