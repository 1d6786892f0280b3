// Vertices and edges of an index alike, by their names.
ghost use Rattle.std.specs.Prelude.{◌≡◌, true, IsSome, None, OnOk, OnErr};
ghost use Rattle.pgraph.specs.GraphIndex.{can_stand, joins, node_of, part_of, with_node, without};

use crate::graph_index::GraphIndex;
use crate::node::{Ends, Name, Node};
use std::alloc::AllocError;

impl GraphIndex {
    // The node of a name.
    pub(crate) fn node(&self, name: Name) -> Option<Node>
        ensures { result ≡ node_of self.now (part_of name) }
    {
        match name {
            Name::Vertex(vertex) => self.vertex(vertex),
            Name::Edge(ends) => self.edge(ends),
        }
    }

    // Whether an edge may go from one vertex to another: both are there, and aren't the same.
    pub(crate) fn joins(&self, ends: Ends) -> bool
        ensures { result ≡ joins self.now ends }
    {
        let (from, to) = ends;
        from != to && self.vertex(from).is_some() && self.vertex(to).is_some()
    }

    // Adds what isn't there.
    pub(crate) fn insert(&mut self, name: Name, node: Node) -> Result<(), AllocError>
        requires absent { node_of self.old (part_of name) ≡ None }
        requires stands { can_stand self.old (part_of name) ≡ true }
        ensures ok { OnOk result (self.new ≡ with_node self.old (part_of name) node) }
        ensures err { OnErr result (self.new ≡ self.old) }
    {
        match name {
            Name::Vertex(vertex) => self.insert_vertex(vertex, node),
            Name::Edge((from, to)) => self.insert_edge(from, to, node),
        }
    }

    // Sets the node of what is there.
    pub(crate) fn set(&mut self, name: Name, node: Node)
        requires { IsSome (node_of self.old (part_of name)) }
        ensures { self.new ≡ with_node self.old (part_of name) node }
    {
        match name {
            Name::Vertex(vertex) => self.set_vertex(vertex, node),
            Name::Edge(ends) => self.set_edge(ends, node),
        }
    }

    // Takes out what is there, a vertex with every edge from or to it.
    pub(crate) fn remove(&mut self, name: Name)
        requires { IsSome (node_of self.old (part_of name)) }
        ensures { self.new ≡ without self.old (part_of name) }
    {
        match name {
            Name::Vertex(vertex) => self.remove_vertex(vertex),
            Name::Edge(ends) => self.remove_edge(ends),
        }
    }
}
