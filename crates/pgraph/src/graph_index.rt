// The index of a graph: its vertices and edges in memory, each by its name.
ghost use Rattle.std.specs.Prelude.{◌≡◌, true, None, OnOk, OnErr, option_map, slice_get};
ghost use Rattle.std.specs.FinMap as finite;
ghost use Rattle.pgraph.specs.GraphIndex.{no_nodes, nodes_at, edge_name, degree_of, joins, with_vertex, with_edge, without_edge, without_vertex, at_vertex, at_ends, IsUnlisted, Lists, Unlists, KeepsListed};

use crate::edges_at::EdgesAt;
use crate::node::{Ends, Node, VertexNode};
use crate::shelf::Shelf;
use std::alloc::{AllocError, Global};
use std::collections::BTreeSet;
use std::marker::Model;

// Contracts see the nodes by their names.
#[derive(Drop)]
pub(crate) struct GraphIndex {
    alloc: Global,
    vertices: Shelf<u64, VertexNode>,
    edges: Shelf<Ends, Node>,
}

impl Model for GraphIndex {
    ghost use Rattle.pgraph.specs.GraphIndex.{Nodes, nodes_code, nodes_in, stands_behind, IsIndex};

    ghost Value = { Nodes };

    ghost coded = { nodes_code };

    ghost view = { λ s. nodes_in s.vertices s.edges };

    ghost invariant = { λ s. IsIndex (nodes_in s.vertices s.edges) (stands_behind s.vertices) };
}

impl GraphIndex {
    // No vertices and no edges. It allocates nothing.
    pub(crate) fn new(alloc: Global) -> GraphIndex
        ensures { result ≡ no_nodes }
    {
        GraphIndex {
            alloc,
            vertices: Shelf::new(alloc),
            edges: Shelf::new(alloc),
        }
    }

    // The node of a vertex.
    pub(crate) fn vertex(&self, vertex: u64) -> Option<Node>
        ensures { result ≡ finite.get self.now.vertices vertex }
    {
        Some(self.vertices.get(vertex)?.node)
    }

    // The node of an edge.
    pub(crate) fn edge(&self, ends: Ends) -> Option<Node>
        ensures { result ≡ finite.get self.now.edges ends }
    {
        self.edges.get(ends).copied()
    }

    // How many edges go from or to a vertex.
    pub(crate) fn degree(&self, vertex: u64) -> Option<u64>
        ensures { result ≡ degree_of self.now vertex }
    {
        Some(self.vertices.get(vertex)?.ends.len() as u64)
    }

    // The edges from or to a vertex, by rising ends.
    pub(crate) fn edges_at(&self, vertex: u64) -> EdgesAt<'_>
        ensures { result ≡ nodes_at self.now vertex }
    {
        let ends = match self.vertices.get(vertex) {
            Some(there) => Some(there.ends.iter()),
            None => None,
        };
        EdgesAt::new(ends, &self.edges)
    }

    // Adds a vertex.
    pub(crate) fn insert_vertex(&mut self, vertex: u64, node: Node) -> Result<(), AllocError>
        requires { finite.get self.old.vertices vertex ≡ None }
        ensures ok { OnOk result (self.new ≡ with_vertex self.old vertex node) }
        ensures err { OnErr result (self.new ≡ self.old) }
    {
        let ends = BTreeSet::new(self.alloc);
        self.vertices.insert(vertex, VertexNode { node, ends })?;
        Ok(())
    }

    // Sets the node of a vertex that is there.
    pub(crate) fn set_vertex(&mut self, vertex: u64, node: Node)
        requires { finite.contains_key self.old.vertices vertex ≡ true }
        ensures { self.new ≡ with_vertex self.old vertex node }
    {
        let Some(there) = self.vertices.get_mut(vertex) else {
            return;
        };
        there.node = node;
    }

    // Adds an edge from one vertex to another.
    pub(crate) fn insert_edge(&mut self, from: u64, to: u64, node: Node) -> Result<(), AllocError>
        requires absent { finite.get self.old.edges (from, to) ≡ None }
        requires joins { joins self.old (from, to) ≡ true }
        ensures ok { OnOk result (self.new ≡ with_edge self.old (from, to) node) }
        ensures err { OnErr result (self.new ≡ self.old) }
    {
        list_edge(&mut self.vertices, (from, to))?;
        if let Err(refused) = self.edges.insert((from, to), node) {
            unlist_edge(&mut self.vertices, (from, to));
            return Err(refused);
        }
        Ok(())
    }

    // Sets the node of an edge that is there.
    pub(crate) fn set_edge(&mut self, ends: Ends, node: Node)
        requires { finite.contains_key self.old.edges ends ≡ true }
        ensures { self.new ≡ with_edge self.old ends node }
    {
        let Some(there) = self.edges.get_mut(ends) else {
            return;
        };
        *there = node;
    }

    // Takes a vertex out, with every edge from or to it.
    pub(crate) fn remove_vertex(&mut self, vertex: u64)
        ensures { self.new ≡ without_vertex self.old vertex }
    {
        while let Some(ends) = self.first_edge_at(vertex) {
            self.remove_edge(ends);
        }
        self.vertices.remove(vertex);
    }

    // The ends of the first edge from or to a vertex, if there is one.
    fn first_edge_at(&self, vertex: u64) -> Option<Ends>
        ensures { result ≡ option_map edge_name (slice_get (nodes_at self.now vertex) 0) }
    {
        let (ends, _) = self.edges_at(vertex).next()?;
        Some(ends)
    }

    // Takes an edge out that is there.
    pub(crate) fn remove_edge(&mut self, ends: Ends)
        requires { finite.contains_key self.old.edges ends ≡ true }
        ensures { self.new ≡ without_edge self.old ends }
    {
        self.edges.remove(ends);
        unlist_edge(&mut self.vertices, ends);
    }
}

// Puts an edge after both of its ends, or after none.
fn list_edge(vertices: &mut Shelf<u64, VertexNode>, ends: Ends) -> Result<(), AllocError>
    requires { IsUnlisted vertices.old ends }
    ensures ok { OnOk result (Lists (at_ends ends) vertices.old vertices.new) }
    ensures err { OnErr result (KeepsListed vertices.old vertices.new) }
{
    let (from, to) = ends;
    list_at(vertices, from, ends)?;
    if let Err(refused) = list_at(vertices, to, ends) {
        unlist_at(vertices, from, ends);
        return Err(refused);
    }
    Ok(())
}

// Takes an edge from after its ends.
fn unlist_edge(vertices: &mut Shelf<u64, VertexNode>, ends: Ends)
    ensures { Unlists (at_ends ends) vertices.old vertices.new }
{
    let (from, to) = ends;
    unlist_at(vertices, from, ends);
    unlist_at(vertices, to, ends);
}

// Puts an edge after a vertex.
fn list_at(vertices: &mut Shelf<u64, VertexNode>, vertex: u64, ends: Ends) -> Result<(), AllocError>
    ensures ok { OnOk result (Lists (at_vertex vertex ends) vertices.old vertices.new) }
    ensures err { OnErr result (KeepsListed vertices.old vertices.new) }
{
    if let Some(there) = vertices.get_mut(vertex) {
        there.ends.insert(ends)?;
    }
    Ok(())
}

// Takes an edge from after a vertex.
fn unlist_at(vertices: &mut Shelf<u64, VertexNode>, vertex: u64, ends: Ends)
    ensures { Unlists (at_vertex vertex ends) vertices.old vertices.new }
{
    if let Some(there) = vertices.get_mut(vertex) {
        there.ends.remove(&ends);
    }
}
