// A graph unit in memory.
ghost use Rattle.std.specs.Prelude.{◌≡◌, ◌≢◌, ◌↔◌, ◌<◌, ◌^◌, ℕ, not, count_by, filter, IsTrue, IfOk, OnOk, OnErr, []};
ghost use Rattle.std.specs.BTreeMap.{IsOrdered};
ghost use Rattle.std.specs.FinMap as map;
ghost use Rattle.mont_base.specs.State.{GraphOf, graph_step, can_join, degree, add_edge, del_vertex, touches, Ends, edge_cmp};

use crate::replies::earlier;
use mont_base::{Op, Reply};
use std::alloc::{AllocError, Global};
use std::collections::BTreeMap;
use std::collections::btree_map::Iter;
use std::marker::Model;

/// Vertices with their attributes, and edges with theirs. Contracts see it as the record of both
/// maps.
#[derive(Clone, Debug, Drop)]
pub struct GraphState {
    vertices: BTreeMap<u64, u64>,
    edges: BTreeMap<(u64, u64), u64>,
}

impl Model for GraphState {
    ghost use Rattle.std.specs.FinMap as map;
    ghost use Rattle.mont_base.specs.State.{Graph};
    ghost use Rattle.plain.specs.GraphCode.{graph_code};

    ghost Value = { Graph };

    ghost coded = { graph_code };

    ghost view = { λ s. record {
      vertices = map.from_entries s.vertices.entries;
      edges = map.from_entries s.edges.entries;
    } };
}

impl GraphState {
    /// No vertices and no edges. It allocates nothing.
    pub fn new(alloc: Global) -> Self
        ensures vertices { result.vertices ≡ map.empty }
        ensures edges { result.edges ≡ map.empty }
    {
        GraphState {
            vertices: BTreeMap::new(alloc),
            edges: BTreeMap::new(alloc),
        }
    }

    // The graph of these vertices and edges with their attributes.
    pub(crate) fn from_maps(
        vertices: BTreeMap<u64, u64>,
        edges: BTreeMap<(u64, u64), u64>,
    ) -> GraphState
        ensures vertices { result.vertices ≡ map.from_entries vertices.entries }
        ensures edges { result.edges ≡ map.from_entries edges.entries }
    {
        GraphState { vertices, edges }
    }

    /// Carries an operation out, and answers it. An operation on another kind of unit changes
    /// nothing, and neither does want of memory.
    pub fn apply(&mut self, op: &Op) -> Result<Reply, AllocError>
        ensures reply { IfOk result (λ r. r ≡ (graph_step self.old op.now).reply) }
        ensures state { OnOk result (GraphOf self.new ≡ (graph_step self.old op.now).state) }
        ensures err { OnErr result (self.new ≡ self.old) }
        ensures memory { OnErr result ((graph_step self.old op.now).effects ≢ []) }
    {
        match *op {
            Op::AddV { vertex, attr, .. } => Ok(earlier(self.insert_vertex(vertex, attr)?)),
            Op::DelV { vertex, .. } => Ok(earlier(self.remove_vertex(vertex))),
            Op::AddE { from, to, attr, .. } => self.join((from, to), attr),
            Op::DelE { from, to, .. } => Ok(earlier(self.remove_edge((from, to)))),
            Op::Vertex { vertex, .. } => Ok(earlier(self.vertex(vertex))),
            Op::Degree { vertex, .. } => Ok(self.degree(vertex)),
            _ => Ok(Reply::Nothing),
        }
    }

    /// Sets the attribute of a vertex, and gives the one before. At `Err` nothing changed.
    pub fn insert_vertex(&mut self, vertex: u64, attribute: u64) -> Result<Option<u64>, AllocError>
        ensures before { IfOk result (λ before. before ≡ map.get self.old.vertices vertex) }
        ensures ok { OnOk result (self.new
            ≡ record self.old { vertices = map.insert self.old.vertices vertex attribute }) }
        ensures err { OnErr result (self.new ≡ self.old) }
    {
        Ok(self.vertices.insert(vertex, attribute)?)
    }

    /// Sets the attribute of an edge, whatever its ends are, and gives the one before. At `Err`
    /// nothing changed.
    pub fn insert_edge(
        &mut self,
        ends: (u64, u64),
        attribute: u64,
    ) -> Result<Option<u64>, AllocError>
        ensures before { IfOk result (λ before. before ≡ map.get self.old.edges ends) }
        ensures ok { OnOk result (self.new
            ≡ record self.old { edges = map.insert self.old.edges ends attribute }) }
        ensures err { OnErr result (self.new ≡ self.old) }
    {
        Ok(self.edges.insert(ends, attribute)?)
    }

    /// Takes an edge out, and gives its attribute.
    pub fn remove_edge(&mut self, ends: (u64, u64)) -> Option<u64>
        ensures before { result ≡ map.get self.old.edges ends }
        ensures after { self.new ≡ record self.old { edges = map.remove self.old.edges ends } }
    {
        self.edges.remove(&ends)
    }

    /// The attribute of a vertex.
    pub fn vertex(&self, vertex: u64) -> Option<u64>
        ensures { result ≡ map.get self.now.vertices vertex }
    {
        self.vertices.get(&vertex).copied()
    }

    /// Whether there is such a vertex.
    pub fn has_vertex(&self, vertex: u64) -> bool
        ensures { result ≡ map.contains_key self.now.vertices vertex }
    {
        self.vertices.contains_key(&vertex)
    }

    /// The attribute of an edge.
    pub fn edge(&self, ends: (u64, u64)) -> Option<u64>
        ensures { result ≡ map.get self.now.edges ends }
    {
        self.edges.get(&ends).copied()
    }

    /// Whether an edge may go from one vertex to another: both are there, and aren't the same.
    pub fn can_join(&self, ends: (u64, u64)) -> bool
        ensures { result ≡ can_join self.now.vertices ends }
    {
        let (from, to) = ends;
        from != to && self.has_vertex(from) && self.has_vertex(to)
    }

    /// How many vertices there are.
    pub fn vertices_len(&self) -> u64
        ensures value { result ≡ map.len self.now.vertices }
        ensures few { result < 2 ^ 63 }
    {
        self.vertices.len() as u64
    }

    /// How many edges there are.
    pub fn edges_len(&self) -> u64
        ensures value { result ≡ map.len self.now.edges }
        ensures few { result < 2 ^ 63 }
    {
        self.edges.len() as u64
    }

    /// The vertices with their attributes, by rising vertex.
    pub fn vertices(&self) -> Iter<'_, u64, u64>
        ensures { result ≡ map.entries self.now.vertices }
    {
        self.vertices.iter()
    }

    /// The edges with their attributes, by the vertex that they leave, and then by the one that
    /// they reach.
    pub fn edges(&self) -> Iter<'_, (u64, u64), u64>
        ensures { result ≡ map.entries self.now.edges }
    {
        self.edges.iter()
    }

    /// Whether another graph has the same vertices and the same edges, with the same attributes.
    pub fn has_same_parts(&self, other: &GraphState) -> bool
        ensures { IsTrue result ↔ (self.now ≡ other.now) }
    {
        self.has_same_vertices(other) && self.has_same_edges(other)
    }

    fn has_same_vertices(&self, other: &GraphState) -> bool
        ensures { IsTrue result ↔ (self.now.vertices ≡ other.now.vertices) }
    {
        self.vertices.len() == other.vertices.len() && self.vertices == other.vertices
    }

    fn has_same_edges(&self, other: &GraphState) -> bool
        ensures { IsTrue result ↔ (self.now.edges ≡ other.now.edges) }
    {
        self.edges.len() == other.edges.len() && self.edges == other.edges
    }

    // Sets the attribute of the edge from one vertex to another, if it may go there.
    fn join(&mut self, ends: (u64, u64), attribute: u64) -> Result<Reply, AllocError>
        ensures reply { IfOk result (λ r. r
            ≡ (add_edge self.old ends attribute (can_join self.old.vertices ends)).reply) }
        ensures state { OnOk result (GraphOf self.new
            ≡ (add_edge self.old ends attribute (can_join self.old.vertices ends)).state) }
        ensures err { OnErr result (self.new ≡ self.old) }
        ensures memory { OnErr result
            ((add_edge self.old ends attribute (can_join self.old.vertices ends)).effects ≢ []) }
    {
        if self.can_join(ends) {
            Ok(earlier(self.insert_edge(ends, attribute)?))
        } else {
            Ok(Reply::NoEnds)
        }
    }

    // Takes a vertex out with every edge from or to it, and gives its attribute.
    fn remove_vertex(&mut self, vertex: u64) -> Option<u64>
        ensures before { result ≡ map.get self.old.vertices vertex }
        ensures after { GraphOf self.new
            ≡ (del_vertex self.old vertex (map.get self.old.vertices vertex)).state }
    {
        let attribute = self.vertices.remove(&vertex)?;
        remove_at(&mut self.edges, vertex);
        Some(attribute)
    }

    // Answers how many edges go from or to a vertex.
    fn degree(&self, vertex: u64) -> Reply
        ensures { result ≡ degree self.now vertex (map.contains_key self.now.vertices vertex) }
    {
        if !self.has_vertex(vertex) {
            return Reply::Nothing;
        }
        let number = count_at(&self.edges, vertex);
        Reply::Count { number }
    }
}

// Whether an edge goes from or to a vertex.
pub(crate) fn touches(vertex: u64, ends: (u64, u64)) -> bool
    ensures { result ≡ touches vertex ends }
{
    ends.0 == vertex || ends.1 == vertex
}

// How many of the edges go from or to a vertex.
fn count_at(edges: &BTreeMap<(u64, u64), u64>, vertex: u64) -> u64
    ensures count { result ≡ count_by (λ (e : Ends × ℕ). touches vertex e.0) edges.now.entries }
    ensures ordered { IsOrdered edge_cmp edges.now }
{
    edges
        .iter()
        .filter(|(ends, _)| touches(vertex, **ends))
        .count() as u64
}

// Takes out the edges that go from or to a vertex.
fn remove_at(edges: &mut BTreeMap<(u64, u64), u64>, vertex: u64)
    ensures { edges.new.entries
        ≡ filter (λ (e : Ends × ℕ). not (touches vertex e.0)) edges.old.entries }
{
    edges.retain(|ends, _| !touches(vertex, *ends));
}
