// How a graph unit begins: with nothing, or with what is live in its region.
ghost use Rattle.std.specs.Prelude.{◌≡◌, ℕ, [], Some, None, IfOk, OnOk};
ghost use Rattle.mont_base.specs.declared.kinds.UnitKind.TheVariants as kinds;
ghost use Rattle.mont_base.specs.Layout.{kind_of};
ghost use Rattle.mont_base.specs.State.{State};
ghost use Rattle.mont_base.specs.Structure.{IsStructure, graph_fault};
ghost use Rattle.mont_base.specs.Versions.{live_objects};
ghost use Rattle.mont_laws.specs.Records.{live_of};
ghost use Rattle.slots.specs.Books.{Agrees};
ghost use Rattle.pgraph.specs.GraphBeginning.{node_at, nodes_of};
ghost use Rattle.pgraph.specs.GraphIndex.{no_nodes};
ghost use Rattle.pgraph.specs.LiveNodes.{HoldsLive};

use crate::graph_index::GraphIndex;
use crate::node::Node;
use crate::pgraph::PGraph;
use mont_base::Object;
use payload::{edge_in, vertex_in};
use slots::Region;
use std::alloc::{AllocError, Global};

impl PGraph {
    /// The graph unit of a region in which nothing is live.
    pub fn fresh(alloc: Global, region: Region) -> Result<PGraph, AllocError>
        requires agrees { Agrees region }
        requires kind { kind_of region.books.layout region.books.unit ≡ Some kinds.Graph }
        requires none { (identity : ℕ) → live_of identity region.seat.known.part.records ≡ None }
        ensures region { IfOk result (λ g. g.region ≡ region) }
        ensures nodes { IfOk result (λ g. g.nodes ≡ no_nodes) }
    {
        Ok(PGraph {
            region,
            index: GraphIndex::new(alloc),
            changes: Vec::new(alloc),
        })
    }

    /// The graph unit of a region whose live objects these are, by rising slot. They make a graph.
    pub fn rebuild(alloc: Global, region: Region, objects: &[Object]) -> Result<PGraph, AllocError>
        requires agrees { Agrees region }
        requires kind { kind_of region.books.layout region.books.unit ≡ Some kinds.Graph }
        requires objects { objects.now ≡ live_objects region.seat.known.part.records }
        requires structure { (state : State)
            × IsStructure region.books.layout region.books.unit objects.now state }
        ensures region { IfOk result (λ g. g.region ≡ region) }
        ensures nodes { IfOk result (λ g. HoldsLive region.seat.known.part.records g.nodes) }
    {
        let mut index = vertices_of(alloc, objects)?;
        insert_edges(&mut index, objects)?;
        Ok(PGraph {
            region,
            index,
            changes: Vec::new(alloc),
        })
    }
}

// The index of the vertices that objects hold. They make a graph.
fn vertices_of(alloc: Global, objects: &[Object]) -> Result<GraphIndex, AllocError>
    requires { graph_fault objects.now ≡ None }
    ensures { IfOk result (λ index. index ≡ nodes_of objects.now []) }
{
    let mut index = GraphIndex::new(alloc);
    for object in objects {
        if let Some((vertex, attribute)) = vertex_in(&object.body) {
            index.insert_vertex(vertex, node_at(object, attribute))?;
        }
    }
    Ok(index)
}

// Adds the edges that objects hold, after all of their vertices. They make a graph.
fn insert_edges(index: &mut GraphIndex, objects: &[Object]) -> Result<(), AllocError>
    requires graph { graph_fault objects.now ≡ None }
    requires vertices { index.old ≡ nodes_of objects.now [] }
    ensures { OnOk result (index.new ≡ nodes_of objects.now objects.now) }
{
    for object in objects {
        if let Some(((from, to), attribute)) = edge_in(&object.body) {
            index.insert_edge(from, to, node_at(object, attribute))?;
        }
    }
    Ok(())
}

// Where an object is.
fn node_at(object: &Object, attribute: u64) -> Node
    ensures { result ≡ node_at object.now attribute }
{
    Node {
        attribute,
        identity: object.identity,
        slot: object.slot,
    }
}
