// The vertices and the edges that the objects of a graph hold.
ghost use Rattle.std.specs.Prelude.{◌≡◌, List, []};
ghost use Rattle.mont_base.specs.declared.record.Object.{Object};
ghost use Rattle.std.specs.Ordering.{nat_cmp};
ghost use Rattle.mont_base.specs.State.{edge_cmp};
ghost use Rattle.mont_base.specs.Structure.{vertex_at, edge_at, part_fault, vertex_fault, edge_fault, lacks_end, end_fault};
ghost use Rattle.plain.specs.Built.{HasNamed, HasParts, AddsNamed};

use crate::gather::Gather;
use mont_base::{Object, ObjectFault, Slot};
use payload::{edge_in, is_edge_body, is_vertex_body, vertex_in};
use std::alloc::{AllocError, Global};
use std::collections::BTreeMap;

// The attributes by their vertices, and by the ends of their edges.
#[derive(Drop)]
pub(crate) struct GraphParts {
    pub vertices: BTreeMap<u64, u64>,
    pub edges: BTreeMap<(u64, u64), u64>,
}

impl GraphParts {
    // No vertices and no edges. It allocates nothing.
    pub fn new(alloc: Global) -> GraphParts
        ensures { HasParts result [] }
    {
        GraphParts {
            vertices: BTreeMap::new(alloc),
            edges: BTreeMap::new(alloc),
        }
    }
}

impl Gather for GraphParts {
    ghost fault_of = { λ _. part_fault };

    ghost has = { HasParts };

    fn add(&mut self, object: &Object) -> Result<Option<ObjectFault>, AllocError> {
        if is_vertex_body(&object.body) {
            add_vertex(&mut self.vertices, object)
        } else if is_edge_body(&object.body) {
            add_edge(&mut self.edges, object)
        } else {
            Ok(Some(ObjectFault::Tag))
        }
    }
}

// Adds the vertex that an object holds, or gives its fault.
fn add_vertex(
    vertices: &mut BTreeMap<u64, u64>,
    object: &Object,
) -> Result<Option<ObjectFault>, AllocError>
    ensures { AddsNamed nat_cmp vertex_at (λ lower. vertex_fault lower (vertex_at object.now))
        vertices.old vertices.new object.now result }
{
    let Some((vertex, attribute)) = vertex_in(&object.body) else {
        return Ok(Some(ObjectFault::Spare));
    };
    let stood = vertices.insert(vertex, attribute)?.is_some();
    Ok(stood.then_some(ObjectFault::Vertex))
}

// Adds the edge that an object holds, or gives its fault.
fn add_edge(
    edges: &mut BTreeMap<(u64, u64), u64>,
    object: &Object,
) -> Result<Option<ObjectFault>, AllocError>
    ensures { AddsNamed edge_cmp edge_at (λ lower. edge_fault lower (edge_at object.now))
        edges.old edges.new object.now result }
{
    let Some((ends, attribute)) = edge_in(&object.body) else {
        return Ok(Some(ObjectFault::Spare));
    };
    if ends.0 == ends.1 {
        return Ok(Some(ObjectFault::Loop));
    }
    let stood = edges.insert(ends, attribute)?.is_some();
    Ok(stood.then_some(ObjectFault::Edge))
}

// The first object whose edge lacks an end, where these are the vertices.
pub(crate) fn lacking_end(
    vertices: &BTreeMap<u64, u64>,
    objects: &[Object],
) -> Option<(Slot, ObjectFault)>
    ensures { HasNamed nat_cmp vertex_at vertices.now objects.now
        → result ≡ end_fault objects.now objects.now }
{
    for object in objects {
        if lacks_end(vertices, object) {
            return Some((object.slot, ObjectFault::End));
        }
    }
    None
}

// Whether an object holds an edge one of whose ends is no vertex.
fn lacks_end(vertices: &BTreeMap<u64, u64>, object: &Object) -> bool
    ensures { (all : List Object) → HasNamed nat_cmp vertex_at vertices.now all
        → result ≡ lacks_end all (edge_at object.now) }
{
    match edge_in(&object.body) {
        Some(((from, to), _)) => !(vertices.contains_key(&from) && vertices.contains_key(&to)),
        None => false,
    }
}
