// Faults of the objects of a graph.
ghost use Rattle.std.specs.Prelude.{◌≡◌, ◌++◌, List, [], OnOk};
ghost use Rattle.std.specs.Ordering.{nat_cmp};
ghost use Rattle.mont_base.specs.declared.record.Object.{Object};
ghost use Rattle.mont_base.specs.State.{edge_cmp};
ghost use Rattle.mont_base.specs.Structure.{edge_at, edge_fault, lacks_end, part_fault, vertex_at, vertex_fault};
ghost use Rattle.image_info.specs.AllFaults.{end_faults, judged};
ghost use Rattle.image_info.specs.ObjectFaults.{HasNames, HasPartNames, JudgesNamed};

use crate::object_faults::{Judge, push_judged};
use image_units::ImageFault;
use mont_base::{Object, ObjectFault, Slot, Unit};
use payload::{edge_in, is_edge_body, is_vertex_body, vertex_in};
use std::alloc::{AllocError, Global};
use std::collections::BTreeMap;

/// The vertices and the ends of the edges so far, each with a slot.
#[derive(Drop)]
pub(crate) struct PartJudge {
    pub vertices: BTreeMap<u64, Slot>,
    pub edges: BTreeMap<(u64, u64), Slot>,
}

impl PartJudge {
    /// No vertices and no edges.
    pub fn new(alloc: Global) -> PartJudge
        ensures { HasPartNames result [] }
    {
        PartJudge {
            vertices: BTreeMap::new(alloc),
            edges: BTreeMap::new(alloc),
        }
    }
}

impl Judge for PartJudge {
    ghost fault_of = { λ _. part_fault };

    ghost knows = { HasPartNames };

    fn judge(&mut self, object: &Object) -> Result<Option<ObjectFault>, AllocError> {
        if is_vertex_body(&object.body) {
            judge_vertex(&mut self.vertices, object)
        } else if is_edge_body(&object.body) {
            judge_edge(&mut self.edges, object)
        } else {
            Ok(Some(ObjectFault::Tag))
        }
    }
}

/// Adds every fault of the parts of a graph, then every edge that lacks an end.
pub(crate) fn push_graph_faults(
    alloc: Global,
    unit: Unit,
    objects: &[Object],
    faults: &mut Vec<ImageFault>,
) -> Result<(), AllocError>
    ensures { OnOk result (faults.new.items
        ≡ faults.old.items ++ (judged unit part_fault objects.now ++ end_faults unit objects.now)) }
{
    let mut parts = PartJudge::new(alloc);
    push_judged(&mut parts, unit, objects, faults)?;
    push_end_faults(&parts.vertices, unit, objects, faults)
}

// Adds every edge that lacks an end, where these are the vertices.
fn push_end_faults(
    vertices: &BTreeMap<u64, Slot>,
    unit: Unit,
    objects: &[Object],
    faults: &mut Vec<ImageFault>,
) -> Result<(), AllocError>
    requires { HasNames nat_cmp vertex_at vertices.now objects.now }
    ensures { OnOk result (faults.new.items ≡ faults.old.items ++ end_faults unit objects.now) }
{
    for object in objects {
        if lacks_end(vertices, object) {
            let (slot, fault) = (object.slot, ObjectFault::End);
            faults.push(ImageFault::Object { unit, slot, fault })?;
        }
    }
    Ok(())
}

// The fault of an object with the tag of a vertex.
fn judge_vertex(
    vertices: &mut BTreeMap<u64, Slot>,
    object: &Object,
) -> Result<Option<ObjectFault>, AllocError>
    ensures { JudgesNamed nat_cmp vertex_at (λ lower. vertex_fault lower (vertex_at object.now))
        vertices.old vertices.new object.now result }
{
    let Some((vertex, _)) = vertex_in(&object.body) else {
        return Ok(Some(ObjectFault::Spare));
    };
    let stood = vertices.insert(vertex, object.slot)?.is_some();
    Ok(stood.then_some(ObjectFault::Vertex))
}

// The fault of an object with the tag of an edge.
fn judge_edge(
    edges: &mut BTreeMap<(u64, u64), Slot>,
    object: &Object,
) -> Result<Option<ObjectFault>, AllocError>
    ensures { JudgesNamed edge_cmp edge_at (λ lower. edge_fault lower (edge_at object.now))
        edges.old edges.new object.now result }
{
    let Some((ends, _)) = edge_in(&object.body) else {
        return Ok(Some(ObjectFault::Spare));
    };
    let stood = edges.insert(ends, object.slot)?.is_some();
    if ends.0 == ends.1 {
        return Ok(Some(ObjectFault::Loop));
    }
    Ok(stood.then_some(ObjectFault::Edge))
}

// Whether an object holds an edge one of whose ends is no vertex.
fn lacks_end(vertices: &BTreeMap<u64, Slot>, object: &Object) -> bool
    ensures { (all : List Object) → HasNames nat_cmp vertex_at vertices.now all
        → result ≡ lacks_end all (edge_at object.now) }
{
    match edge_in(&object.body) {
        Some(((from, to), _)) => !(vertices.contains_key(&from) && vertices.contains_key(&to)),
        None => false,
    }
}
