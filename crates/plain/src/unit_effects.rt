// The things that an operation inserts into a structure, replaces in it and removes from it.
ghost use Rattle.std.specs.Prelude.{◌≡◌, ◌≢◌, IfOk, OnErr, ◌∷◌, [], Some};
ghost use Rattle.mont_base.specs.State.{map_step, queue_step, graph_step, set_effects, add_edge, del_vertex, can_join, edge_thing};

use crate::graph_state::{GraphState, touches};
use crate::map_state::MapState;
use crate::queue_state::QueueState;
use mont_base::{Effect, Op, Thing};
use std::alloc::{AllocError, Global};

// What an operation does to a map or an ordered unit.
pub(crate) fn on_map(alloc: Global, state: &MapState, op: &Op) -> Result<Vec<Effect>, AllocError>
    ensures effects { IfOk result (λ v. v.items ≡ (map_step state.now op.now).effects) }
    ensures memory { OnErr result ((map_step state.now op.now).effects ≢ []) }
{
    match *op {
        Op::Put { key, value } | Op::OPut { key, value, .. } => {
            let was = state.get(&key).is_some();
            set(alloc, was, Thing::Pair { key, value })
        }
        Op::Del { key } | Op::ODel { key, .. } => match state.get(&key) {
            Some(value) => removal(alloc, Thing::Pair { key, value }),
            None => Ok(Vec::new(alloc)),
        },
        _ => Ok(Vec::new(alloc)),
    }
}

// What an operation does to a queue.
pub(crate) fn on_queue(
    alloc: Global,
    state: &QueueState,
    op: &Op,
) -> Result<Vec<Effect>, AllocError>
    ensures effects { IfOk result (λ v. v.items ≡ (queue_step state.now op.now).effects) }
    ensures memory { OnErr result ((queue_step state.now op.now).effects ≢ []) }
{
    match *op {
        Op::Enq { item, .. } => set(alloc, false, Thing::Item { item }),
        Op::Deq { .. } => match state.first() {
            Some(item) => removal(alloc, Thing::Item { item }),
            None => Ok(Vec::new(alloc)),
        },
        _ => Ok(Vec::new(alloc)),
    }
}

// What an operation does to a graph.
pub(crate) fn on_graph(
    alloc: Global,
    state: &GraphState,
    op: &Op,
) -> Result<Vec<Effect>, AllocError>
    ensures effects { IfOk result (λ v. v.items ≡ (graph_step state.now op.now).effects) }
    ensures memory { OnErr result ((graph_step state.now op.now).effects ≢ []) }
{
    match *op {
        Op::AddV { vertex, attr, .. } => {
            let was = state.has_vertex(vertex);
            set(
                alloc,
                was,
                Thing::Vertex {
                    vertex,
                    attribute: attr,
                },
            )
        }
        Op::DelV { vertex, .. } => match state.vertex(vertex) {
            Some(attribute) => vertex_removal(alloc, state, vertex, attribute),
            None => Ok(Vec::new(alloc)),
        },
        Op::AddE { from, to, attr, .. } => joining(alloc, state, (from, to), attr),
        Op::DelE { from, to, .. } => match state.edge((from, to)) {
            Some(attribute) => removal(alloc, edge_thing((from, to), attribute)),
            None => Ok(Vec::new(alloc)),
        },
        _ => Ok(Vec::new(alloc)),
    }
}

// An edge is set, if it may go from one vertex to the other.
fn joining(
    alloc: Global,
    state: &GraphState,
    ends: (u64, u64),
    attribute: u64,
) -> Result<Vec<Effect>, AllocError>
    ensures effects { IfOk result (λ v. v.items
        ≡ (add_edge state.now ends attribute (can_join state.now.vertices ends)).effects) }
    ensures memory { OnErr result
        ((add_edge state.now ends attribute (can_join state.now.vertices ends)).effects ≢ []) }
{
    if !state.can_join(ends) {
        return Ok(Vec::new(alloc));
    }
    let was = state.edge(ends).is_some();
    set(alloc, was, edge_thing(ends, attribute))
}

// A vertex goes with every edge from or to it, and these go first.
fn vertex_removal(
    alloc: Global,
    state: &GraphState,
    vertex: u64,
    attribute: u64,
) -> Result<Vec<Effect>, AllocError>
    ensures { IfOk result (λ v. v.items ≡ (del_vertex state.now vertex (Some attribute)).effects) }
{
    let mut effects = Vec::new(alloc);
    for (ends, of_edge) in state.edges() {
        if touches(vertex, *ends) {
            let thing = edge_thing(*ends, *of_edge);
            effects.push(Effect::Removes { thing })?;
        }
    }
    let thing = Thing::Vertex { vertex, attribute };
    effects.push(Effect::Removes { thing })?;
    Ok(effects)
}

// A thing is set, which was there or wasn't.
fn set(alloc: Global, was: bool, thing: Thing) -> Result<Vec<Effect>, AllocError>
    ensures { IfOk result (λ v. v.items ≡ set_effects was thing) }
{
    if was {
        return replacement(alloc, thing);
    }
    insertion(alloc, thing)
}

// A thing comes in.
fn insertion(alloc: Global, thing: Thing) -> Result<Vec<Effect>, AllocError>
    ensures { IfOk result (λ v. v.items ≡ Effect.Inserts thing ∷ []) }
{
    let mut effects = Vec::new(alloc);
    effects.push(Effect::Inserts { thing })?;
    Ok(effects)
}

// A thing takes the place of what had its name.
fn replacement(alloc: Global, thing: Thing) -> Result<Vec<Effect>, AllocError>
    ensures { IfOk result (λ v. v.items ≡ Effect.Replaces thing ∷ []) }
{
    let mut effects = Vec::new(alloc);
    effects.push(Effect::Replaces { thing })?;
    Ok(effects)
}

// A thing goes.
fn removal(alloc: Global, thing: Thing) -> Result<Vec<Effect>, AllocError>
    ensures { IfOk result (λ v. v.items ≡ Effect.Removes thing ∷ []) }
{
    let mut effects = Vec::new(alloc);
    effects.push(Effect::Removes { thing })?;
    Ok(effects)
}

// An edge as a thing.
fn edge_thing(ends: (u64, u64), attribute: u64) -> Thing
    ensures { result ≡ edge_thing (ends, attribute) }
{
    let (from, to) = ends;
    Thing::Edge {
        from,
        to,
        attribute,
    }
}
