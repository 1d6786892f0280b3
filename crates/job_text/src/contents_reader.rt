// The contents of a report's units.
ghost use Rattle.std.specs.Prelude.{◌≡◌, ◌<◌, ◌≤◌, ◌^◌, map, Some, None, MatchResult};
ghost use Rattle.std.specs.FinMap as finite;
ghost use Rattle.mont_base.specs.State.{MapOf, QueueOf, GraphOf};
ghost use Rattle.plain.specs.States.{state_of, states_of};
ghost use Rattle.job_text.specs.Operations.{IsNumber};
ghost use Rattle.job_text.specs.Readings.{Reads, Refuses};
ghost use Rattle.job_text.specs.ReportText.{pairs_name, item_words, vertex_words, edge_words, state_lines, contents_lines};
ghost use Rattle.job_text.specs.Spelling.{pair_words};
ghost use Rattle.job_text.specs.ReportRanges.{IsPair, IsVertex, IsEdge, IsStateOf, AreCounted, AreContents};
ghost use Rattle.job_text.specs.ReportRows.{Tells, AllOf, AllRising, RowsOf, pair_behind, vertex_behind, edge_behind, all_pairs, all_vertices, all_edges};

use crate::report_heads::{next_count, next_graph_counts};
use crate::report_refusal::ReportRefusal;
use crate::row_reader::{next_edge, next_item, next_pair, next_vertex};
use crate::unread::Unread;
use mont_base::{Layout, Sequence, UnitKind};
use plain::{Contents, GraphState, MapState, QueueState, UnitState};
use std::alloc::Global;

/// The contents of the units of a layout.
pub fn next_units(
    alloc: Global,
    lines: &mut Unread<'_>,
    layout: &Layout,
) -> Result<Contents, ReportRefusal>
    ensures { MatchResult result
        (λ c. Reads (AreContents layout.now.kinds) (contents_lines layout.now.kinds)
        lines.old lines.new (states_of c))
        (λ e. Refuses (AreContents layout.now.kinds) (contents_lines layout.now.kinds)
        lines.old e) }
{
    let kinds = layout.kinds();
    let mut units = Sequence::new(alloc);
    for (unit, kind) in kinds.as_slice().iter().enumerate() {
        let state = next_unit(alloc, lines, unit as u64, *kind)?;
        units.push(state)?;
    }
    Ok(Contents { units })
}

fn next_unit(
    alloc: Global,
    lines: &mut Unread<'_>,
    unit: u64,
    kind: UnitKind,
) -> Result<UnitState, ReportRefusal>
    ensures { MatchResult result
        (λ s. Reads (IsStateOf kind) (state_lines (Some kind) unit) lines.old lines.new
        (state_of s))
        (λ e. Refuses (IsStateOf kind) (state_lines (Some kind) unit) lines.old e) }
{
    match kind {
        UnitKind::Map => {
            let state = next_map(alloc, lines, kind, unit)?;
            Ok(UnitState::Map { state })
        }
        UnitKind::Ordered => {
            let state = next_map(alloc, lines, kind, unit)?;
            Ok(UnitState::Ordered { state })
        }
        UnitKind::Queue => {
            let state = next_queue(alloc, lines, unit)?;
            Ok(UnitState::Queue { state })
        }
        UnitKind::Graph => {
            let state = next_graph(alloc, lines, unit)?;
            Ok(UnitState::Graph { state })
        }
    }
}

// The pairs of a map, or of an ordered unit.
fn next_map(
    alloc: Global,
    lines: &mut Unread<'_>,
    kind: UnitKind,
    unit: u64,
) -> Result<MapState, ReportRefusal>
    ensures { Tells (λ m. AreCounted IsPair (finite.entries m))
        (λ m. state_lines (Some kind) unit (MapOf m)) lines.old lines.new result }
{
    let count = next_count(lines, pairs_name(kind), unit)?;
    next_pairs(alloc, lines, count)
}

// The word before the pairs of a unit of a kind that keeps pairs.
fn pairs_name(kind: UnitKind) -> &'static [u8]
    ensures { result.now ≡ pairs_name (Some kind) }
{
    match kind {
        UnitKind::Ordered => b"ordered",
        _ => b"map",
    }
}

// So many pairs, by rising key.
fn next_pairs(alloc: Global, lines: &mut Unread<'_>, count: u64) -> Result<MapState, ReportRefusal>
    ensures { Tells (λ m. AllRising IsPair pair_behind all_pairs count (finite.entries m))
        (λ m. RowsOf pair_words (finite.entries m)) lines.old lines.new result }
{
    let mut state = MapState::new(alloc);
    let mut last = None;
    for place in 0..count {
        let (key, value) = next_pair(lines, last, count - place - 1)?;
        let _ = state.insert(key, value)?;
        last = Some(key);
    }
    Ok(state)
}

fn next_queue(alloc: Global, lines: &mut Unread<'_>, unit: u64) -> Result<QueueState, ReportRefusal>
    ensures { Tells (AreCounted IsNumber) (λ items. state_lines None unit (QueueOf items))
        lines.old lines.new result }
{
    let count = next_count(lines, b"queue", unit)?;
    next_items(alloc, lines, count)
}

// So many items.
fn next_items(
    alloc: Global,
    lines: &mut Unread<'_>,
    count: u64,
) -> Result<QueueState, ReportRefusal>
    ensures { Tells (AllOf (λ place. IsNumber) count) (RowsOf item_words)
        lines.old lines.new result }
{
    let mut state = QueueState::new(alloc);
    for _place in 0..count {
        let item = next_item(lines)?;
        state.push(item)?;
    }
    Ok(state)
}

fn next_graph(alloc: Global, lines: &mut Unread<'_>, unit: u64) -> Result<GraphState, ReportRefusal>
    ensures { Tells (λ g. AreCounted IsVertex (finite.entries g.vertices)
        × AreCounted IsEdge (finite.entries g.edges)) (λ g. state_lines None unit (GraphOf g))
        lines.old lines.new result }
{
    let (vertices, edges) = next_graph_counts(lines, unit)?;
    let mut state = GraphState::new(alloc);
    next_vertices(lines, &mut state, vertices)?;
    next_edges(lines, &mut state, edges)?;
    Ok(state)
}

// Adds so many vertices, by rising vertex.
fn next_vertices(
    lines: &mut Unread<'_>,
    state: &mut GraphState,
    count: u64,
) -> Result<(), ReportRefusal>
    requires { state.old.vertices ≡ finite.empty }
    ensures edges { state.new.edges ≡ state.old.edges }
    ensures vertices { MatchResult result
        (λ _. Reads (AllRising IsVertex vertex_behind all_vertices count) (RowsOf vertex_words)
        lines.old lines.new (finite.entries state.new.vertices))
        (λ e. Refuses (AllRising IsVertex vertex_behind all_vertices count) (RowsOf vertex_words)
        lines.old e) }
{
    let mut last = None;
    for place in 0..count {
        let (vertex, attribute) = next_vertex(lines, last, count - place - 1)?;
        let _ = state.insert_vertex(vertex, attribute)?;
        last = Some(vertex);
    }
    Ok(())
}

// Adds so many edges, by the vertex that they leave and then by the one that they reach.
fn next_edges(
    lines: &mut Unread<'_>,
    state: &mut GraphState,
    count: u64,
) -> Result<(), ReportRefusal>
    requires { state.old.edges ≡ finite.empty }
    ensures vertices { state.new.vertices ≡ state.old.vertices }
    ensures edges { MatchResult result
        (λ _. Reads (AllRising IsEdge edge_behind all_edges count) (RowsOf edge_words)
        lines.old lines.new (finite.entries state.new.edges))
        (λ e. Refuses (AllRising IsEdge edge_behind all_edges count) (RowsOf edge_words)
        lines.old e) }
{
    let mut last = None;
    for place in 0..count {
        let (ends, attribute) = next_edge(lines, last, count - place - 1)?;
        let _ = state.insert_edge(ends, attribute)?;
        last = Some(ends);
    }
    Ok(())
}
