// The lines of a report that tell the contents of its units.
ghost use Rattle.std.specs.Prelude.{◌≡◌, ◌++◌, map, None, OnOk};
ghost use Rattle.std.specs.String.{string_bytes};
ghost use Rattle.std.specs.VecDeque.Iter.{deque_iter_rest};
ghost use Rattle.mont_base.specs.State.{MapOf, QueueOf, GraphOf};
ghost use Rattle.plain.specs.States.{state_of};
ghost use Rattle.job_text.specs.Lines.{text_of};
ghost use Rattle.job_text.specs.Spelling.{pair_words};
ghost use Rattle.job_text.specs.ReportText.{contents_lines, state_lines, item_words, vertex_words, edge_words};

use crate::text_word::TextWord;
use mont_base::{Kinds, Text, UnitKind};
use plain::{GraphState, MapState, QueueState, UnitState};
use std::alloc::AllocError;
use std::collections::{btree_map, vec_deque};

/// The contents of all units of a store of these kinds.
pub fn write_units(text: &mut String, kinds: &Kinds, units: &[UnitState]) -> Result<(), AllocError>
    ensures { OnOk result (string_bytes text.new
        ≡ string_bytes text.old ++ text_of (contents_lines kinds.now (map state_of units.now))) }
{
    for (unit, state) in units.iter().enumerate() {
        write_unit(text, kinds.get(unit as u64), unit, state)?;
    }
    Ok(())
}

fn write_unit(
    text: &mut String,
    kind: Option<UnitKind>,
    unit: usize,
    state: &UnitState,
) -> Result<(), AllocError>
    ensures { OnOk result (string_bytes text.new
        ≡ string_bytes text.old ++ text_of (state_lines kind unit (state_of state.now))) }
{
    match state {
        UnitState::Map { state } | UnitState::Ordered { state } => {
            write_map(text, kind, unit, state)
        }
        UnitState::Queue { state } => write_queue(text, unit, state),
        UnitState::Graph { state } => write_graph(text, unit, state),
    }
}

fn write_map(
    text: &mut String,
    kind: Option<UnitKind>,
    unit: usize,
    state: &MapState,
) -> Result<(), AllocError>
    ensures { OnOk result (string_bytes text.new
        ≡ string_bytes text.old ++ text_of (state_lines kind unit (MapOf state.now))) }
{
    let length = state.len();
    match kind {
        Some(UnitKind::Ordered) => writeln!(text, "ordered {unit} {length}")?,
        _ => writeln!(text, "map {unit} {length}")?,
    }
    write_pairs(text, state.iter())
}

fn write_queue(text: &mut String, unit: usize, state: &QueueState) -> Result<(), AllocError>
    ensures { OnOk result (string_bytes text.new
        ≡ string_bytes text.old ++ text_of (state_lines None unit (QueueOf state.now))) }
{
    let length = state.len();
    writeln!(text, "queue {unit} {length}")?;
    write_items(text, state.items())
}

fn write_graph(text: &mut String, unit: usize, state: &GraphState) -> Result<(), AllocError>
    ensures { OnOk result (string_bytes text.new
        ≡ string_bytes text.old ++ text_of (state_lines None unit (GraphOf state.now))) }
{
    let vertices = state.vertices_len();
    let edges = state.edges_len();
    writeln!(text, "graph {unit} {vertices} {edges}")?;
    write_vertices(text, state.vertices())?;
    write_edges(text, state.edges())
}

fn write_pairs(text: &mut String, pairs: btree_map::Iter<'_, Text, Text>) -> Result<(), AllocError>
    ensures { OnOk result (string_bytes text.new
        ≡ string_bytes text.old ++ text_of (map pair_words pairs.entry)) }
{
    for (key, value) in pairs {
        let (key, value) = (TextWord(*key), TextWord(*value));
        writeln!(text, "{key} {value}")?;
    }
    Ok(())
}

fn write_items(text: &mut String, items: vec_deque::Iter<'_, u64>) -> Result<(), AllocError>
    ensures { OnOk result (string_bytes text.new
        ≡ string_bytes text.old ++ text_of (map item_words (deque_iter_rest items.entry))) }
{
    for item in items {
        writeln!(text, "{item}")?;
    }
    Ok(())
}

fn write_vertices(
    text: &mut String,
    vertices: btree_map::Iter<'_, u64, u64>,
) -> Result<(), AllocError>
    ensures { OnOk result (string_bytes text.new
        ≡ string_bytes text.old ++ text_of (map vertex_words vertices.entry)) }
{
    for (vertex, attribute) in vertices {
        writeln!(text, "{vertex} {attribute}")?;
    }
    Ok(())
}

fn write_edges(
    text: &mut String,
    edges: btree_map::Iter<'_, (u64, u64), u64>,
) -> Result<(), AllocError>
    ensures { OnOk result (string_bytes text.new
        ≡ string_bytes text.old ++ text_of (map edge_words edges.entry)) }
{
    for ((from, to), attribute) in edges {
        writeln!(text, "{from} {to} {attribute}")?;
    }
    Ok(())
}
