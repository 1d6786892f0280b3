// What is counted of the contents of all units, and the sum of their values.
ghost use Rattle.std.specs.Prelude.{◌≡◌, ◌+◌, ◌%◌, ◌^◌, ◌≤◌, MatchResult, sum, sum_by};
ghost use Rattle.mont_base.specs.State.{size_of};
ghost use Rattle.std.specs.VecDeque.Iter.{deque_iter_rest};
ghost use Rattle.plain.specs.States.{state_of, states_of};
ghost use Rattle.big_job.specs.Totals.{things_in, totals_of, value_of_edge, value_of_pair, value_of_vertex, with_state};

use crate::digits::number_spelled;
use mont_base::Text;
use plain::{Contents, UnitState};
use std::alloc::AllocError;
use std::collections::{btree_map, vec_deque};

/// How many things of each sort there are in all units, and the sum of their values modulo 2^64.
#[derive(Clone, Copy, Debug, PartialEq, Eq)]
pub struct Totals {
    pub keys: u64,
    pub items: u64,
    pub vertices: u64,
    pub edges: u64,
    pub sum: u64,
}

impl Totals {
    /// Those of contents. Only a count above `u64::MAX`, for which no memory has room, is want of
    /// memory.
    pub fn of(contents: &Contents) -> Result<Totals, AllocError>
        ensures { MatchResult result (λ t. t ≡ totals_of (states_of contents.now))
            (λ _. 2 ^ 64 ≤ sum_by size_of (states_of contents.now)) }
    {
        let mut totals = Totals {
            keys: 0,
            items: 0,
            vertices: 0,
            edges: 0,
            sum: 0,
        };
        for state in contents.units.as_slice() {
            totals = totals.with(state)?;
        }
        Ok(totals)
    }

    // With those of one unit more.
    fn with(self, state: &UnitState) -> Result<Totals, AllocError>
        ensures { MatchResult result (λ t. t ≡ with_state self (state_of state.now))
            (λ _. 2 ^ 64 ≤ things_in self + size_of (state_of state.now)) }
    {
        match state {
            UnitState::Map { state } | UnitState::Ordered { state } => Ok(Totals {
                keys: added(self.keys, state.len())?,
                sum: self.sum.wrapping_add(sum_of_pairs(state.iter())),
                ..self
            }),
            UnitState::Queue { state } => Ok(Totals {
                items: added(self.items, state.len())?,
                sum: self.sum.wrapping_add(sum_of_items(state.items())),
                ..self
            }),
            UnitState::Graph { state } => {
                let of_edges = sum_of_edges(state.edges());
                let of_both = sum_of_vertices(state.vertices()).wrapping_add(of_edges);
                Ok(Totals {
                    vertices: added(self.vertices, state.vertices_len())?,
                    edges: added(self.edges, state.edges_len())?,
                    sum: self.sum.wrapping_add(of_both),
                    ..self
                })
            }
        }
    }
}

// A count that there is room for.
fn added(a: u64, b: u64) -> Result<u64, AllocError>
    ensures { MatchResult result (λ n. n ≡ a + b) (λ _. 2 ^ 64 ≤ a + b) }
{
    a.checked_add(b).ok_or(AllocError)
}

fn sum_of_pairs(pairs: btree_map::Iter<'_, Text, Text>) -> u64
    ensures { result ≡ sum_by value_of_pair pairs.entry % 2 ^ 64 }
{
    let mut sum: u64 = 0;
    for (_key, value) in pairs {
        sum = sum.wrapping_add(number_spelled(value));
    }
    sum
}

fn sum_of_items(items: vec_deque::Iter<'_, u64>) -> u64
    ensures { result ≡ sum (deque_iter_rest items.entry) % 2 ^ 64 }
{
    let mut sum: u64 = 0;
    for item in items {
        sum = sum.wrapping_add(*item);
    }
    sum
}

fn sum_of_vertices(vertices: btree_map::Iter<'_, u64, u64>) -> u64
    ensures { result ≡ sum_by value_of_vertex vertices.entry % 2 ^ 64 }
{
    let mut sum: u64 = 0;
    for (_vertex, attribute) in vertices {
        sum = sum.wrapping_add(*attribute);
    }
    sum
}

fn sum_of_edges(edges: btree_map::Iter<'_, (u64, u64), u64>) -> u64
    ensures { result ≡ sum_by value_of_edge edges.entry % 2 ^ 64 }
{
    let mut sum: u64 = 0;
    for (_ends, attribute) in edges {
        sum = sum.wrapping_add(*attribute);
    }
    sum
}
