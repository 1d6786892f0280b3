// The structure of one unit in memory.
ghost use Rattle.std.specs.Prelude.{◌≡◌, ◌≢◌, IfOk, OnOk, OnErr, MatchResult, []};
ghost use Rattle.mont_base.specs.State.{empty_state, size_of, step};
ghost use Rattle.plain.specs.States.{state_of};

use crate::graph_state::GraphState;
use crate::map_state::{MapState, OrderedState};
use crate::queue_state::QueueState;
use crate::unit_effects;
use mont_base::{Effect, Op, Reply, UnitKind};
use std::alloc::{AllocError, Global};

/// The state of a unit of each kind.
#[derive(Clone, Debug, Drop)]
pub enum UnitState {
    Map { state: MapState },
    Queue { state: QueueState },
    Graph { state: GraphState },
    Ordered { state: OrderedState },
}

impl UnitState {
    /// The structure with nothing in it. It allocates nothing.
    pub fn empty(alloc: Global, kind: UnitKind) -> UnitState
        ensures { state_of result ≡ empty_state kind }
    {
        match kind {
            UnitKind::Map => UnitState::Map {
                state: MapState::new(alloc),
            },
            UnitKind::Queue => UnitState::Queue {
                state: QueueState::new(alloc),
            },
            UnitKind::Graph => UnitState::Graph {
                state: GraphState::new(alloc),
            },
            UnitKind::Ordered => UnitState::Ordered {
                state: OrderedState::new(alloc),
            },
        }
    }

    /// Carries an operation out, and answers it. An operation on another kind of unit changes
    /// nothing, and neither does want of memory, which only one that has effects can tell.
    pub fn apply(&mut self, op: &Op) -> Result<Reply, AllocError>
        ensures reply { IfOk result (λ r. r ≡ (step (state_of self.old) op.now).reply) }
        ensures state { OnOk result (state_of self.new ≡ (step (state_of self.old) op.now).state) }
        ensures err { OnErr result (state_of self.new ≡ state_of self.old) }
        ensures memory { OnErr result ((step (state_of self.old) op.now).effects ≢ []) }
    {
        match self {
            UnitState::Map { state } => state.apply(op),
            UnitState::Ordered { state } => state.apply(op),
            UnitState::Queue { state } => state.apply(op),
            UnitState::Graph { state } => state.apply(op),
        }
    }

    /// The things that an operation inserts, replaces and removes, in their order. It carries
    /// nothing out. Where there are none it never wants for memory.
    pub fn effects(&self, alloc: Global, op: &Op) -> Result<Vec<Effect>, AllocError>
        ensures { MatchResult result (λ v. v.items ≡ (step (state_of self.now) op.now).effects)
            (λ _. (step (state_of self.now) op.now).effects ≢ []) }
    {
        match self {
            UnitState::Map { state } | UnitState::Ordered { state } => {
                unit_effects::on_map(alloc, state, op)
            }
            UnitState::Queue { state } => unit_effects::on_queue(alloc, state, op),
            UnitState::Graph { state } => unit_effects::on_graph(alloc, state, op),
        }
    }

    /// How many things are in it: pairs, items, or vertices and edges.
    pub fn size(&self) -> u64
        ensures { result ≡ size_of (state_of self.now) }
    {
        match self {
            UnitState::Map { state } | UnitState::Ordered { state } => state.len(),
            UnitState::Queue { state } => state.len(),
            UnitState::Graph { state } => { state.vertices_len() + state.edges_len() }
        }
    }
}
