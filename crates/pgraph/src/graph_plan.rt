// What an operation on a graph is answered, and what it does to the graph, found without memory.
ghost use Rattle.std.specs.Prelude.{◌≡◌};
ghost use Rattle.mont_base.specs.State.{GraphOf, graph_step};
ghost use Rattle.pgraph.specs.GraphIndex.{graph_in, node_of, part_of};
ghost use Rattle.pgraph.specs.GraphEdit.{Fits, effects_of, graph_behind};
ghost use Rattle.pgraph.specs.GraphPlan.{answering, counted, earlier_of, looked_up, removing_plan, setting_plan};

use crate::graph_edit::GraphEdit;
use crate::graph_index::GraphIndex;
use crate::node::{Name, Node};
use mont_base::{Op, Reply};

// The reply, and what becomes of the graph.
#[derive(Clone, Copy)]
pub(crate) struct GraphPlan {
    pub(crate) reply: Reply,
    pub(crate) edit: GraphEdit,
}

// Plans an operation of a graph unit.
pub(crate) fn plan(index: &GraphIndex, op: &Op) -> GraphPlan
    ensures reply { result.reply ≡ (graph_step (graph_in index.now) op.now).reply }
    ensures effects { effects_of index.now result.edit
        ≡ (graph_step (graph_in index.now) op.now).effects }
    ensures state { (graph_step (graph_in index.now) op.now).state
        ≡ GraphOf (graph_behind (graph_in index.now) result.edit) }
    ensures fits { Fits index.now result.edit }
{
    match *op {
        Op::AddV { vertex, attr, .. } => set(index, Name::Vertex(vertex), attr),
        Op::DelV { vertex, .. } => remove(index, Name::Vertex(vertex)),
        Op::AddE { from, to, attr, .. } => {
            if index.joins((from, to)) {
                set(index, Name::Edge((from, to)), attr)
            } else {
                answer(Reply::NoEnds)
            }
        }
        Op::DelE { from, to, .. } => remove(index, Name::Edge((from, to))),
        _ => answer(look_up(index, op)),
    }
}

// What an operation is answered that sets and removes nothing.
#[inline(always)]
pub(crate) fn look_up(index: &GraphIndex, op: &Op) -> Reply
    ensures { result ≡ looked_up index.now op.now }
{
    match *op {
        Op::Vertex { vertex, .. } => earlier_of(index.vertex(vertex)),
        Op::Degree { vertex, .. } => counted(index.degree(vertex)),
        _ => Reply::Nothing,
    }
}

// Only an answer.
fn answer(reply: Reply) -> GraphPlan
    ensures { result ≡ answering reply }
{
    GraphPlan {
        reply,
        edit: GraphEdit::Keep,
    }
}

// A vertex or an edge is set.
fn set(index: &GraphIndex, name: Name, attribute: u64) -> GraphPlan
    ensures { result ≡ setting_plan name attribute (node_of index.now (part_of name)) }
{
    let was = index.node(name);
    GraphPlan {
        reply: earlier_of(was),
        edit: GraphEdit::Set {
            name,
            attribute,
            was,
        },
    }
}

// A vertex or an edge goes, if it is there.
fn remove(index: &GraphIndex, name: Name) -> GraphPlan
    ensures { result ≡ removing_plan name (node_of index.now (part_of name)) }
{
    let Some(node) = index.node(name) else {
        return answer(Reply::Nothing);
    };
    GraphPlan {
        reply: Reply::Was {
            value: node.attribute,
        },
        edit: GraphEdit::Remove { name, node },
    }
}

// The attribute that was there, if there was one.
fn earlier_of(was: Option<Node>) -> Reply
    ensures { result ≡ earlier_of was }
{
    match was {
        Some(node) => Reply::Was {
            value: node.attribute,
        },
        None => Reply::Nothing,
    }
}

// How many there are, if there is what was asked for.
fn counted(number: Option<u64>) -> Reply
    ensures { result ≡ counted number }
{
    match number {
        Some(number) => Reply::Count { number },
        None => Reply::Nothing,
    }
}
