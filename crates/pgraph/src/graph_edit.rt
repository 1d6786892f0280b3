// What an operation does to a graph, and the changes that make its effects.
ghost use Rattle.std.specs.Prelude.{◌≡◌, ◌++◌, map, OnOk, OnErr, IsSome};
ghost use Rattle.pgraph.specs.GraphIndex.{part_of};
ghost use Rattle.pgraph.specs.GraphEdit.{Fits, body_of, changes_of, edge_removal, nodes_with, prepared, removal, setting, unwritten};

use crate::graph_index::GraphIndex;
use crate::node::{Name, Node};
use mont_base::{BODY, Change};
use payload::{edge_body, vertex_body};
use std::alloc::AllocError;

// What becomes of a graph.
#[derive(Clone, Copy)]
pub(crate) enum GraphEdit {
    // It stays as it is.
    Keep,
    // A vertex or an edge is set. It had this node, if it was there.
    Set {
        name: Name,
        attribute: u64,
        was: Option<Node>,
    },
    // A vertex goes with its edges, or an edge goes.
    Remove {
        name: Name,
        node: Node,
    },
}

impl Node {
    // The change that removes what is there.
    pub(crate) fn removal(&self) -> Change
        ensures { result ≡ removal self.now }
    {
        Change::Remove {
            slot: self.slot,
            identity: self.identity,
        }
    }
}

// The body of a vertex or an edge.
fn body_of(name: Name, attribute: u64) -> [u64; BODY]
    ensures { result ≡ body_of (part_of name) attribute }
{
    match name {
        Name::Vertex(vertex) => vertex_body(vertex, attribute),
        Name::Edge(ends) => edge_body(ends, attribute),
    }
}

// The change that sets a vertex or an edge, which was there or wasn't.
pub(crate) fn setting(name: Name, attribute: u64, was: Option<Node>) -> Change
    ensures { result ≡ setting (part_of name) attribute was }
{
    let body = body_of(name, attribute);
    match was {
        Some(node) => Change::Replace {
            slot: node.slot,
            identity: node.identity,
            body,
        },
        None => Change::Insert { body },
    }
}

// Lists the changes of an edit in place of those that are listed.
pub(crate) fn list_changes(
    changes: &mut Vec<Change>,
    index: &GraphIndex,
    edit: &GraphEdit,
) -> Result<(), AllocError>
    ensures { OnOk result (changes.new.items ≡ changes_of index.now edit.now) }
{
    changes.clear();
    match *edit {
        GraphEdit::Keep => {}
        GraphEdit::Set {
            name,
            attribute,
            was,
        } => changes.push(setting(name, attribute, was))?,
        GraphEdit::Remove { name, node } => {
            list_edges(changes, index, name)?;
            changes.push(node.removal())?;
        }
    }
    Ok(())
}

// Lists the removals of the edges that go with a vertex.
fn list_edges(changes: &mut Vec<Change>, index: &GraphIndex, name: Name) -> Result<(), AllocError>
    ensures { OnOk result (changes.new.items
        ≡ changes.old.items ++ map edge_removal (nodes_with index.now (part_of name))) }
{
    if let Name::Vertex(vertex) = name {
        for (_, node) in index.edges_at(vertex) {
            changes.push(node.removal())?;
        }
    }
    Ok(())
}

// Gives what comes in a node, before its record is written.
pub(crate) fn prepare(index: &mut GraphIndex, edit: &GraphEdit) -> Result<(), AllocError>
    requires { Fits index.old edit.now }
    ensures ok { OnOk result (index.new ≡ prepared index.old edit.now) }
    ensures err { OnErr result (index.new ≡ index.old) }
{
    if let GraphEdit::Set {
        name,
        attribute,
        was: None,
    } = *edit
    {
        let (identity, slot) = (0, 0);
        index.insert(
            name,
            Node {
                attribute,
                identity,
                slot,
            },
        )?;
    }
    Ok(())
}
