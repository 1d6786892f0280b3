// The edges from or to a vertex, one after the other.
ghost use Rattle.std.specs.Prelude.{◌≡◌};
ghost use Rattle.std.specs.Iterator.{YieldsFirst, item_count};
ghost use Rattle.pgraph.specs.EdgesAt.{AreThere, edges_behind};

use crate::node::{Ends, Node};
use crate::shelf::Shelf;
use std::collections::btree_set::Iter;
use std::marker::Model;

// Each edge with its node. Contracts see those that are still to come.
#[derive(Drop)]
pub(crate) struct EdgesAt<'a> {
    ends: Option<Iter<'a, Ends>>,
    edges: &'a Shelf<Ends, Node>,
}

impl<'a> Model for EdgesAt<'a> {
    ghost use Rattle.std.specs.Prelude.{List};
    ghost use Rattle.mont_base.specs.State.{Ends};
    ghost use Rattle.pgraph.specs.declared.node.Node.{Node};
    ghost use Rattle.pgraph.specs.EdgesAt.{AreThere, edges_behind};

    ghost Value = { List (Ends × Node) };

    ghost view = { λ s. edges_behind s.edges.now s.ends };

    ghost invariant = { λ s. AreThere s.edges.now s.ends };
}

impl<'a> EdgesAt<'a> {
    // The edges that stand after a vertex.
    pub(crate) fn new(ends: Option<Iter<'a, Ends>>, edges: &'a Shelf<Ends, Node>) -> EdgesAt<'a>
        requires { AreThere edges.now ends }
        ensures { result ≡ edges_behind edges.now ends.entry }
    {
        EdgesAt { ends, edges }
    }
}

impl<'a> Iterator for EdgesAt<'a> {
    type Item = (Ends, Node);

    ghost next_gives = { YieldsFirst (λ s. s) };

    ghost remaining = { item_count (λ s. s) };

    fn next(&mut self) -> Option<(Ends, Node)> {
        let ends = *self.ends.as_mut()?.next()?;
        let node = *self.edges.get(ends)?;
        Some((ends, node))
    }
}
