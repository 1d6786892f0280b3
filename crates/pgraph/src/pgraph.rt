// A graph as a unit of a store.
ghost use Rattle.std.specs.Prelude.{◌≡◌};
ghost use Rattle.pgraph.specs.PGraph.{IsGraphUnit};

use crate::graph_index::GraphIndex;
use heap_pass::OfHeap;
use mont_base::Change;
use slots::Region;
use std::marker::Model;

/// A graph unit: its vertices and edges stand in the records of a region, and in memory by their
/// names.
///
/// Contracts see the region, and where each vertex and each edge is. These are exactly the live
/// ones, unless a caller was cut in the unit: then they are of no use any more.
#[derive(Drop)]
pub struct PGraph {
    pub(crate) region: Region,
    pub(crate) index: GraphIndex,
    // The changes of one operation, and room for those of the next.
    pub(crate) changes: Vec<Change>,
}

impl Model for PGraph {
    ghost use Rattle.pgraph.specs.PGraph.{PGraphShown, pgraph_code, IsGraphUnit};

    ghost Value = { PGraphShown };

    ghost coded = { pgraph_code };

    ghost view = { λ g. record { region = g.region; nodes = g.index } };

    ghost invariant = { λ g. IsGraphUnit g.region g.index };
}

impl OfHeap for PGraph {
    ghost use Rattle.structure_call.specs.Standing.{IsStanding, standing_once};

    ghost fits = { λ heap g. IsStanding heap g.region };

    ghost fits_once = { λ heap g. standing_once heap g.region };
}

impl PGraph {
    /// The region of the unit.
    pub fn region(&self) -> &Region
        ensures region { result.now ≡ self.now.region }
        ensures unit { IsGraphUnit self.now.region self.now.nodes }
    {
        &self.region
    }

    /// Gives the region back, and drops the rest.
    pub fn into_region(self) -> Region
        ensures region { result ≡ self.region }
        ensures unit { IsGraphUnit self.region self.nodes }
    {
        let PGraph {
            region,
            index: _,
            changes: _,
        } = self;
        region
    }
}
