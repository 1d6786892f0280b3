// A map unit or an ordered unit: the region of its slots, and an index from each live key to its
// slot.
ghost use Rattle.std.specs.Prelude.{◌≡◌, None, IfSome};
ghost use Rattle.mont_base.specs.declared.effect.Thing.TheVariants.{Pair};
ghost use Rattle.structure_call.specs.Planning.{NamesThing};
ghost use Rattle.shard_map.specs.MapPlan.{HasValue, value_found};
ghost use Rattle.shard_map.specs.MapShard.{IsMapUnit};

use crate::map_plan::{Found, find};
use heap_pass::OfHeap;
use index_kit::Index;
use mont_base::Text;
use slots::Region;
use std::marker::Model;

/// A map unit, or the keys of an ordered unit. The pairs stand in the region's records alone; the
/// index, which the unit's maker hands in, says in which slot each live key's record is. It may be
/// of any kind: a box is one too.
///
/// Contracts see the region and the index's places. The index of a unit in which a caller was cut
/// is of no use any more.
#[derive(Drop)]
pub struct MapShard<I: Index> {
    pub(crate) region: Region,
    pub(crate) index: I,
}

impl<I: Index> Model for MapShard<I> {
    ghost use Rattle.shard_map.specs.MapShard.{MapShown, map_shown_code, IsMapUnit};

    ghost Value = { MapShown };

    ghost coded = { map_shown_code };

    ghost view = { λ m. record { region = m.region; places = I.places m.index } };

    ghost invariant = { λ m. IsMapUnit m.region (I.places m.index) };
}

impl<I: Index> OfHeap for MapShard<I> {
    ghost use Rattle.structure_call.specs.Standing.{IsStanding, standing_once};

    ghost fits = { λ heap m. IsStanding heap m.region };

    ghost fits_once = { λ heap m. standing_once heap m.region };
}

impl<I: Index> MapShard<I> {
    /// The unit's region.
    pub fn region(&self) -> &Region
        ensures region { result.now ≡ self.now.region }
        ensures unit { IsMapUnit self.now.region self.now.places }
    {
        &self.region
    }

    /// The unit's index.
    pub fn index(&self) -> &I
        ensures index { I.places result.now ≡ self.now.places }
        ensures unit { IsMapUnit self.now.region self.now.places }
    {
        &self.index
    }

    /// What the live record of a key says, if the key is there.
    pub fn find(&self, key: &Text) -> Option<Found>
        requires running { self.now.region.books.halted ≡ None }
        ensures value { HasValue self.now.region key.now (value_found result) }
        ensures named { IfSome result (λ found. NamesThing
            self.now.region.seat.known.part.records (Pair key.now found.value) found.slot
            found.identity) }
    {
        find(&self.region, &self.index, key)
    }

    /// Gives the region back, and drops the index.
    pub fn into_region(self) -> Region
        ensures region { result ≡ self.region }
        ensures unit { IsMapUnit self.region self.places }
    {
        let MapShard { region, index: _ } = self;
        region
    }
}
