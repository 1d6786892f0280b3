// How a map unit or an ordered unit begins: with nothing, or with what is live in its region.
ghost use Rattle.std.specs.Prelude.{◌≡◌, ℕ, None, IfOk, OnOk};
ghost use Rattle.std.specs.FinMap as finite;
ghost use Rattle.mont_base.specs.Layout.{kind_of};
ghost use Rattle.mont_base.specs.State.{State};
ghost use Rattle.mont_base.specs.Structure.{IsStructure};
ghost use Rattle.mont_base.specs.Versions.{live_objects};
ghost use Rattle.mont_laws.specs.Records.{live_of};
ghost use Rattle.slots.specs.Books.{Agrees};
ghost use Rattle.shard_map.specs.LiveKeys.{HoldsLiveKeys};
ghost use Rattle.shard_map.specs.MapBeginning.{HasKeysOf};
ghost use Rattle.shard_map.specs.MapShard.{KeepsPairs};

use crate::map_shard::MapShard;
use index_kit::Index;
use mont_base::{Layout, Object, UnitKind};
use payload::pair_in;
use slots::Region;
use std::alloc::AllocError;

impl<I: Index> MapShard<I> {
    /// The unit of a region in which nothing is live, with an empty index.
    pub fn fresh(layout: Layout, region: Region, index: I) -> MapShard<I>
        requires layout { region.books.layout ≡ layout }
        requires kind { KeepsPairs (kind_of layout region.books.unit) }
        requires agrees { Agrees region }
        requires none { (identity : ℕ) → live_of identity region.seat.known.part.records ≡ None }
        requires empty { finite.len (I.places index) ≡ 0 }
        ensures region { result.region ≡ region }
        ensures index { result.places ≡ finite.empty }
    {
        prove!(matches!(
            layout.kind(region.unit()),
            UnitKind::Map | UnitKind::Ordered
        ));
        MapShard { region, index }
    }

    /// The unit of a region whose live objects these are, by rising slot. They make a map. The
    /// index is empty, and is filled with their keys.
    pub fn rebuild(
        layout: Layout,
        region: Region,
        objects: &[Object],
        index: I,
    ) -> Result<MapShard<I>, AllocError>
        requires layout { region.books.layout ≡ layout }
        requires kind { KeepsPairs (kind_of layout region.books.unit) }
        requires agrees { Agrees region }
        requires live { objects.now ≡ live_objects region.seat.known.part.records }
        requires structure { (state : State)
            × IsStructure layout region.books.unit objects.now state }
        requires empty { finite.len (I.places index) ≡ 0 }
        ensures region { IfOk result (λ m. m.region ≡ region) }
        ensures index { IfOk result (λ m. HoldsLiveKeys layout region.books.unit
            region.seat.known.part.records m.places) }
    {
        prove!(matches!(
            layout.kind(region.unit()),
            UnitKind::Map | UnitKind::Ordered
        ));
        let index = filled(index, objects)?;
        Ok(MapShard { region, index })
    }
}

// An empty index, filled with the keys of objects.
fn filled<I: Index>(index: I, objects: &[Object]) -> Result<I, AllocError>
    requires { finite.len (I.places index) ≡ 0 }
    ensures { IfOk result (λ filled. HasKeysOf objects.now (I.places filled)) }
{
    let mut index = index;
    for object in objects {
        index.reserve()?;
        if let Some(pair) = pair_in(&object.body) {
            index.put(pair.0, object.slot);
        }
    }
    Ok(index)
}
