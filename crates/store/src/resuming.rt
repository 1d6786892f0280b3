// How a store goes on from an image that was recovered.
ghost use Rattle.std.specs.Prelude.{◌≡◌, true, All, map, vec_len, IfOk, IfErr, OnOk};
ghost use Rattle.std.specs.FinMap as finite;
ghost use Rattle.std.specs.Vec.Iter.{into_iter_items};
ghost use Rattle.mont_base.specs.Image.{IsWellFormed};
ghost use Rattle.found_regions.specs.FoundRegion.{IsRegionFound, IsRegionSwept};
ghost use Rattle.recover.specs.Recovery.{AreLiveObjects};
ghost use Rattle.store.specs.FreshStore.{AreUnitsFrom};
ghost use Rattle.store.specs.MapBoxes.{HaveEmptyBoxes, LacksBox, GivesBox, RefusesBox};
ghost use Rattle.store.specs.Resuming.{AreRegionsSwept, AreObjectsOf};
ghost use Rattle.store.specs.Store.{AreAllCallers, IsFirstPass};
ghost use Rattle.store.specs.UnitAt.{StandsAt};

use crate::open_refusal::OpenRefusal;
use crate::store::Store;
use crate::store_opening::{boxed, empty_box, first_passes};
use crate::unit_structure::Structure;
use advance::Advancer;
use heap_pass::{HeapName, Pass};
use index_kit::Index;
use mont_base::{Gate, Layout, Object, Unit, UnitKind};
use pgraph::PGraph;
use pordered::POrdered;
use pqueue::PQueue;
use recover::{Parts, Recovered};
use shard_map::MapShard;
use slots::Region;
use std::alloc::Global;
use std::vec::IntoIter;

impl<N: HeapName, I: Index> Store<N, I> {
    /// Goes on with a store that was recovered and swept, and gives the pass of each caller. Its
    /// base is what recovery found: the image's clock and contents. Each map unit is given the next
    /// of the boxes, in their order, which is to be empty, and fills it with its live keys; boxes
    /// after the last map unit are dropped. After a refusal the store is gone; the image isn't.
    pub fn resume<G: Gate + Drop>(
        alloc: Global,
        recovered: Recovered,
        gates: Vec<G>,
        indexes: Vec<I>,
    ) -> Result<(Store<N, I>, Vec<Pass<G>>), OpenRefusal>
        requires named { recovered.heap ≡ N.heap }
        requires swept { recovered.swept ≡ true }
        requires gates { vec_len gates ≡ N.heap.opening.callers }
        ensures tickets { IfOk result (λ r. map (λ p. p.ticket) r.1.items ≡ recovered.tickets) }
        ensures callers { IfOk result (λ r. AreAllCallers N.heap (map (λ p. p.ticket) r.1.items)) }
        ensures fresh { IfOk result (λ r. All (IsFirstPass N.heap) r.1.items) }
        ensures gates { IfOk result (λ r. map (λ p. p.gate) r.1.items ≡ gates.items) }
        ensures boxes { OnOk result (HaveEmptyBoxes N.heap.opening.layout
            (map (λ b. finite.len (I.places b)) indexes.items)) }
        ensures lacks { IfErr result (λ why. LacksBox N.heap.opening.layout
            (map (λ b. finite.len (I.places b)) indexes.items) why) }
    {
        let Parts {
            layout,
            clock,
            heap,
            regions,
            objects,
            contents,
            tickets,
            advancer,
        } = recovered.into_parts();
        let passes = first_passes(alloc, tickets, gates)?;
        let live = objects.as_slice();
        let structures = resume_structures::<N, I>(alloc, layout, regions, live, indexes)?;
        let advancer = Advancer::new(layout, advancer, clock);
        let store = Store::of_structures(heap, structures, advancer, clock, contents);
        Ok((store, passes))
    }
}

// The structures of all units, of their live objects. Each map unit is given the next of the boxes.
fn resume_structures<N: HeapName, I: Index>(
    alloc: Global,
    layout: Layout,
    regions: Vec<Region>,
    objects: &[Vec<Object>],
    indexes: Vec<I>,
) -> Result<Vec<Box<Structure<I>>>, OpenRefusal>
    requires layout { layout ≡ N.heap.opening.layout }
    requires accepted { IsWellFormed N.heap.opening.layout N.heap.opening.words }
    requires regions { AreRegionsSwept N.heap regions.items }
    requires objects { AreObjectsOf N.heap (map (λ v. v.items) objects.now) }
    ensures units { IfOk result (λ units. AreUnitsFrom N.heap 0 units.items) }
    ensures boxes { OnOk result (HaveEmptyBoxes layout
        (map (λ b. finite.len (I.places b)) indexes.items)) }
    ensures lacks { IfErr result (λ why. LacksBox layout
        (map (λ b. finite.len (I.places b)) indexes.items) why) }
{
    let mut boxes = indexes.into_iter();
    let mut structures = Vec::with_capacity(alloc, regions.len())?;
    for region in regions {
        let unit = structures.len();
        let live = objects[unit].as_slice();
        let number = unit as Unit;
        let resumed = resume_structure::<N, I>(alloc, layout, number, region, live, &mut boxes)?;
        let structure = boxed(alloc, resumed)?;
        structures.push_reserved(structure);
    }
    Ok(structures)
}

// The structure of a unit whose slots beyond the cut are closed, with the live objects of its
// records.
fn resume_structure<N: HeapName, I: Index>(
    alloc: Global,
    layout: Layout,
    unit: Unit,
    region: Region,
    objects: &[Object],
    boxes: &mut IntoIter<I, Global>,
) -> Result<Structure<I>, OpenRefusal>
    requires layout { layout ≡ N.heap.opening.layout }
    requires accepted { IsWellFormed N.heap.opening.layout N.heap.opening.words }
    requires found { IsRegionFound N.heap unit region }
    requires swept { IsRegionSwept N.heap region }
    requires objects { AreLiveObjects N.heap unit objects.now }
    ensures stands { IfOk result (λ s. StandsAt N.heap unit s) }
    ensures boxes { OnOk result (GivesBox layout unit
        (map (λ b. finite.len (I.places b)) (into_iter_items boxes.old))
        (map (λ b. finite.len (I.places b)) (into_iter_items boxes.new))) }
    ensures lacks { IfErr result (λ why. RefusesBox layout unit
        (map (λ b. finite.len (I.places b)) (into_iter_items boxes.old)) why) }
{
    match layout.kind(unit) {
        UnitKind::Map => {
            let index = empty_box(unit, boxes.next())?;
            Ok(Structure::Map {
                unit: MapShard::rebuild(layout, region, objects, index)?,
            })
        }
        UnitKind::Queue => Ok(Structure::Queue {
            unit: PQueue::rebuild(alloc, region, objects)?,
        }),
        UnitKind::Graph => Ok(Structure::Graph {
            unit: PGraph::rebuild(alloc, region, objects)?,
        }),
        UnitKind::Ordered => Ok(Structure::Ordered {
            unit: POrdered::rebuild(alloc, layout, region, objects)?,
        }),
    }
}
