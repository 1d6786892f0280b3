// How a store is opened for the first time.
ghost use Rattle.std.specs.Prelude.{◌≡◌, All, map, vec_len, IfOk, IfErr, OnOk};
ghost use Rattle.std.specs.FinMap as finite;
ghost use Rattle.std.specs.Vec.Iter.{into_iter_items};
ghost use Rattle.store.specs.FreshStore.{IsFreshHeap, IsNeverUsed, IsFirstSeat, AreFirstSeats, AreUnitsFrom};
ghost use Rattle.store.specs.MapBoxes.{HaveEmptyBoxes, LacksBox, GivesBox, RefusesBox};
ghost use Rattle.store.specs.Store.{AreAllCallers, IsFirstPass};
ghost use Rattle.store.specs.UnitAt.{StandsAt};

use crate::open_refusal::OpenRefusal;
use crate::store::Store;
use crate::store_opening::{boxed, empty_box, first_passes};
use crate::unit_structure::Structure;
use advance::Advancer;
use heap::{Heap, Seats, UnitSeat};
use heap_pass::{HeapName, Pass};
use index_kit::Index;
use mont_base::{FIRST_CLOCK, Gate, Layout, MOST_UNITS, Unit, UnitKind};
use pgraph::PGraph;
use plain::Contents;
use pordered::POrdered;
use pqueue::PQueue;
use shard_map::MapShard;
use slots::Region;
use std::alloc::Global;
use std::vec::IntoIter;

impl<N: HeapName, I: Index> Store<N, I> {
    /// Opens a store that was never used, with its heap and all seats of it, and gives the pass of
    /// each caller. Each map unit is given the next of the boxes, in their order, which is to be
    /// empty; boxes after the last map unit are dropped. After a refusal the heap is gone.
    pub fn fresh<G: Gate + Drop>(
        alloc: Global,
        heap: Heap,
        seats: Seats,
        gates: Vec<G>,
        indexes: Vec<I>,
    ) -> Result<(Store<N, I>, Vec<Pass<G>>), OpenRefusal>
        requires named { heap ≡ N.heap }
        requires opens { IsFreshHeap N.heap seats.units.items seats.advancer
            seats.callers.items }
        requires gates { vec_len gates ≡ N.heap.opening.callers }
        ensures tickets { IfOk result (λ r. map (λ p. p.ticket) r.1.items
            ≡ seats.callers.items) }
        ensures callers { IfOk result (λ r. AreAllCallers N.heap (map (λ p. p.ticket) r.1.items)) }
        ensures fresh { IfOk result (λ r. All (IsFirstPass N.heap) r.1.items) }
        ensures gates { IfOk result (λ r. map (λ p. p.gate) r.1.items ≡ gates.items) }
        ensures boxes { OnOk result (HaveEmptyBoxes N.heap.opening.layout
            (map (λ b. finite.len (I.places b)) indexes.items)) }
        ensures lacks { IfErr result (λ why. LacksBox N.heap.opening.layout
            (map (λ b. finite.len (I.places b)) indexes.items) why) }
    {
        let layout = heap.layout();
        prove!(layout.units() as usize <= MOST_UNITS);
        let Seats {
            units,
            advancer,
            callers,
        } = seats;
        let passes = first_passes(alloc, callers, gates)?;
        let base = Contents::empty(alloc, layout)?;
        let structures = open_structures::<N, I>(alloc, layout, units, indexes)?;
        let advancer = Advancer::new(layout, advancer, FIRST_CLOCK);
        let store = Store::of_structures(heap, structures, advancer, FIRST_CLOCK, base);
        Ok((store, passes))
    }
}

// The structures of all units. Each map unit is given the next of the boxes.
fn open_structures<N: HeapName, I: Index>(
    alloc: Global,
    layout: Layout,
    seats: Vec<UnitSeat>,
    indexes: Vec<I>,
) -> Result<Vec<Box<Structure<I>>>, OpenRefusal>
    requires layout { layout ≡ N.heap.opening.layout }
    requires unused { IsNeverUsed N.heap }
    requires seats { AreFirstSeats N.heap seats.items }
    ensures units { IfOk result (λ units. AreUnitsFrom N.heap 0 units.items) }
    ensures boxes { OnOk result (HaveEmptyBoxes layout
        (map (λ b. finite.len (I.places b)) indexes.items)) }
    ensures lacks { IfErr result (λ why. LacksBox layout
        (map (λ b. finite.len (I.places b)) indexes.items) why) }
{
    let mut boxes = indexes.into_iter();
    let mut structures = Vec::with_capacity(alloc, seats.len())?;
    for seat in seats {
        let unit = structures.len() as Unit;
        let opened = open_structure::<N, I>(alloc, layout, unit, seat, &mut boxes)?;
        let structure = boxed(alloc, opened)?;
        structures.push_reserved(structure);
    }
    Ok(structures)
}

// The structure of a unit of which nothing is stored.
fn open_structure<N: HeapName, I: Index>(
    alloc: Global,
    layout: Layout,
    unit: Unit,
    seat: UnitSeat,
    boxes: &mut IntoIter<I, Global>,
) -> Result<Structure<I>, OpenRefusal>
    requires layout { layout ≡ N.heap.opening.layout }
    requires unused { IsNeverUsed N.heap }
    requires seat { IsFirstSeat N.heap unit seat }
    ensures stands { IfOk result (λ s. StandsAt N.heap unit s) }
    ensures boxes { OnOk result (GivesBox layout unit
        (map (λ b. finite.len (I.places b)) (into_iter_items boxes.old))
        (map (λ b. finite.len (I.places b)) (into_iter_items boxes.new))) }
    ensures lacks { IfErr result (λ why. RefusesBox layout unit
        (map (λ b. finite.len (I.places b)) (into_iter_items boxes.old)) why) }
{
    prove!(unit < layout.units());
    let region = Region::fresh(alloc, layout, unit, seat)?;
    match layout.kind(unit) {
        UnitKind::Map => {
            let index = empty_box(unit, boxes.next())?;
            Ok(Structure::Map {
                unit: MapShard::fresh(layout, region, index),
            })
        }
        UnitKind::Queue => Ok(Structure::Queue {
            unit: PQueue::fresh(alloc, region)?,
        }),
        UnitKind::Graph => Ok(Structure::Graph {
            unit: PGraph::fresh(alloc, region)?,
        }),
        UnitKind::Ordered => Ok(Structure::Ordered {
            unit: POrdered::fresh(alloc, layout, region)?,
        }),
    }
}
