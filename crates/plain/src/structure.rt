// The structure that the live objects of a unit make.
ghost use Rattle.std.specs.Prelude.{◌≡◌, ◌<◌, ◌⊎◌, ℕ, List, Some, None, Ok, Err, IfOk, IsTrue, ◌↔◌};
ghost use Rattle.mont_base.specs.declared.record.Object.{Object};
ghost use Rattle.mont_base.specs.declared.record.ObjectFault.{ObjectFault};
ghost use Rattle.mont_base.specs.declared.kinds.UnitKind.TheVariants as kinds;
ghost use Rattle.mont_base.specs.Layout.{Shape, units_of};
ghost use Rattle.mont_base.specs.State.{State};
ghost use Rattle.mont_base.specs.Structure.{IsStructure};
ghost use Rattle.plain.specs.declared.structure.BuildRefusal.TheVariants.{Memory};
ghost use Rattle.plain.specs.Built.{IsFirstFault, MakesStructure, BuildsKind, BuildsPairs};
ghost use Rattle.plain.specs.States.{state_of};

use crate::gather::gather_all;
use crate::graph_parts::{GraphParts, lacking_end};
use crate::graph_state::GraphState;
use crate::item_row::ItemRow;
use crate::map_state::MapState;
use crate::pair_table::PairTable;
use crate::queue_state::QueueState;
use crate::unit_state::UnitState;
use mont_base::{Layout, Object, ObjectFault, Slot, Unit, UnitKind};
use std::alloc::{AllocError, AllocFailed, Global};

/// Why no structure was built.
#[derive(Clone, Copy, Debug, PartialEq, Eq)]
pub enum BuildRefusal {
    /// The first object with a fault, and the first of its faults.
    Object { slot: Slot, fault: ObjectFault },
    Memory,
}

impl From<AllocError> for BuildRefusal {
    ghost from_gives = { λ _ e. e ≡ Memory };

    fn from(_error: AllocError) -> BuildRefusal {
        BuildRefusal::Memory
    }
}

impl<T: Drop> From<AllocFailed<T>> for BuildRefusal {
    ghost from_gives = { λ _ e. e ≡ Memory };

    fn from(_error: AllocFailed<T>) -> BuildRefusal {
        BuildRefusal::Memory
    }
}

/// Builds the structure of a unit's live objects, which stand by rising slot.
pub fn build(
    alloc: Global,
    layout: Layout,
    unit: Unit,
    objects: &[Object],
) -> Result<UnitState, BuildRefusal>
    requires { unit < units_of layout }
    ensures built { IfOk result (λ s. IsStructure layout unit objects.now (state_of s)) }
    ensures refused { (slot : ℕ) (fault : ObjectFault)
        → result ≡ Err (BuildRefusal.Object slot fault)
        → IsFirstFault layout unit objects.now slot fault }
    ensures found { (slot : ℕ) (fault : ObjectFault)
        → IsFirstFault layout unit objects.now slot fault
        → (result ≡ Err (BuildRefusal.Object slot fault)) ⊎ (result ≡ Err Memory) }
{
    match layout.kind(unit) {
        UnitKind::Map => build_map(alloc, layout, unit, objects),
        UnitKind::Queue => build_queue(alloc, layout, unit, objects),
        UnitKind::Graph => build_graph(alloc, layout, unit, objects),
        UnitKind::Ordered => build_ordered(alloc, layout, unit, objects),
    }
}

/// The law that objects make one structure at most.
pub fn one_structure()
    ensures { (s : Shape) (unit : ℕ) (objects : List Object) (a b : State)
        → IsStructure s unit objects a → IsStructure s unit objects b → a ≡ b }
{}

// Whether the objects make a structure of the unit.
pub(crate) fn makes_structure(
    alloc: Global,
    layout: Layout,
    unit: Unit,
    objects: &[Object],
) -> Result<bool, AllocError>
    requires { unit < units_of layout }
    ensures { IfOk result (λ b. IsTrue b ↔ MakesStructure layout unit objects.now) }
{
    match build(alloc, layout, unit, objects) {
        Ok(_state) => Ok(true),
        Err(BuildRefusal::Object { .. }) => Ok(false),
        Err(BuildRefusal::Memory) => Err(AllocError),
    }
}

// The map of the objects, unless one of them has a fault.
fn build_map(
    alloc: Global,
    layout: Layout,
    unit: Unit,
    objects: &[Object],
) -> Result<UnitState, BuildRefusal>
    ensures { BuildsKind layout unit kinds.Map objects.now result }
{
    let state = build_pairs(alloc, layout, unit, objects)?;
    Ok(UnitState::Map { state })
}

// The ordered unit of the objects, unless one of them has a fault.
fn build_ordered(
    alloc: Global,
    layout: Layout,
    unit: Unit,
    objects: &[Object],
) -> Result<UnitState, BuildRefusal>
    ensures { BuildsKind layout unit kinds.Ordered objects.now result }
{
    let state = build_pairs(alloc, layout, unit, objects)?;
    Ok(UnitState::Ordered { state })
}

// The pairs of the objects, unless one of them has a fault.
fn build_pairs(
    alloc: Global,
    layout: Layout,
    unit: Unit,
    objects: &[Object],
) -> Result<MapState, BuildRefusal>
    ensures { BuildsPairs layout unit objects.now result }
{
    let mut table = PairTable::new(alloc, layout, unit);
    if let Some((slot, fault)) = gather_all(&mut table, objects)? {
        return Err(BuildRefusal::Object { slot, fault });
    }
    Ok(MapState::from_map(table.pairs))
}

// The queue of the objects, unless one of them has a fault.
fn build_queue(
    alloc: Global,
    layout: Layout,
    unit: Unit,
    objects: &[Object],
) -> Result<UnitState, BuildRefusal>
    ensures { BuildsKind layout unit kinds.Queue objects.now result }
{
    let mut row = ItemRow::new(alloc);
    if let Some((slot, fault)) = gather_all(&mut row, objects)? {
        return Err(BuildRefusal::Object { slot, fault });
    }
    let items = row.items.values().copied().collect(alloc)?;
    let state = QueueState::from_items(items);
    Ok(UnitState::Queue { state })
}

// The graph of the objects, unless one of them has a fault.
fn build_graph(
    alloc: Global,
    layout: Layout,
    unit: Unit,
    objects: &[Object],
) -> Result<UnitState, BuildRefusal>
    ensures { BuildsKind layout unit kinds.Graph objects.now result }
{
    let mut parts = GraphParts::new(alloc);
    let found = match gather_all(&mut parts, objects)? {
        None => lacking_end(&parts.vertices, objects),
        found => found,
    };
    if let Some((slot, fault)) = found {
        return Err(BuildRefusal::Object { slot, fault });
    }
    let state = GraphState::from_maps(parts.vertices, parts.edges);
    Ok(UnitState::Graph { state })
}
