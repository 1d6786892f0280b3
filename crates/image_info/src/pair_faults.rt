// Faults of the objects of a map or of an ordered unit.
ghost use Rattle.std.specs.Prelude.{◌≡◌, []};
ghost use Rattle.mont_base.specs.declared.kinds.UnitKind.TheVariants as kinds;
ghost use Rattle.mont_base.specs.Layout.{is_of_kind, kind_of};
ghost use Rattle.mont_base.specs.State.{key_cmp};
ghost use Rattle.mont_base.specs.Structure.{keeps_key, map_fault, pair_at};
ghost use Rattle.image_info.specs.ObjectFaults.{HasNames};

use crate::object_faults::Judge;
use mont_base::{Layout, Object, ObjectFault, Slot, Text, Unit, UnitKind};
use payload::pair_in;
use std::alloc::{AllocError, Global};
use std::collections::BTreeMap;

/// The keys of the objects so far, each with a slot.
#[derive(Drop)]
pub(crate) struct PairJudge {
    pub layout: Layout,
    pub unit: Unit,
    pub keys: BTreeMap<Text, Slot>,
}

impl PairJudge {
    /// No keys.
    pub fn new(alloc: Global, layout: Layout, unit: Unit) -> PairJudge
        ensures of_unit { (result.layout ≡ layout) × (result.unit ≡ unit) }
        ensures empty { HasNames key_cmp pair_at result.keys [] }
    {
        PairJudge {
            layout,
            unit,
            keys: BTreeMap::new(alloc),
        }
    }
}

impl Judge for PairJudge {
    ghost fault_of = { λ j. map_fault j.layout j.unit };

    ghost knows = { λ j. HasNames key_cmp pair_at j.keys };

    fn judge(&mut self, object: &Object) -> Result<Option<ObjectFault>, AllocError> {
        let Some((key, _)) = pair_in(&object.body) else {
            return Ok(Some(ObjectFault::Text));
        };
        let stood = self.keys.insert(key, object.slot)?.is_some();
        if !keeps(&self.layout, self.unit, &key) {
            return Ok(Some(ObjectFault::Shard));
        }
        Ok(stood.then_some(ObjectFault::Key))
    }
}

// Whether a unit keeps a key: it is the map unit of the key, or an ordered unit.
fn keeps(layout: &Layout, unit: Unit, key: &Text) -> bool
    ensures { result ≡ keeps_key layout.now unit key.now }
{
    (layout.maps() > 0 && layout.unit_of_key(key) == unit) || is_ordered(layout, unit)
}

// Whether a unit is an ordered one.
fn is_ordered(layout: &Layout, unit: Unit) -> bool
    ensures { result ≡ is_of_kind (kind_of layout.now unit) kinds.Ordered }
{
    layout.kinds().get(unit) == Some(UnitKind::Ordered)
}
