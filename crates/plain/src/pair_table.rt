// The pairs that the objects of a map or of an ordered unit hold.
ghost use Rattle.std.specs.Prelude.{◌≡◌, []};
ghost use Rattle.mont_base.specs.declared.kinds.UnitKind.TheVariants as kinds;
ghost use Rattle.mont_base.specs.Layout.{is_of_kind, kind_of, unit_of_key};
ghost use Rattle.mont_base.specs.State.{key_cmp};
ghost use Rattle.mont_base.specs.Structure.{keeps_key, map_fault, pair_at};
ghost use Rattle.plain.specs.Built.{HasNamed};

use crate::gather::Gather;
use mont_base::{Layout, Object, ObjectFault, Text, Unit, UnitKind};
use payload::pair_in;
use std::alloc::{AllocError, Global};
use std::collections::BTreeMap;

// The pairs by their keys, which are of one unit.
#[derive(Drop)]
pub(crate) struct PairTable {
    pub layout: Layout,
    pub unit: Unit,
    pub pairs: BTreeMap<Text, Text>,
}

impl PairTable {
    // No pairs. It allocates nothing.
    pub fn new(alloc: Global, layout: Layout, unit: Unit) -> PairTable
        ensures of_unit { (result.layout ≡ layout) × (result.unit ≡ unit) }
        ensures empty { HasNamed key_cmp pair_at result.pairs [] }
    {
        PairTable {
            layout,
            unit,
            pairs: BTreeMap::new(alloc),
        }
    }
}

impl Gather for PairTable {
    ghost fault_of = { λ t. map_fault t.layout t.unit };

    ghost has = { λ t. HasNamed key_cmp pair_at t.pairs };

    fn add(&mut self, object: &Object) -> Result<Option<ObjectFault>, AllocError> {
        let Some((key, value)) = pair_in(&object.body) else {
            return Ok(Some(ObjectFault::Text));
        };
        if !keeps(&self.layout, self.unit, &key) {
            return Ok(Some(ObjectFault::Shard));
        }
        let stood = self.pairs.insert(key, value)?.is_some();
        Ok(stood.then_some(ObjectFault::Key))
    }
}

// Whether a unit keeps a key: it is the map unit of the key, or an ordered unit.
fn keeps(layout: &Layout, unit: Unit, key: &Text) -> bool
    ensures { result ≡ keeps_key layout.now unit key.now }
{
    (layout.maps() > 0 && layout.unit_of_key(key) == unit) || is_ordered(layout, unit)
}

// Whether a unit is an ordered one.
fn is_ordered(layout: &Layout, unit: Unit) -> bool
    ensures { result ≡ is_of_kind (kind_of layout.now unit) kinds.Ordered }
{
    layout.kinds().get(unit) == Some(UnitKind::Ordered)
}
