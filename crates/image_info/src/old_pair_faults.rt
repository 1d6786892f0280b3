// Faults of the objects of a map in an image of the first version, whose keys are numbers.
ghost use Rattle.std.specs.Prelude.{◌≡◌, ◌≤◌, []};
ghost use Rattle.std.specs.Ordering.{nat_cmp};
ghost use Rattle.mont_base.specs.Layout.{Shape, shape};
ghost use Rattle.mont_base.specs.Texts.{are_zero};
ghost use Rattle.mont_image.specs.StoredImage.{IsOldKinds, maps_in};
ghost use Rattle.old_image.specs.OldStructure.{number_pair_at, number_pair_in, old_map_fault};
ghost use Rattle.image_info.specs.ObjectFaults.{HasNames};

use crate::object_faults::Judge;
use mont_base::{BODY, Layout, Object, ObjectFault, Slot, Unit};
use std::alloc::{AllocError, Global};
use std::collections::BTreeMap;

/// The keys of the objects so far, each with a slot.
#[derive(Drop)]
pub(crate) struct OldPairJudge {
    pub layout: Layout,
    pub unit: Unit,
    pub keys: BTreeMap<u64, Slot>,
    pub ghost old: { IsOldKinds layout.kinds },
}

impl OldPairJudge {
    /// No keys.
    pub fn new(alloc: Global, layout: Layout, unit: Unit) -> OldPairJudge
        requires { IsOldKinds layout.kinds }
        ensures of_unit { (result.layout ≡ layout) × (result.unit ≡ unit) }
        ensures empty { HasNames nat_cmp number_pair_at result.keys [] }
    {
        OldPairJudge {
            layout,
            unit,
            keys: BTreeMap::new(alloc),
        }
    }
}

impl Judge for OldPairJudge {
    ghost fault_of = { λ j. old_map_fault j.layout j.unit };

    ghost knows = { λ j. HasNames nat_cmp number_pair_at j.keys };

    fn judge(&mut self, object: &Object) -> Result<Option<ObjectFault>, AllocError> {
        let Some((key, _)) = number_pair_in(&object.body) else {
            return Ok(Some(ObjectFault::Spare));
        };
        let stood = self.keys.insert(key, object.slot)?.is_some();
        let maps = self.layout.units() - 2;
        if key % maps != self.unit {
            return Ok(Some(ObjectFault::Shard));
        }
        Ok(stood.then_some(ObjectFault::Key))
    }
}

// Key and value of a body, if no other word is used.
fn number_pair_in(body: &[u64; BODY]) -> Option<(u64, u64)>
    ensures { result ≡ number_pair_in body.now }
{
    let [key, value, ..] = *body;
    are_zero(&body[2..]).then_some((key, value))
}

fn are_zero(words: &[u64]) -> bool
    ensures { result ≡ are_zero words.now }
{
    words.iter().all(|word| *word == 0)
}
