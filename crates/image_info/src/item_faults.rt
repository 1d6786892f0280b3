// Faults of the objects of a queue.
ghost use Rattle.std.specs.Prelude.{[]};
ghost use Rattle.std.specs.Ordering.{nat_cmp};
ghost use Rattle.mont_base.specs.Structure.{item_at, queue_fault};
ghost use Rattle.image_info.specs.ObjectFaults.{HasNames};

use crate::object_faults::Judge;
use mont_base::{LAST, Object, ObjectFault, Slot};
use payload::item_in;
use std::alloc::{AllocError, Global};
use std::collections::BTreeMap;

/// The serials of the objects so far, each with a slot.
#[derive(Drop)]
pub(crate) struct ItemJudge {
    pub serials: BTreeMap<u64, Slot>,
}

impl ItemJudge {
    /// No serials.
    pub fn new(alloc: Global) -> ItemJudge
        ensures { HasNames nat_cmp item_at result.serials [] }
    {
        ItemJudge {
            serials: BTreeMap::new(alloc),
        }
    }
}

impl Judge for ItemJudge {
    ghost fault_of = { λ _. queue_fault };

    ghost knows = { λ j. HasNames nat_cmp item_at j.serials };

    fn judge(&mut self, object: &Object) -> Result<Option<ObjectFault>, AllocError> {
        let Some((serial, _)) = item_in(&object.body) else {
            return Ok(Some(ObjectFault::Spare));
        };
        let stood = self.serials.insert(serial, object.slot)?.is_some();
        if !(1..=LAST).contains(&serial) {
            return Ok(Some(ObjectFault::Serial));
        }
        Ok(stood.then_some(ObjectFault::Serial))
    }
}
