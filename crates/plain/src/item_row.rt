// The items that the objects of a queue hold.
ghost use Rattle.std.specs.Prelude.{◌≡◌, []};
ghost use Rattle.std.specs.Ordering.{nat_cmp};
ghost use Rattle.mont_base.specs.Structure.{item_at, queue_fault};
ghost use Rattle.plain.specs.Built.{HasNamed};

use crate::gather::Gather;
use mont_base::{LAST, Object, ObjectFault};
use payload::item_in;
use std::alloc::{AllocError, Global};
use std::collections::BTreeMap;

// The items by their serials.
#[derive(Drop)]
pub(crate) struct ItemRow {
    pub items: BTreeMap<u64, u64>,
}

impl ItemRow {
    // No items. It allocates nothing.
    pub fn new(alloc: Global) -> ItemRow
        ensures { HasNamed nat_cmp item_at result.items [] }
    {
        ItemRow {
            items: BTreeMap::new(alloc),
        }
    }
}

impl Gather for ItemRow {
    ghost fault_of = { λ _. queue_fault };

    ghost has = { λ r. HasNamed nat_cmp item_at r.items };

    fn add(&mut self, object: &Object) -> Result<Option<ObjectFault>, AllocError> {
        let Some((serial, item)) = item_in(&object.body) else {
            return Ok(Some(ObjectFault::Spare));
        };
        if !(1..=LAST).contains(&serial) {
            return Ok(Some(ObjectFault::Serial));
        }
        let stood = self.items.insert(serial, item)?.is_some();
        Ok(stood.then_some(ObjectFault::Serial))
    }
}
