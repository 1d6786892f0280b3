// The records of all units.
ghost use Rattle.std.specs.Prelude.{◌≡◌, ◌≤◌, length, IfOk};
ghost use Rattle.mont_base.specs.declared.constants.TheConstants.{LAST};
ghost use Rattle.mont_base.specs.Image.{clock_of};
ghost use Rattle.mont_base.specs.Layout.{words_of};
ghost use Rattle.image_units.specs.Found.{all_records};

use mont_base::{Held, Layout};
use plain::record_at;
use std::alloc::{AllocError, Global};

/// The records within the cut, by rising slot. Slots that can't be read are passed over.
pub(crate) fn all_records(
    alloc: Global,
    layout: &Layout,
    wide: &[u64],
) -> Result<Vec<Held>, AllocError>
    requires size { length wide.now ≡ words_of layout.now }
    requires clock { clock_of wide.now ≤ LAST }
    ensures { IfOk result (λ v. v.items ≡ all_records layout.now wide.now) }
{
    let mut found = Vec::new(alloc);
    for slot in 0..layout.total() {
        if let Some(held) = record_at(layout, wide, slot) {
            found.push(held)?;
        }
    }
    Ok(found)
}
