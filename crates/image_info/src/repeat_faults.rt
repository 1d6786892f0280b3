// Versions that stand twice.
ghost use Rattle.std.specs.Prelude.{◌≡◌, ◌++◌, OnOk};
ghost use Rattle.image_units.specs.FoundVersions.{version_of};
ghost use Rattle.image_info.specs.AllFaults.{repeats};

use image_units::ImageFault;
use mont_base::{Held, Unit};
use std::alloc::{AllocError, Global};
use std::collections::BTreeMap;

// What no two records may share: a unit, an identity and a version.
type Version = (Unit, u64, u64);

/// Adds each slot whose record has the unit, identity and version of one in a lower slot, with the
/// lowest such slot. The records stand by rising slot.
pub(crate) fn push_repeats(
    alloc: Global,
    records: &[Held],
    faults: &mut Vec<ImageFault>,
) -> Result<(), AllocError>
    ensures { OnOk result (faults.new.items ≡ faults.old.items ++ repeats records.now) }
{
    let mut seen = BTreeMap::new(alloc);
    for held in records {
        let slot = held.slot;
        match seen.get(&version_of(held)).copied() {
            Some(other) => faults.push(ImageFault::Twice { slot, other })?,
            None => {
                seen.insert(version_of(held), slot)?;
            }
        }
    }
    Ok(())
}

fn version_of(held: &Held) -> Version
    ensures { result ≡ version_of held.now }
{
    (held.label.unit, held.label.identity, held.label.version)
}
