// Whether a version of an identity stands twice in a unit.
ghost use Rattle.std.specs.Prelude.{◌≡◌, AllPairs, IfErr, OnOk};
ghost use Rattle.mont_laws.specs.UnitRecords.{HasLowerSlot};
ghost use Rattle.image_units.specs.FoundVersions.{HasNoRepeat, IsRepeatRefusal, version_of};

use crate::recovery_refusal::RecoverRefusal;
use mont_base::{Held, Slot, Unit};
use std::alloc::Global;
use std::collections::BTreeMap;

// What no two records may share: a unit, an identity and a version.
type Version = (Unit, u64, u64);

/// Whether no two of the records, which stand by rising slot, are one version of an identity of one
/// unit; `Twice` where two are. The only other refusal is `Memory`.
pub fn check_versions(alloc: Global, records: &[Held]) -> Result<(), RecoverRefusal>
    requires { AllPairs HasLowerSlot records.now }
    ensures apart { OnOk result (HasNoRepeat records.now) }
    ensures refused { IfErr result (IsRepeatRefusal records.now) }
{
    let mut seen = BTreeMap::new(alloc);
    for held in records {
        let slot = held.slot;
        if let Some(other) = seen.insert(version_of(held), slot)? {
            return Err(RecoverRefusal::Twice { slot, other });
        }
    }
    Ok(())
}

fn version_of(held: &Held) -> Version
    ensures { result ≡ version_of held.now }
{
    (held.label.unit, held.label.identity, held.label.version)
}
