// The slots that written records retire: those of the versions before them, and their own where
// they are anti-payloads.
ghost use Rattle.std.specs.Prelude.{◌≡◌, ◌++◌, IfOk, OnOk};
ghost use Rattle.std.specs.BTreeMap.{values};
ghost use Rattle.mont_laws.specs.Retiring.{retired_by, retired_by_all};

use crate::newest::Newest;
use core_steps::Retired;
use mont_base::{Held, Kind};
use std::alloc::{AllocError, Global};

// What written records retire of the newest records before them, in the order of closing.
pub(crate) fn retired_by_all(
    alloc: Global,
    newest: &Newest,
    written: &[Held],
) -> Result<Vec<Retired>, AllocError>
    ensures { IfOk result (λ v. v.items ≡ retired_by_all (values newest.now.records) written.now) }
{
    let mut retired = Vec::new(alloc);
    for held in written {
        retire(&mut retired, newest.get(held.label.identity), held)?;
    }
    Ok(retired)
}

// Adds the version before a record, and an anti-payload itself after its victim.
fn retire(retired: &mut Vec<Retired>, victim: Option<Held>, held: &Held) -> Result<(), AllocError>
    ensures { OnOk result (retired.new.items ≡ retired.old.items ++ retired_by victim held.now) }
{
    let Some(victim) = victim else {
        return Ok(());
    };
    let epoch = held.label.epoch;
    retired.push(Retired {
        slot: victim.slot,
        epoch,
    })?;
    if held.label.kind == Kind::Delete {
        retired.push(Retired {
            slot: held.slot,
            epoch,
        })?;
    }
    Ok(())
}
