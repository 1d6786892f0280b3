// How many slots of each unit hold what.
ghost use Rattle.std.specs.Prelude.{◌≡◌, ◌+◌, ◌*◌, ◌<◌, ◌≤◌, length, count_by, IfOk};
ghost use Rattle.mont_base.specs.declared.constants.TheConstants.{FIELDS, LAST};
ghost use Rattle.mont_base.specs.Image.{clock_of, epoch_at, slots_of};
ghost use Rattle.mont_base.specs.Layout.{units_of, words_of};
ghost use Rattle.scan.specs.Scanned.{is_lost};
ghost use Rattle.image_info.specs.UnitCounts.{AreAllCounts, AreCounts, is_anti_payload, is_free};

use mont_base::{Epoch, FIELDS, Held, Kind, Layout, Slot, Unit};
use payload::live_objects;
use plain::records;
use std::alloc::{AllocError, Global};

/// How many slots of a unit hold what. Each slot counts once.
#[derive(Clone, Copy, Debug, PartialEq, Eq)]
pub(crate) struct UnitCounts {
    /// Closed slots.
    pub free: u64,
    /// Live records.
    pub live: u64,
    /// Records that aren't the newest of their identity, and no anti-payloads.
    pub superseded: u64,
    /// Anti-payloads within the cut, also those that aren't the newest of their identity.
    pub anti_payloads: u64,
    /// Slots whose epoch is beyond the cut.
    pub beyond: u64,
    /// Slots within the cut that can't be read.
    pub faulty: u64,
}

/// The counts of all units, in their order.
pub(crate) fn all_counts(
    alloc: Global,
    layout: Layout,
    wide: &[u64],
) -> Result<Vec<UnitCounts>, AllocError>
    requires size { length wide.now ≡ words_of layout }
    requires clock { clock_of wide.now ≤ LAST }
    ensures { IfOk result (λ v. AreAllCounts layout wide.now v.items) }
{
    let mut counts = Vec::new(alloc);
    for unit in 0..layout.units() {
        counts.push(counts_of(alloc, layout, wide, unit)?)?;
    }
    Ok(counts)
}

// The counts of a unit.
fn counts_of(
    alloc: Global,
    layout: Layout,
    wide: &[u64],
    unit: Unit,
) -> Result<UnitCounts, AllocError>
    requires size { length wide.now ≡ words_of layout }
    requires clock { clock_of wide.now ≤ LAST }
    requires unit { unit < units_of layout }
    ensures { IfOk result (AreCounts layout wide.now unit) }
{
    let held = records(alloc, layout, wide, unit)?;
    let kept = held.len() as u64;
    let live = live_objects(alloc, &held)?.len() as u64;
    let anti_payloads = anti_payloads(&held);
    let free = free_slots(&layout, wide, unit);
    let beyond = lost_slots(&layout, wide, unit);
    Ok(UnitCounts {
        free,
        live,
        superseded: kept - live - anti_payloads,
        anti_payloads,
        beyond,
        faulty: layout.slots() - free - beyond - kept,
    })
}

// How many of the records are anti-payloads.
fn anti_payloads(records: &[Held]) -> u64
    ensures { result ≡ count_by is_anti_payload records.now }
{
    records
        .iter()
        .filter(|held| held.label.kind == Kind::Delete)
        .count() as u64
}

// How many slots of a unit are closed.
fn free_slots(layout: &Layout, wide: &[u64], unit: Unit) -> u64
    requires size { length wide.now ≡ words_of layout.now }
    requires unit { unit < units_of layout.now }
    ensures { result ≡ count_by (is_free wide.now) (slots_of layout.now unit) }
{
    let first = unit * layout.slots();
    let mut free = 0;
    for place in 0..layout.slots() {
        if epoch_at(wide, first + place) == 0 {
            free += 1;
        }
    }
    free
}

// How many slots of a unit are beyond the cut.
fn lost_slots(layout: &Layout, wide: &[u64], unit: Unit) -> u64
    requires size { length wide.now ≡ words_of layout.now }
    requires unit { unit < units_of layout.now }
    ensures { result ≡ count_by (is_lost wide.now) (slots_of layout.now unit) }
{
    let cut = wide[0].saturating_sub(2);
    let first = unit * layout.slots();
    let mut lost = 0;
    for place in 0..layout.slots() {
        if epoch_at(wide, first + place) > cut {
            lost += 1;
        }
    }
    lost
}

// The epoch of a slot's label.
fn epoch_at(wide: &[u64], slot: Slot) -> Epoch
    requires { 1 + FIELDS * slot < length wide.now }
    ensures { result ≡ epoch_at wide.now slot }
{
    wide[1 + FIELDS * slot as usize]
}
