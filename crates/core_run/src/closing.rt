// How a part loads the durable clock, and how a unit closes a slot that isn't needed.
ghost use Rattle.std.specs.Prelude.{◌≡◌, ◌≢◌, ◌↔◌, ℕ, length, IsTrue, OnOk, OnErr};
ghost use Rattle.mont_laws.specs.Records.{without_slot};
ghost use Rattle.core_steps.specs.Closing.{can_load_durable, CanClose, IsDueNow, IsFirstDue, IsFirstLost, CanPersistClose, after_see_durable, without_retired, without_lost};
ghost use Rattle.core_steps.specs.Events.{after, loaded_durable, closing_of};
ghost use Rattle.core_run.specs.Stepping.{LoadsLonger};

use core_answer::core_words::{durable_clock, store_slot_word};
use core_answer::lists::{assign, taken};
use core_answer::stages::{is_idle, is_unfrozen};
use core_steps::{CallerPart, Core, Event, Part, Retired, UnitPart, UnitStage};
use mont_base::{Epoch, Held, Sequence, Slot, Unit};
use std::alloc::{AllocError, Global};

pub(crate) fn can_load_durable(part: &UnitPart) -> bool
    ensures { result ≡ can_load_durable part.now }
{
    is_unfrozen(part) && is_idle(part.stage)
}

pub(crate) fn can_close(part: &UnitPart, slot: Slot) -> bool
    ensures { IsTrue result ↔ CanClose part.now slot }
{
    is_unfrozen(part) && is_idle(part.stage) && is_due_now(part, slot)
}

// Whether the slot is the first that may be closed by the durable clock which the unit knows, or
// the first lost one.
fn is_due_now(part: &UnitPart, slot: Slot) -> bool
    ensures { IsTrue result ↔ IsDueNow part.now slot }
{
    is_first_due(part.retired.as_slice(), part.durable, slot)
        || is_first_lost(part.lost.as_slice(), slot)
}

fn is_first_due(retired: &[Retired], durable: Epoch, slot: Slot) -> bool
    ensures { IsTrue result ↔ IsFirstDue retired.now durable slot }
{
    match retired.first() {
        Some(first) => first.slot == slot && durable >= 2 && first.epoch <= durable - 2,
        None => false,
    }
}

fn is_first_lost(lost: &[Slot], slot: Slot) -> bool
    ensures { IsTrue result ↔ IsFirstLost lost.now slot }
{
    lost.first() == Some(&slot)
}

pub(crate) fn can_persist_close(part: &UnitPart) -> bool
    ensures { IsTrue result ↔ ((slot : ℕ) × CanPersistClose part.now slot) }
{
    is_unfrozen(part) && matches!(part.stage, UnitStage::Closing { .. })
}

// Want of memory comes only where what the caller knows to be durable is told of other units than
// what it has seen.
pub(crate) fn load_durable(alloc: Global, core: &mut Core, part: Part) -> Result<(), AllocError>
    ensures ok { OnOk result (core.new ≡ loaded_durable core.old part) }
    ensures err { OnErr result (core.new ≡ core.old) }
    ensures memory { OnErr result (LoadsLonger core.old part) }
{
    let durable = durable_clock(core);
    match part {
        Part::Unit { unit } => {
            if unit < core.units.len() {
                core.units.item_mut(unit).durable = durable;
            }
        }
        Part::Advancer => {}
        Part::Caller { caller } => {
            if caller < core.callers.len() {
                see_durable(alloc, core.callers.item_mut(caller), durable)?;
            }
        }
    }
    Ok(())
}

// A caller knows all that it has seen to be durable, two epochs after the newest of it.
fn see_durable(alloc: Global, part: &mut CallerPart, durable: Epoch) -> Result<(), AllocError>
    ensures ok { OnOk result (part.new ≡ after_see_durable part.old durable) }
    ensures err { OnErr result (part.new ≡ part.old) }
    ensures memory { OnErr result (length part.old.synced ≢ length part.old.fronts) }
{
    if durable >= 2 && part.newest <= durable - 2 {
        assign(alloc, &mut part.synced, part.fronts.as_slice())?;
    }
    part.durable = durable;
    Ok(())
}

pub(crate) fn close_label(core: &mut Core, unit: Unit, slot: Slot)
    ensures { core.new ≡ after core.old (Event.CloseLabel unit slot) }
{
    if unit < core.units.len() {
        store_slot_word(&mut core.cur, slot, 0, 0);
        core.units.item_mut(unit).stage = UnitStage::Closing { slot };
    }
}

pub(crate) fn persist_close(alloc: Global, core: &mut Core, unit: Unit)
    ensures { core.new ≡ after core.old (Event.PersistClose unit) }
{
    if unit < core.units.len() {
        let part = core.units.item_mut(unit);
        let slot = closing_of(part.stage);
        part.stage = UnitStage::Idle;
        drop_record(alloc, &mut part.records, slot);
        drop_retired(alloc, &mut part.retired, slot);
        drop_lost(alloc, &mut part.lost, slot);
        store_slot_word(&mut core.dur, slot, 0, 0);
    }
}

// The slot that a unit closes, where it closes one.
fn closing_of(stage: UnitStage) -> Slot
    ensures { result ≡ closing_of stage }
{
    match stage {
        UnitStage::Closing { slot } => slot,
        _ => 0,
    }
}

fn drop_record(alloc: Global, records: &mut Sequence<Held>, slot: Slot)
    ensures { records.new ≡ without_slot slot records.old }
{
    let mut left = taken(alloc, records);
    left.retain(|held| held.slot != slot);
    *records = Sequence::from_vec(left);
}

fn drop_retired(alloc: Global, retired: &mut Sequence<Retired>, slot: Slot)
    ensures { retired.new ≡ without_retired slot retired.old }
{
    let mut left = taken(alloc, retired);
    left.retain(|waiting| waiting.slot != slot);
    *retired = Sequence::from_vec(left);
}

fn drop_lost(alloc: Global, lost: &mut Sequence<Slot>, slot: Slot)
    ensures { lost.new ≡ without_lost slot lost.old }
{
    let mut left = taken(alloc, lost);
    left.retain(|other| *other != slot);
    *lost = Sequence::from_vec(left);
}
