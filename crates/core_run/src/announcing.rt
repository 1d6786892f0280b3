// How a unit announces an epoch, is registered in it, and takes the announcement back or leaves it
// after.
ghost use Rattle.std.specs.Prelude.{◌≡◌, ◌≤◌, OnOk, OnErr};
ghost use Rattle.mont_base.specs.declared.constants.TheConstants.{LAST};
ghost use Rattle.core_steps.specs.Announcing.{can_look, can_tell, confirmed, can_confirm, has_stored, can_withdraw, can_freeze, made_odd};
ghost use Rattle.core_steps.specs.Events.{after};

use core_answer::core_words::{clock, store, word};
use core_answer::stages::{is_idle, is_told, is_unfrozen, is_within};
use core_steps::{Core, Event, UnitPart, UnitStage};
use mont_base::{Epoch, FIRST_CLOCK, LAST, Unit};
use std::alloc::AllocError;

pub(crate) fn can_look(part: &UnitPart) -> bool
    ensures { result ≡ can_look part.now }
{
    is_unfrozen(part) && is_idle(part.stage)
}

pub(crate) fn can_tell(part: &UnitPart, epoch: Epoch) -> bool
    ensures { result ≡ can_tell part.now epoch }
{
    is_unfrozen(part)
        && (is_idle(part.stage) || is_told(part.stage))
        && (FIRST_CLOCK..=LAST).contains(&epoch)
}

pub(crate) fn can_confirm(part: &UnitPart) -> bool
    ensures { result ≡ can_confirm part.now }
{
    is_unfrozen(part) && is_told(part.stage)
}

pub(crate) fn can_withdraw(part: &UnitPart) -> bool
    ensures { result ≡ can_withdraw part.now }
{
    is_unfrozen(part) && (is_told(part.stage) || (is_within(part.stage) && !has_stored(part)))
}

pub(crate) fn can_freeze(part: &UnitPart) -> bool
    ensures { result ≡ can_freeze part.now }
{
    is_unfrozen(part)
}

fn has_stored(part: &UnitPart) -> bool
    ensures { result ≡ has_stored part.now }
{
    !(part.written.is_empty() && part.writing.is_none())
}

pub(crate) fn tell(core: &mut Core, unit: Unit, epoch: Epoch)
    requires { epoch ≤ LAST }
    ensures { core.new ≡ after core.old (Event.Tell unit epoch) }
{
    if unit < core.units.len() {
        store(&mut core.told, unit, 2 * epoch);
        core.units.item_mut(unit).stage = UnitStage::Told { epoch };
    }
}

pub(crate) fn confirm(core: &mut Core, unit: Unit)
    ensures { core.new ≡ after core.old (Event.Confirm unit) }
{
    let clock = clock(core);
    if unit < core.units.len() {
        let part = core.units.item_mut(unit);
        part.stage = confirmed(clock, part.stage);
    }
}

fn confirmed(clock: Epoch, stage: UnitStage) -> UnitStage
    ensures { result ≡ confirmed clock stage }
{
    match stage {
        UnitStage::Told { epoch } if epoch == clock => UnitStage::Within { epoch },
        other => other,
    }
}

pub(crate) fn withdraw(core: &mut Core, unit: Unit)
    ensures { core.new ≡ after core.old (Event.Withdraw unit) }
{
    if unit < core.units.len() {
        store(&mut core.told, unit, 0);
        core.units.item_mut(unit).stage = UnitStage::Idle;
    }
}

pub(crate) fn freeze(core: &mut Core, unit: Unit, caller: u64) -> Result<(), AllocError>
    ensures ok { OnOk result (core.new ≡ after core.old (Event.Freeze unit caller)) }
    ensures err { OnErr result (core.new ≡ core.old) }
{
    if unit >= core.units.len() || caller >= core.callers.len() {
        return Ok(());
    }
    core.callers.item_mut(caller).cuts.push(unit)?;
    let part = core.units.item_mut(unit);
    part.frozen = Some(caller);
    let odd = made_odd(part.stage, word(&core.told, unit));
    store(&mut core.told, unit, odd);
    Ok(())
}

fn made_odd(stage: UnitStage, announcement: u64) -> u64
    ensures { result ≡ made_odd stage announcement }
{
    match stage {
        UnitStage::Told { .. } | UnitStage::Within { .. } => 2 * (announcement / 2) + 1,
        UnitStage::Idle | UnitStage::Closing { .. } => announcement,
    }
}
