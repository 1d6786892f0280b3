// Whether a core allows a step.
ghost use Rattle.std.specs.Prelude.{◌≡◌, ◌↔◌, true, IfOk, IsTrue, OnErr};
ghost use Rattle.core_steps.specs.Stages.{is_unfrozen};
ghost use Rattle.core_steps.specs.Notes.{HasPart};
ghost use Rattle.core_steps.specs.Events.{AreNoneLost, UnitMay, CanLoadDurable, CanExchange, OfUnit, IsAllowed};
ghost use Rattle.core_run.specs.Stepping.{AnswersCaller};

use crate::advancing::{can_check, is_clocked};
use crate::announcing::{can_confirm, can_freeze, can_look, can_tell, can_withdraw};
use crate::closing::{can_close, can_load_durable, can_persist_close};
use crate::flushing::{can_load_word, can_persist_word, is_flushed};
use crate::hearing::is_true_note;
use core_answer::answering::{can_leave, can_read};
use core_answer::core_words::clock;
use core_answer::stages::is_unfrozen;
use core_answer::storing::can_store;
use core_steps::{Core, Event, Part, UnitPart};
use std::alloc::{AllocError, Global};

/// Whether the step's condition holds. A step that names a unit or a caller which the core doesn't
/// have isn't allowed. Want of memory comes only where a reply is judged.
pub fn allowed(alloc: Global, core: &Core, event: &Event) -> Result<bool, AllocError>
    ensures allowed { IfOk result (λ b. IsTrue b ↔ IsAllowed core.now event.now) }
    ensures memory { OnErr result (AnswersCaller event.now) }
{
    match event {
        Event::Look { unit } => Ok(core.units.get(*unit).is_some_and(|part| can_look(part))),
        Event::LoadDurable { part } => Ok(may_load_durable(core, *part)),
        Event::CloseLabel { unit, slot } => {
            Ok(
                core.units
                    .get(*unit)
                    .is_some_and(|part| can_close(part, *slot)),
            )
        }
        Event::PersistClose { unit } => {
            Ok(
                core.units
                    .get(*unit)
                    .is_some_and(|part| can_persist_close(part)),
            )
        }
        Event::Split { part } => Ok(has_part(core, *part)),
        Event::Join { part, note } => Ok(has_part(core, *part) && is_true_note(core, note)),
        Event::Exchange { part } => Ok(may_exchange(core, *part)),
        _ => {
            if !are_none_lost(core.units.as_slice()) {
                return Ok(false);
            }
            unit_may(alloc, core, event)
        }
    }
}

// Whether no unit has a lost slot.
fn are_none_lost(units: &[UnitPart]) -> bool
    ensures { IsTrue result ↔ AreNoneLost units.now }
{
    for part in units {
        if !part.lost.is_empty() {
            return false;
        }
    }
    true
}

// Whether a store without lost slots allows the step.
fn unit_may(alloc: Global, core: &Core, event: &Event) -> Result<bool, AllocError>
    ensures allowed { IfOk result (λ b. IsTrue b ↔ UnitMay core.now event.now) }
    ensures memory { OnErr result (AnswersCaller event.now) }
{
    match event {
        Event::Tell { unit, epoch } => {
            Ok(
                core.units
                    .get(*unit)
                    .is_some_and(|part| can_tell(part, *epoch)),
            )
        }
        Event::Confirm { unit } => {
            Ok(core.units.get(*unit).is_some_and(|part| can_confirm(part)))
        }
        Event::Store {
            unit,
            slot,
            field,
            value,
        } => Ok(
            core.units
                .get(*unit)
                .is_some_and(|part| can_store(core, *unit, part, *slot, *field, *value)),
        ),
        Event::Leave {
            unit,
            caller,
            op,
            reply,
        } => match (core.units.get(*unit), core.callers.get(*caller)) {
            (Some(part), Some(of_caller)) => {
                can_leave(alloc, core.layout, *unit, part, of_caller, op, reply)
            }
            _ => Ok(false),
        },
        Event::Read {
            unit,
            caller,
            op,
            reply,
        } => match (core.units.get(*unit), core.callers.get(*caller)) {
            (Some(part), Some(of_caller)) => {
                can_read(alloc, core.layout, *unit, part, of_caller, op, reply)
            }
            _ => Ok(false),
        },
        Event::Withdraw { unit } => {
            Ok(core.units.get(*unit).is_some_and(|part| can_withdraw(part)))
        }
        Event::Freeze { unit, caller } => Ok(may_freeze(core, *unit, *caller)),
        Event::Check => Ok(can_check(clock(core), core.advancer)),
        Event::LoadWord => Ok(can_load_word(core)),
        Event::PersistWord => Ok(can_persist_word(core.advancer)),
        Event::SetClock => Ok(is_flushed(core)),
        Event::PersistClock => Ok(is_clocked(core.advancer)),
        _ => Ok(false),
    }
}

fn may_freeze(core: &Core, unit: u64, caller: u64) -> bool
    ensures { IsTrue result ↔ UnitMay core.now (Event.Freeze unit caller) }
{
    match (core.units.get(unit), core.callers.get(caller)) {
        (Some(part), Some(_)) => can_freeze(part),
        _ => false,
    }
}

fn may_load_durable(core: &Core, part: Part) -> bool
    ensures { IsTrue result ↔ CanLoadDurable core.now part }
{
    match part {
        Part::Unit { unit } => core
            .units
            .get(unit)
            .is_some_and(|part| can_load_durable(part)),
        Part::Advancer => false,
        Part::Caller { caller } => core.callers.get(caller).is_some(),
    }
}

fn may_exchange(core: &Core, part: Part) -> bool
    ensures { IsTrue result ↔ CanExchange core.now part }
{
    match part {
        Part::Unit { unit } => core.units.get(unit).is_some_and(|part| is_unfrozen(part)),
        Part::Advancer => true,
        Part::Caller { caller } => core.callers.get(caller).is_some(),
    }
}

fn has_part(core: &Core, part: Part) -> bool
    ensures { IsTrue result ↔ HasPart core.now part }
{
    match part {
        Part::Unit { unit } => core.units.get(unit).is_some(),
        Part::Advancer => true,
        Part::Caller { caller } => core.callers.get(caller).is_some(),
    }
}
