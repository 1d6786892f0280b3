// Leaves judged on the states and the newest records that are kept beside a core.
ghost use Rattle.std.specs.Prelude.{◌≡◌, ◌↔◌, None, Some, Err, IsTrue, OnOk, IfOk, map, slice_set};
ghost use Rattle.std.specs.BTreeMap.{values};
ghost use Rattle.mont_base.specs.State.{step};
ghost use Rattle.mont_laws.specs.Effects.{AreEffects};
ghost use Rattle.plain.specs.States.{state_of};
ghost use Rattle.core_steps.specs.Stages.{epoch_of};
ghost use Rattle.core_steps.specs.Events.{OfUnit, OfCaller, IsAllowed, after};
ghost use Rattle.core_steps.specs.Sound.{IsSound};
ghost use Rattle.core_answer.specs.Answering.{IsReadyToLeave};
ghost use Rattle.replay.specs.NewestBeside.{IsKeptOf, AreKept, IsLeaving};
ghost use Rattle.replay.specs.Replays.{nothing, unit_states};

use crate::effects_written::are_effects;
use crate::leaving::leave;
use crate::newest_kept::NewestKept;
use crate::reads::{answered, are_none_lost, has_numbers, is_op_of, is_reply};
use core_run::StepRefusal;
use core_steps::{CallerPart, Core, Event, UnitPart, UnitStage};
use mont_base::{Effect, Op, Reply, Sequence, Unit};
use plain::UnitState;
use std::alloc::{AllocError, Global};
use std::mem;

/// Makes a leave, where the core allows it, and keeps states and newest records beside the core.
pub fn make_leave(
    alloc: Global,
    core: &mut Core,
    states: &mut Sequence<UnitState>,
    kept: &mut Sequence<Option<NewestKept>>,
    unit: Unit,
    caller: u64,
    op: &Op,
    reply: &Reply,
) -> Result<(), StepRefusal>
    requires sound { IsSound (nothing core.old.layout) core.old }
    requires states { map state_of states.old ≡ unit_states core.old }
    requires kept { AreKept kept.old core.old.units }
    ensures allowed { OnOk result (IsAllowed core.old (Event.Leave unit caller op.now reply.now)) }
    ensures ok { OnOk result
        (core.new ≡ after core.old (Event.Leave unit caller op.now reply.now)) }
    ensures states { OnOk result (map state_of states.new ≡ unit_states core.new) }
    ensures kept { OnOk result (AreKept kept.new core.new.units) }
    ensures refused { result ≡ Err StepRefusal.NotAllowed
        → IsAllowed core.old (Event.Leave unit caller op.now reply.now) → ⊥ }
{
    let Some(state) = states.get(unit) else {
        return Err(StepRefusal::NotAllowed);
    };
    let effects = effects_of(alloc, state, op)?;
    let mut newest = take_newest(alloc, core, kept, unit)?;
    if !is_leaving(core, unit, caller, &newest, op, &effects) {
        return Err(StepRefusal::NotAllowed);
    }
    let told = answered(states, unit, op)?;
    if !is_reply(&told, reply) {
        return Err(StepRefusal::NotAllowed);
    }
    leave(alloc, core, &mut newest, unit, caller, op, reply)?;
    put_newest(kept, unit, newest);
    Ok(())
}

// The effects of an operation on a state, which stays.
fn effects_of(alloc: Global, state: &UnitState, op: &Op) -> Result<Vec<Effect>, AllocError>
    ensures { IfOk result (λ v. v.items ≡ (step (state_of state.now) op.now).effects) }
{
    state.effects(alloc, op)
}

// Takes out what is kept of a unit, or finds it among the unit's records.
fn take_newest(
    alloc: Global,
    core: &Core,
    kept: &mut Sequence<Option<NewestKept>>,
    unit: Unit,
) -> Result<NewestKept, AllocError>
    requires { AreKept kept.old core.now.units }
    ensures newest { IfOk result (λ n. IsKeptOf (values n.records) core.now.units unit) }
    ensures rest { OnOk result (kept.new ≡ slice_set kept.old unit None) }
{
    if unit < kept.len()
        && let Some(newest) = mem::replace(kept.item_mut(unit), None)
    {
        return Ok(newest);
    }
    match core.units.get(unit) {
        Some(part) => NewestKept::among(alloc, part.records.as_slice()),
        None => NewestKept::among(alloc, &[]),
    }
}

// Keeps the newest records of a unit.
fn put_newest(kept: &mut Sequence<Option<NewestKept>>, unit: Unit, newest: NewestKept)
    ensures { kept.new ≡ slice_set kept.old unit (Some newest) }
{
    if unit < kept.len() {
        kept.set(unit, Some(newest));
    }
}

// Whether a unit may leave its epoch, and has written these effects of an operation of its own.
fn is_leaving(
    core: &Core,
    unit: Unit,
    caller: u64,
    newest: &NewestKept,
    op: &Op,
    effects: &[Effect],
) -> bool
    ensures { IsTrue result
        ↔ IsLeaving core.now unit caller (values newest.now.records) op.now effects.now }
{
    are_none_lost(core.units.as_slice())
        && is_op_of(core.layout, unit, op)
        && has_written(core, unit, caller, newest, effects)
}

fn has_written(
    core: &Core,
    unit: Unit,
    caller: u64,
    newest: &NewestKept,
    effects: &[Effect],
) -> bool
    ensures { IsTrue result ↔ OfUnit core.now unit (λ p. OfCaller core.now caller
        (λ q. IsReadyToLeave p q (epoch_of p.stage)
        × AreEffects unit (values newest.now.records) effects.now p.written)) }
{
    match (core.units.get(unit), core.callers.get(caller)) {
        (Some(part), Some(of_caller)) => {
            is_ready_to_leave(part, of_caller)
                && are_effects(unit, newest, effects, part.written.as_slice())
        }
        _ => false,
    }
}

fn is_ready_to_leave(part: &UnitPart, caller: &CallerPart) -> bool
    ensures { IsTrue result ↔ IsReadyToLeave part.now caller.now (epoch_of part.now.stage) }
{
    let UnitStage::Within { epoch } = part.stage else {
        return false;
    };
    if part.writing.is_some() || part.written.is_empty() {
        return false;
    }
    part.frozen.is_none() && has_numbers(part, caller) && caller.newest <= epoch
}
