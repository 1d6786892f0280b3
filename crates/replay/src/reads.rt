// Reads judged on the states that are kept beside a core.
ghost use Rattle.std.specs.Prelude.{◌≡◌, ◌↔◌, [], None, Some, Err, IsTrue, OnOk, IfOk, MatchOption, map, slice_get, slice_set};
ghost use Rattle.mont_base.specs.State.{State, step};
ghost use Rattle.mont_laws.specs.Effects.{IsOpOf, CarriesTexts};
ghost use Rattle.plain.specs.States.{state_of};
ghost use Rattle.core_steps.specs.Events.{AreNoneLost, OfUnit, OfCaller, IsAllowed, after};
ghost use Rattle.core_steps.specs.CallAnswers.{HasNumbers};
ghost use Rattle.core_steps.specs.Sound.{IsSound};
ghost use Rattle.core_answer.specs.Answering.{IsReadyToRead};
ghost use Rattle.replay.specs.Replays.{nothing, unit_states};

use core_answer::answering::read;
use core_run::StepRefusal;
use core_steps::{CallerPart, Core, Event, UnitPart, UnitStage};
use mont_base::{LAST, Layout, Op, Reply, Sequence, Unit};
use plain::UnitState;
use std::alloc::{AllocError, Global};

/// Makes a read, where the core allows it, and keeps the states of the units beside the core.
pub fn make_read(
    alloc: Global,
    core: &mut Core,
    states: &mut Sequence<UnitState>,
    unit: Unit,
    caller: u64,
    op: &Op,
    reply: &Reply,
) -> Result<(), StepRefusal>
    requires sound { IsSound (nothing core.old.layout) core.old }
    requires states { map state_of states.old ≡ unit_states core.old }
    ensures allowed { OnOk result (IsAllowed core.old (Event.Read unit caller op.now reply.now)) }
    ensures ok { OnOk result
        (core.new ≡ after core.old (Event.Read unit caller op.now reply.now)) }
    ensures states { OnOk result (map state_of states.new ≡ unit_states core.new) }
    ensures refused { result ≡ Err StepRefusal.NotAllowed
        → IsAllowed core.old (Event.Read unit caller op.now reply.now) → ⊥ }
{
    let Some(state) = states.get(unit) else {
        return Err(StepRefusal::NotAllowed);
    };
    if !is_ready(core, unit, caller) {
        return Err(StepRefusal::NotAllowed);
    }
    if !is_op_of(core.layout, unit, op) {
        return Err(StepRefusal::NotAllowed);
    }
    if !changes_nothing(alloc, state, op)? {
        return Err(StepRefusal::NotAllowed);
    }
    let told = answered(states, unit, op)?;
    if !is_reply(&told, reply) {
        return Err(StepRefusal::NotAllowed);
    }
    read(alloc, core, unit, caller, op, reply)?;
    Ok(())
}

/// Carries an operation out on the state of a unit, and answers it. Without the unit there is no
/// reply.
pub fn answered(
    states: &mut Sequence<UnitState>,
    unit: Unit,
    op: &Op,
) -> Result<Option<Reply>, AllocError>
    ensures { IfOk result (λ o. MatchOption o (slice_get (map state_of states.old) unit ≡ None)
        (λ r. (x : State) × (slice_get (map state_of states.old) unit ≡ Some x)
        × (r ≡ (step x op.now).reply)
        × (map state_of states.new ≡ slice_set (map state_of states.old) unit
        (step x op.now).state))) }
{
    if unit >= states.len() {
        return Ok(None);
    }
    let reply = states.item_mut(unit).apply(op)?;
    Ok(Some(reply))
}

// Whether no unit has a lost slot, the unit has nothing announced, and there are numbers for an
// entry more.
fn is_ready(core: &Core, unit: Unit, caller: u64) -> bool
    ensures { IsTrue result ↔ (AreNoneLost core.now.units × OfUnit core.now unit
        (λ p. OfCaller core.now caller (λ q. IsReadyToRead p q))) }
{
    are_none_lost(core.units.as_slice()) && is_part_ready(core, unit, caller)
}

fn is_part_ready(core: &Core, unit: Unit, caller: u64) -> bool
    ensures { IsTrue result ↔ OfUnit core.now unit
        (λ p. OfCaller core.now caller (λ q. IsReadyToRead p q)) }
{
    match (core.units.get(unit), core.callers.get(caller)) {
        (Some(part), Some(of_caller)) => is_ready_to_read(part, of_caller),
        _ => false,
    }
}

fn is_ready_to_read(part: &UnitPart, caller: &CallerPart) -> bool
    ensures { IsTrue result ↔ IsReadyToRead part.now caller.now }
{
    part.frozen.is_none() && part.stage == UnitStage::Idle && has_numbers(part, caller)
}

/// Whether there are numbers for an entry more.
pub fn has_numbers(part: &UnitPart, caller: &CallerPart) -> bool
    ensures { IsTrue result ↔ HasNumbers part.now caller.now }
{
    part.history.len() <= LAST && caller.calls <= LAST
}

/// Whether no unit has a lost slot.
pub fn are_none_lost(units: &[UnitPart]) -> bool
    ensures { IsTrue result ↔ AreNoneLost units.now }
{
    for part in units {
        if !part.lost.is_empty() {
            return false;
        }
    }
    true
}

/// Whether an operation is one of the unit.
pub fn is_op_of(layout: Layout, unit: Unit, op: &Op) -> bool
    ensures { IsTrue result ↔ IsOpOf layout unit op.now }
{
    read_texts(op);
    op.unit(layout) == Some(unit)
}

// A key and a value are texts by their type.
fn read_texts(op: &Op)
    ensures { CarriesTexts op.now }
{
    match op {
        Op::Put { key, value } | Op::OPut { key, value, .. } => {
            let _lengths = (key.len(), value.len());
        }
        _ => {}
    }
}

fn changes_nothing(alloc: Global, state: &UnitState, op: &Op) -> Result<bool, AllocError>
    ensures { IfOk result (λ b. IsTrue b ↔ ((step (state_of state.now) op.now).effects ≡ [])) }
{
    let effects = state.effects(alloc, op)?;
    Ok(effects.is_empty())
}

/// Whether this was answered.
pub fn is_reply(told: &Option<Reply>, reply: &Reply) -> bool
    ensures { IsTrue result ↔ (told.now ≡ Some reply.now) }
{
    match told {
        Some(told) => told == reply,
        None => false,
    }
}
