// One event of a schedule made, with the run beside it.
ghost use Rattle.std.specs.Prelude.{◌≡◌, ◌↔◌, None, Some, Err, IsTrue, OnOk, map, slice_set};
ghost use Rattle.std.specs.Bool.{OnTrue, OnFalse};
ghost use Rattle.mont_base.specs.State.{IsShortOp, run_of};
ghost use Rattle.mont_laws.specs.Effects.{IsOpOf};
ghost use Rattle.plain.specs.States.{state_of};
ghost use Rattle.core_steps.specs.Events.{OfUnit, after};
ghost use Rattle.core_steps.specs.Sound.{IsSound};
ghost use Rattle.replay.specs.NewestBeside.{AreKept};
ghost use Rattle.replay.specs.Replays.{MayMake, HasItsRun, IsRunOn, nothing, unit_state, unit_states};

use crate::leaves::make_leave;
use crate::newest_kept::NewestKept;
use crate::reads::make_read;
use core_run::{StepRefusal, step};
use core_steps::{Core, Event};
use mont_base::{Op, PairList, Reply, Sequence, Text, Unit};
use plain::UnitState;
use std::alloc::Global;

/// Makes an event that the core allows and beside which the run of its unit's state stands, and
/// keeps the states of the units and their newest records beside the core. It is NotAllowed where
/// the core doesn't allow the event, or the run is another.
pub fn make(
    alloc: Global,
    core: &mut Core,
    states: &mut Sequence<UnitState>,
    kept: &mut Sequence<Option<NewestKept>>,
    event: &Event,
    run: &[(Text, Text)],
) -> Result<(), StepRefusal>
    requires sound { IsSound (nothing core.old.layout) core.old }
    requires states { map state_of states.old ≡ unit_states core.old }
    requires kept { AreKept kept.old core.old.units }
    ensures made { OnOk result (MayMake core.old (event.now, run.now)) }
    ensures ok { OnOk result (core.new ≡ after core.old event.now) }
    ensures states { OnOk result (map state_of states.new ≡ unit_states core.new) }
    ensures kept { OnOk result (AreKept kept.new core.new.units) }
    ensures refused { result ≡ Err StepRefusal.NotAllowed
        → MayMake core.old (event.now, run.now) → ⊥ }
{
    if !has_its_run(core, states, event, run) {
        return Err(StepRefusal::NotAllowed);
    }
    match event {
        Event::Leave {
            unit,
            caller,
            op,
            reply,
        } => make_leave(alloc, core, states, kept, *unit, *caller, op, reply),
        Event::Read {
            unit,
            caller,
            op,
            reply,
        } => make_read(alloc, core, states, *unit, *caller, op, reply),
        Event::PersistClose { unit } => {
            forget(kept, *unit);
            step(alloc, core, event)
        }
        _ => step(alloc, core, event),
    }
}

// Keeps nothing of a unit, whose records a closed slot leaves. They are looked through again where
// it leaves an epoch.
fn forget(kept: &mut Sequence<Option<NewestKept>>, unit: Unit)
    ensures { kept.new ≡ slice_set kept.old unit None }
{
    if unit < kept.len() {
        kept.set(unit, None);
    }
}

// Whether the run beside an event is that of its unit's state. It may be called another where the
// core doesn't allow the event.
fn has_its_run(
    core: &Core,
    states: &Sequence<UnitState>,
    event: &Event,
    run: &[(Text, Text)],
) -> bool
    requires { map state_of states.now ≡ unit_states core.now }
    ensures yes { OnTrue result (HasItsRun core.now event.now run.now) }
    ensures no { OnFalse result (MayMake core.now (event.now, run.now) → ⊥) }
{
    match event {
        Event::Leave {
            unit,
            op,
            reply,
            ..
        } => is_run_beside(core, states, *unit, op, reply, run),
        Event::Read {
            unit,
            op,
            reply,
            ..
        } => is_run_beside(core, states, *unit, op, reply, run),
        _ => true,
    }
}

// The same of an operation of the unit and its reply.
fn is_run_beside(
    core: &Core,
    states: &Sequence<UnitState>,
    unit: Unit,
    op: &Op,
    reply: &Reply,
    run: &[(Text, Text)],
) -> bool
    requires { map state_of states.now ≡ unit_states core.now }
    ensures yes { OnTrue result (IsRunOn core.now unit op.now reply.now run.now) }
    ensures no { OnFalse result (IsOpOf core.now.layout unit op.now
        → IsRunOn core.now unit op.now reply.now run.now → ⊥) }
{
    match reply {
        Reply::Pairs { .. } => is_run_of_unit(core, states, unit, op, run),
        _ => true,
    }
}

// Whether an operation of the unit gives this run on its state.
fn is_run_of_unit(
    core: &Core,
    states: &Sequence<UnitState>,
    unit: Unit,
    op: &Op,
    run: &[(Text, Text)],
) -> bool
    requires { map state_of states.now ≡ unit_states core.now }
    ensures yes { OnTrue result (OfUnit core.now unit
        (λ p. run_of (unit_state core.now unit p) op.now ≡ Some run.now)) }
    ensures no { OnFalse result (IsOpOf core.now.layout unit op.now
        → OfUnit core.now unit (λ p. run_of (unit_state core.now unit p) op.now ≡ Some run.now)
        → ⊥) }
{
    let Some(state) = states.get(unit) else {
        return false;
    };
    if op.unit(core.layout) != Some(unit) {
        return false;
    }
    gives_run(state, op, run)
}

fn gives_run(state: &UnitState, op: &Op, run: &[(Text, Text)]) -> bool
    requires { IsShortOp op.now }
    ensures { IsTrue result ↔ (run_of (state_of state.now) op.now ≡ Some run.now) }
{
    match run_of(state, op) {
        Some(pairs) => same_pairs(pairs.as_slice(), run),
        None => false,
    }
}

// The run of a range on a state.
fn run_of(state: &UnitState, op: &Op) -> Option<PairList>
    requires { IsShortOp op.now }
    ensures { result ≡ run_of (state_of state.now) op.now }
{
    match (state, op) {
        (
            UnitState::Map { state } | UnitState::Ordered { state },
            Op::ORange { from, to, most, .. },
        ) => {
            let mut pairs = PairList::empty();
            state.range(from, to, *most, &mut pairs);
            Some(pairs)
        }
        _ => None,
    }
}

// Whether both have the same pairs in the same order.
fn same_pairs(a: &[(Text, Text)], b: &[(Text, Text)]) -> bool
    ensures { IsTrue result ↔ (a.now ≡ b.now) }
{
    a == b
}
