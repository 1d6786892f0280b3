// What an operation is answered and does on the state that the records of a unit show.
ghost use Rattle.std.specs.Prelude.{◌≡◌, ◌<◌, ◌↔◌, IfOk, IsTrue, MatchOption, List};
ghost use Rattle.std.specs.BTreeMap.{values};
ghost use Rattle.mont_base.specs.declared.effect.Effect.{Effect};
ghost use Rattle.mont_base.specs.Layout.{units_of};
ghost use Rattle.mont_base.specs.State.{State};
ghost use Rattle.mont_laws.specs.Effects.{IsOpOf, CarriesTexts};
ghost use Rattle.mont_laws.specs.Structures.{HasStructure};
ghost use Rattle.plain.specs.States.{state_of};
ghost use Rattle.core_answer.specs.Judging.{Answers};

use crate::newest::Newest;
use mont_base::{Effect, Layout, Op, Reply, Unit};
use payload::live_objects;
use plain::{BuildRefusal, UnitState, build};
use std::alloc::{AllocError, Global};

// The effects of an operation, if it is one of the unit and has this reply on the state that the
// newest records show.
pub(crate) fn answers(
    alloc: Global,
    layout: Layout,
    unit: Unit,
    newest: &Newest,
    op: &Op,
    reply: &Reply,
) -> Result<Option<Vec<Effect>>, AllocError>
    ensures { IfOk result (λ o. MatchOption o
        ((effects : List Effect)
        → Answers layout unit (values newest.now.records) op.now reply.now effects → ⊥)
        (λ v. Answers layout unit (values newest.now.records) op.now reply.now v.items)) }
{
    if !is_op_of(layout, unit, op) {
        return Ok(None);
    }
    let Some(mut state) = shown_state(alloc, layout, unit, newest)? else {
        return Ok(None);
    };
    let effects = state.effects(alloc, op)?;
    let answered = state.apply(op)?;
    if !is_same(&answered, reply) {
        return Ok(None);
    }
    Ok(Some(effects))
}

fn is_same(a: &Reply, b: &Reply) -> bool
    ensures { IsTrue result ↔ (a.now ≡ b.now) }
{
    a == b
}

// Whether an operation is one of the unit.
fn is_op_of(layout: Layout, unit: Unit, op: &Op) -> bool
    ensures { IsTrue result ↔ IsOpOf layout unit op.now }
{
    read_texts(op);
    op.unit(layout) == Some(unit)
}

// A key and a value are texts by their type.
fn read_texts(op: &Op)
    ensures { CarriesTexts op.now }
{
    match op {
        Op::Put { key, value } | Op::OPut { key, value, .. } => {
            let _lengths = (key.len(), value.len());
        }
        _ => {}
    }
}

// The state that the newest records show, if they show one.
fn shown_state(
    alloc: Global,
    layout: Layout,
    unit: Unit,
    newest: &Newest,
) -> Result<Option<UnitState>, AllocError>
    ensures { IfOk result (λ o. MatchOption o
        ((state : State) → HasStructure layout unit (values newest.now.records) state → ⊥)
        (λ s. HasStructure layout unit (values newest.now.records) (state_of s))) }
{
    if unit >= layout.units() {
        return Ok(None);
    }
    let held = newest.numbered(alloc)?;
    let objects = live_objects(alloc, &held)?;
    match build(alloc, layout, unit, &objects) {
        Ok(state) => Ok(Some(state)),
        Err(BuildRefusal::Object { .. }) => Ok(None),
        Err(BuildRefusal::Memory) => Err(AllocError),
    }
}
