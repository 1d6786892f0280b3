// What an operation does to the state of a unit.
ghost use Rattle.std.specs.Prelude.{IfOk};
ghost use Rattle.mont_base.specs.State.{step};
ghost use Rattle.plain.specs.States.{state_of};
ghost use Rattle.unit_cases.specs.Told.{IsStepTold};

use mont_base::{Effect, Layout, Op, Reply, Unit};
use plain::UnitState;
use std::alloc::{AllocError, Global};

/// What an operation did.
#[derive(Drop)]
pub struct StepTold {
    /// The unit that it belongs to.
    pub unit: Option<Unit>,
    pub effects: Vec<Effect>,
    pub reply: Reply,
    /// How many things there are then.
    pub size: u64,
}

/// Carries an operation out, and tells what it did.
pub fn carry_out(
    alloc: Global,
    layout: Layout,
    state: &mut UnitState,
    op: &Op,
) -> Result<StepTold, AllocError>
    ensures { IfOk result (λ told.
        IsStepTold layout (state_of state.old) (state_of state.new) op.now told) }
{
    let effects = state.effects(alloc, op)?;
    let reply = state.apply(op)?;
    Ok(StepTold {
        unit: op.unit(layout),
        effects,
        reply,
        size: state.size(),
    })
}
