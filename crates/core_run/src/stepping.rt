// A step of a core.
ghost use Rattle.std.specs.Prelude.{◌≡◌, Err, OnOk, OnErr};
ghost use Rattle.core_steps.specs.Events.{IsAllowed, after};
ghost use Rattle.core_steps.specs.Sound.{Base, IsSound};
ghost use Rattle.core_run.specs.Stepping.{MakesLonger, TakesMemory};

use crate::advancing::{check, persist_clock, set_clock};
use crate::allowing::allowed;
use crate::announcing::{confirm, freeze, tell, withdraw};
use crate::closing::{close_label, load_durable, persist_close};
use crate::flushing::{load_word, persist_word};
use crate::hearing::join;
use core_answer::answering::{leave, read};
use core_answer::storing::store;
use core_steps::{Core, Event};
use std::alloc::{AllocError, Global};

/// Why a step isn't made.
#[derive(Clone, Copy, Debug, PartialEq, Eq)]
pub enum StepRefusal {
    /// Its condition doesn't hold.
    NotAllowed,
    /// There is no memory to judge it, or for what the core keeps of it.
    Memory,
}

impl From<AllocError> for StepRefusal {
    ghost use Rattle.std.specs.Prelude.{◌≡◌};
    ghost use Rattle.core_run.specs.declared.stepping.StepRefusal.TheVariants.{Memory};

    ghost from_gives = { λ _ e. e ≡ Memory };

    fn from(_error: AllocError) -> StepRefusal {
        StepRefusal::Memory
    }
}

/// Makes the step. Where it isn't allowed, or there is too little memory, the core stays as it was.
pub fn step(alloc: Global, core: &mut Core, event: &Event) -> Result<(), StepRefusal>
    ensures refused { result ≡ Err StepRefusal.NotAllowed → IsAllowed core.old event.now → ⊥ }
    ensures memory { result ≡ Err StepRefusal.Memory → TakesMemory core.old event.now }
    ensures allowed { OnOk result (IsAllowed core.old event.now) }
    ensures ok { OnOk result (core.new ≡ after core.old event.now) }
    ensures err { OnErr result (core.new ≡ core.old) }
    ensures sound { (base : Base) → IsSound base core.old → IsSound base core.new }
{
    if !allowed(alloc, core, event)? {
        return Err(StepRefusal::NotAllowed);
    }
    make(alloc, core, event)?;
    Ok(())
}

// Makes a step that is allowed.
fn make(alloc: Global, core: &mut Core, event: &Event) -> Result<(), AllocError>
    requires { IsAllowed core.old event.now }
    ensures memory { OnErr result (MakesLonger core.old event.now) }
    ensures ok { OnOk result (core.new ≡ after core.old event.now) }
    ensures err { OnErr result (core.new ≡ core.old) }
{
    match event {
        Event::Look { .. } | Event::Split { .. } | Event::Exchange { .. } => {}
        Event::Tell { unit, epoch } => tell(core, *unit, *epoch),
        Event::Confirm { unit } => confirm(core, *unit),
        Event::Store {
            unit,
            slot,
            field,
            value,
        } => store(core, *unit, *slot, *field, *value)?,
        Event::Leave {
            unit,
            caller,
            op,
            reply,
        } => leave(alloc, core, *unit, *caller, op, reply)?,
        Event::Read {
            unit,
            caller,
            op,
            reply,
        } => read(alloc, core, *unit, *caller, op, reply)?,
        Event::Withdraw { unit } => withdraw(core, *unit),
        Event::Freeze { unit, caller } => freeze(core, *unit, *caller)?,
        Event::LoadDurable { part } => load_durable(alloc, core, *part)?,
        Event::CloseLabel { unit, slot } => close_label(core, *unit, *slot),
        Event::PersistClose { unit } => persist_close(alloc, core, *unit),
        Event::Check => check(core)?,
        Event::LoadWord => load_word(core),
        Event::PersistWord => persist_word(core),
        Event::SetClock => set_clock(core),
        Event::PersistClock => persist_clock(core),
        Event::Join { part, note } => join(alloc, core, *part, note)?,
    }
    Ok(())
}
