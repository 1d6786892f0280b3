// Whether the units, slots and callers of an event are those of a store.
ghost use Rattle.std.specs.Prelude.{◌↔◌, IsTrue};
ghost use Rattle.core_steps.specs.declared.parts.Part.{Part};
ghost use Rattle.replay.specs.EventWords.{IsEventIn, IsPartOf, IsAnswerIn};

use core_steps::{Event, Part};
use mont_base::{Layout, Op};

/// Whether an event's units, slots and callers are those of a store of this layout with so many
/// callers, and its operation has a unit there.
pub fn is_event_in(layout: Layout, callers: u64, event: &Event) -> bool
    ensures { IsTrue result ↔ IsEventIn layout callers event.now }
{
    let units = layout.units();
    match event {
        Event::Look { unit }
        | Event::Tell { unit, .. }
        | Event::Confirm { unit }
        | Event::Withdraw { unit }
        | Event::PersistClose { unit } => *unit < units,
        Event::Store { unit, slot, .. } | Event::CloseLabel { unit, slot } => {
            *unit < units && *slot < layout.total()
        }
        Event::Leave {
            unit,
            caller,
            op,
            ..
        }
        | Event::Read {
            unit,
            caller,
            op,
            ..
        } => is_answer_in(layout, callers, *unit, *caller, op),
        Event::Freeze { unit, caller } => *unit < units && *caller < callers,
        Event::LoadDurable { part } => is_part_of(layout, callers, *part),
        _ => true,
    }
}

fn is_answer_in(layout: Layout, callers: u64, unit: u64, caller: u64, op: &Op) -> bool
    ensures { IsTrue result ↔ IsAnswerIn layout callers unit caller op.now }
{
    unit < layout.units() && caller < callers && op.unit(layout).is_some()
}

fn is_part_of(layout: Layout, callers: u64, part: Part) -> bool
    ensures { IsTrue result ↔ IsPartOf layout callers part }
{
    match part {
        Part::Unit { unit } => unit < layout.units(),
        Part::Caller { caller } => caller < callers,
        Part::Advancer => false,
    }
}
