// How the advancer passes the units and moves the clock.
ghost use Rattle.std.specs.Prelude.{◌≡◌, ◌==◌, ◌&&◌, not, OnOk, OnErr};
ghost use Rattle.std.specs.List.{list_any};
ghost use Rattle.core_steps.specs.Advancing.{can_check, unit_at_hand, lets_pass, is_odd, past_unit, after_check, is_clocked, with_odd};
ghost use Rattle.core_steps.specs.Events.{after};

use core_answer::core_words::{clock, store, word};
use core_steps::{AdvPart, Core, Event};
use mont_base::{Epoch, LAST, Sequence, Unit};
use std::alloc::AllocError;

pub(crate) fn can_check(clock: Epoch, advancer: AdvPart) -> bool
    ensures { result ≡ can_check clock advancer }
{
    match advancer {
        AdvPart::Rest => clock < LAST,
        AdvPart::Checking { .. } => true,
        _ => false,
    }
}

pub(crate) fn is_clocked(advancer: AdvPart) -> bool
    ensures { result ≡ is_clocked advancer }
{
    matches!(advancer, AdvPart::Clocked)
}

// The unit whose announcement is loaded next.
fn unit_at_hand(advancer: AdvPart) -> Unit
    ensures { result ≡ unit_at_hand advancer }
{
    match advancer {
        AdvPart::Checking { unit } => unit,
        _ => 0,
    }
}

// Whether a unit of this announcement doesn't keep the clock from moving.
fn lets_pass(clock: Epoch, announcement: u64) -> bool
    ensures { result ≡ lets_pass clock announcement }
{
    announcement == 0 || clock <= announcement / 2
}

fn past_unit(units: u64, unit: Unit) -> AdvPart
    ensures { result ≡ past_unit units unit }
{
    if unit < units.saturating_sub(1) {
        AdvPart::Checking { unit: unit + 1 }
    } else {
        AdvPart::Flushing { done: 0, field: 0 }
    }
}

fn after_check(units: u64, clock: Epoch, announcement: u64, advancer: AdvPart) -> AdvPart
    ensures { result ≡ after_check units clock announcement advancer }
{
    let unit = unit_at_hand(advancer);
    if lets_pass(clock, announcement) {
        past_unit(units, unit)
    } else {
        AdvPart::Checking { unit }
    }
}

// Whether a caller was cut in a unit of this announcement.
fn is_odd(announcement: u64) -> bool
    ensures { result ≡ is_odd announcement }
{
    announcement % 2 == 1
}

// Whether the announcement is odd, and the unit isn't among those of which that is known.
fn is_new_odd(odd: &[Unit], unit: Unit, announcement: u64) -> bool
    ensures { result ≡ (is_odd announcement && not (list_any (λ v. v == unit) odd.now)) }
{
    is_odd(announcement) && !odd.iter().any(|other| *other == unit)
}

// Adds the unit to those whose announcement was loaded odd, if it was.
fn note_odd(odd: &mut Sequence<Unit>, unit: Unit, announcement: u64) -> Result<(), AllocError>
    ensures ok { OnOk result (odd.new ≡ with_odd odd.old unit announcement) }
    ensures err { OnErr result (odd.new ≡ odd.old) }
{
    if is_new_odd(odd.as_slice(), unit, announcement) {
        odd.push(unit)?;
    }
    Ok(())
}

pub(crate) fn check(core: &mut Core) -> Result<(), AllocError>
    ensures ok { OnOk result (core.new ≡ after core.old Event.Check) }
    ensures err { OnErr result (core.new ≡ core.old) }
{
    let unit = unit_at_hand(core.advancer);
    let announcement = word(&core.told, unit);
    note_odd(&mut core.odd, unit, announcement)?;
    let clock = clock(core);
    core.advancer = after_check(core.units.len(), clock, announcement, core.advancer);
    Ok(())
}

pub(crate) fn set_clock(core: &mut Core)
    ensures { core.new ≡ after core.old Event.SetClock }
{
    let next = clock(core).saturating_add(1);
    store(&mut core.cur, 0, next);
    core.advancer = AdvPart::Clocked;
}

pub(crate) fn persist_clock(core: &mut Core)
    ensures { core.new ≡ after core.old Event.PersistClock }
{
    let clock = clock(core);
    store(&mut core.dur, 0, clock);
    core.advancer = AdvPart::Rest;
}
