// What is told of what an image holds, unit by unit.
ghost use Rattle.std.specs.Prelude.{◌≡◌, ◌≤◌, false};

use crate::tellings::push_numbers;
use case_file::Unanswered;
use mont_base::{Fuel, Held, Kind, Label, Steady};
use mont_image::Image;
use recover::{FoundUnit, Parts, RecoverRefusal, find_units, recover};
use scan::{Scan, scan};
use std::alloc::{AllocError, Global};
use std::thread::Threads;

/// The records and the lost slots of all units.
pub fn told_scan(
    rt: &(impl Threads + Sync),
    alloc: Global,
    image: &Image,
    workers: u64,
) -> Result<Vec<u8>, Unanswered>
    requires workers { (1 ≤ workers) × (workers ≤ 64) }
    requires new { image.now.old ≡ false }
{
    let mut told = String::new(alloc);
    match scan(rt, alloc, image, workers) {
        Ok(found) => push_scan(&mut told, &found)?,
        Err(refusal) => writeln!(told, "{}", RecoverRefusal::from(refusal))?,
    }
    Ok(told.into_bytes())
}

fn push_scan(told: &mut String, found: &Scan) -> Result<(), AllocError> {
    for held in found.records.as_slice() {
        push_record(told, held)?;
    }
    write!(told, "lost")?;
    push_numbers(told, found.lost.as_slice())
}

/// A record with its label and its body.
pub fn push_record(told: &mut String, held: &Held) -> Result<(), AllocError> {
    write!(told, "{} {}", held.slot, kind_name(&held.label))?;
    let Label {
        epoch,
        unit,
        identity,
        version,
        ..
    } = &held.label;
    write!(
        told,
        " {identity} {version} at {epoch} of unit {unit}, body"
    )?;
    push_numbers(told, &held.body)
}

fn kind_name(label: &Label) -> &'static str {
    match label.kind {
        Kind::New => "new",
        Kind::Copy => "copy",
        Kind::Delete => "delete",
    }
}

/// The slots that are found of each unit.
pub fn told_units(
    rt: &(impl Threads + Sync),
    alloc: Global,
    image: &Image,
    workers: u64,
) -> Result<Vec<u8>, Unanswered>
    requires workers { (1 ≤ workers) × (workers ≤ 64) }
    requires new { image.now.old ≡ false }
{
    let mut told = String::new(alloc);
    match find_units(rt, alloc, image, workers) {
        Ok(found) => push_units(&mut told, found.units.as_slice())?,
        Err(refusal) => writeln!(told, "{refusal}")?,
    }
    Ok(told.into_bytes())
}

fn push_units(told: &mut String, units: &[FoundUnit]) -> Result<(), AllocError> {
    for (unit, of_unit) in units.iter().enumerate() {
        write!(told, "unit {unit}: records")?;
        push_unit(told, of_unit)?;
    }
    Ok(())
}

// The slots of a unit's records, its lost slots, and the slots of its live objects.
fn push_unit(told: &mut String, unit: &FoundUnit) -> Result<(), AllocError> {
    for record in unit.records.as_slice() {
        write!(told, " {}", record.slot)?;
    }
    write!(told, ", lost")?;
    for slot in unit.lost.as_slice() {
        write!(told, " {slot}")?;
    }
    write!(told, ", objects")?;
    for object in unit.objects.as_slice() {
        write!(told, " {}", object.slot)?;
    }
    writeln!(told)
}

/// What a store is taken apart into, when its sweep was cut after three steps and then went on.
pub fn told_parts(
    rt: &(impl Threads + Sync),
    alloc: Global,
    image: &Image,
    workers: u64,
    callers: u64,
) -> Result<Vec<u8>, Unanswered>
    requires workers { (1 ≤ workers) × (workers ≤ 64) }
    requires new { image.now.old ≡ false }
{
    let unclear = Unanswered::Unclear { head: "ask" };
    if callers < 1 || callers > 8 {
        return Err(unclear);
    }
    match recover(rt, alloc, image, workers, callers) {
        Ok(mut store) => {
            let _cut = store.sweep(&mut Fuel::new(3));
            let _swept = store.sweep(&mut Steady);
            told_of_parts(alloc, &store.into_parts())
        }
        Err(_) => Err(unclear),
    }
}

fn told_of_parts(alloc: Global, parts: &Parts) -> Result<Vec<u8>, Unanswered> {
    let mut told = String::new(alloc);
    push_parts(&mut told, parts)?;
    Ok(told.into_bytes())
}

fn push_parts(told: &mut String, parts: &Parts) -> Result<(), AllocError> {
    let (clock, regions, tickets) = (parts.clock, parts.regions.len(), parts.tickets.len());
    write!(told, "clock {clock}, regions {regions}, ")?;
    write!(told, "tickets {tickets}, objects")?;
    for objects in &parts.objects {
        write!(told, " {}", objects.len())?;
    }
    writeln!(told)
}
