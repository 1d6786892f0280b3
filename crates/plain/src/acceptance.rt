// Whether recovery accepts an image.
ghost use Rattle.std.specs.Prelude.{◌≡◌, ◌≤◌, ◌<◌, ◌↔◌, IsTrue, IfOk, length, map, AllPairs};
ghost use Rattle.std.specs.BTreeSet.{IsFromIterResult};
ghost use Rattle.mont_base.specs.declared.constants.TheConstants.{LAST};
ghost use Rattle.mont_base.specs.Layout.{units_of, total_of, words_of};
ghost use Rattle.mont_base.specs.State.{edge_cmp};
ghost use Rattle.mont_base.specs.Image.{clock_of, DiffersFrom, IsWellFormed};
ghost use Rattle.plain.specs.Acceptable.{HasClock, IsReadable, IsAcceptableUnit, Reads, version_key};

use crate::image::{is_in_cut, records, words_at};
use crate::structure::makes_structure;
use mont_base::{FIRST_CLOCK, Held, LAST, Layout, Slot, Unit};
use payload::{live_objects, read_words};
use std::alloc::{AllocError, Global};
use std::collections::BTreeSet;

/// Whether recovery accepts an image: it has the layout's words and a clock, what ends two epochs
/// before the clock is read without fault and has no version twice, and its live objects make a
/// structure of each unit.
pub fn is_well_formed(alloc: Global, layout: Layout, image: &[u64]) -> Result<bool, AllocError>
    ensures { IfOk result (λ b. IsTrue b ↔ IsWellFormed layout image.now) }
{
    if !has_clock(&layout, image) {
        return Ok(false);
    }
    for unit in 0..layout.units() {
        if !is_acceptable(alloc, layout, image, unit)? {
            return Ok(false);
        }
    }
    Ok(true)
}

// Whether the image has the words of the layout, and a clock.
fn has_clock(layout: &Layout, image: &[u64]) -> bool
    ensures { IsTrue result ↔ HasClock layout.now image.now }
{
    image.len() as u64 == layout.words() && (FIRST_CLOCK..=LAST).contains(&image[0])
}

// Whether one unit of the image is as recovery wants it.
fn is_acceptable(
    alloc: Global,
    layout: Layout,
    image: &[u64],
    unit: Unit,
) -> Result<bool, AllocError>
    requires size { length image.now ≡ words_of layout }
    requires clock { clock_of image.now ≤ LAST }
    requires unit { unit < units_of layout }
    ensures { IfOk result (λ b. IsTrue b ↔ IsAcceptableUnit layout image.now unit) }
{
    let held = records(alloc, layout, image, unit)?;
    let objects = live_objects(alloc, &held)?;
    let defined = makes_structure(alloc, layout, unit, &objects)?;
    let apart = are_apart(alloc, &held)?;
    Ok(defined && apart && is_readable(&layout, image, unit))
}

// Whether each slot of a unit within the cut is read without fault.
fn is_readable(layout: &Layout, image: &[u64], unit: Unit) -> bool
    requires size { length image.now ≡ words_of layout.now }
    requires clock { clock_of image.now ≤ LAST }
    requires unit { unit < units_of layout.now }
    ensures { IsTrue result ↔ IsReadable layout.now image.now unit }
{
    let first = unit * layout.slots();
    for place in 0..layout.slots() {
        if !reads(layout, image, unit, first + place) {
            return false;
        }
    }
    true
}

// Whether a slot is beyond the cut or read without fault.
fn reads(layout: &Layout, image: &[u64], unit: Unit, slot: Slot) -> bool
    requires size { length image.now ≡ words_of layout.now }
    requires clock { clock_of image.now ≤ LAST }
    requires slot { slot < total_of layout.now }
    ensures { IsTrue result ↔ Reads image.now unit slot }
{
    !is_in_cut(layout, image, slot) || read_words(unit, &words_at(layout, image, slot)).is_ok()
}

// Whether no version of an identity stands twice.
fn are_apart(alloc: Global, held: &[Held]) -> Result<bool, AllocError>
    ensures { IfOk result (λ b. IsTrue b ↔ AllPairs DiffersFrom held.now) }
{
    Ok(versions_of(alloc, held)?.len() == held.len())
}

// The versions that there are.
fn versions_of(alloc: Global, held: &[Held]) -> Result<BTreeSet<(u64, u64)>, AllocError>
    ensures { IfOk result (λ s. IsFromIterResult edge_cmp (map version_key held.now) s) }
{
    held.iter()
        .map(|held| (held.label.identity, held.label.version))
        .collect(alloc)
}
