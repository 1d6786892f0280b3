// The lines that tell of an image.
ghost use Rattle.std.specs.Prelude.{◌≡◌, ◌+◌, ◌*◌, ◌++◌, IfOk, OnOk, drop, map, take};
ghost use Rattle.std.specs.List.{concat, enumerate_from, flat_map};
ghost use Rattle.std.specs.String.{string_bytes};
ghost use Rattle.image_info.specs.ToldLines.{clock_line, comma_before, epoch_line, fault_line, fault_lines, first_counts, kind_name, layout_line, number_line, other_counts, slot_of, slot_told, slot_words, told_text, unit_line, unit_lines, unit_words, version_line, words_told};

use crate::epoch_counts::EpochCount;
use crate::info::ImageInfo;
use crate::unit_counts::UnitCounts;
use image_units::ImageFault;
use mont_base::{Epoch, FIELDS, Layout, Slot, Unit, UnitKind};
use mont_image::{Image, OLD_FIELDS};
use std::alloc::{AllocError, Global};

/// The lines that tell of an image.
pub(crate) fn info_text(alloc: Global, info: &ImageInfo) -> Result<String, AllocError>
    ensures { IfOk result (λ text. string_bytes text ≡ told_text info.now) }
{
    let mut text = String::new(alloc);
    let layout = info.image.layout;
    let kinds = layout.kinds();
    push_version(&mut text, info.version)?;
    push_layout(&mut text, &layout)?;
    push_clock(&mut text, info.image.clock(), info.cut)?;
    push_units(&mut text, kinds.as_slice(), &info.units)?;
    push_epochs(&mut text, &info.epochs)?;
    push_faults(&mut text, &info.image, &info.faults)?;
    Ok(text)
}

// The version of the image's text.
fn push_version(text: &mut String, version: u64) -> Result<(), AllocError>
    ensures { OnOk result
        (string_bytes text.new ≡ string_bytes text.old ++ version_line version) }
{
    writeln!(text, "version {version}")
}

// Each unit with its kind and the number of its slots.
fn push_layout(text: &mut String, layout: &Layout) -> Result<(), AllocError>
    ensures { OnOk result
        (string_bytes text.new ≡ string_bytes text.old ++ layout_line layout.now) }
{
    text.push_str("layout ")?;
    push_kinds(text, layout.kinds().as_slice(), layout.slots())?;
    text.push_str("\n")?;
    Ok(())
}

// The units of these kinds, each of which has so many slots.
fn push_kinds(text: &mut String, kinds: &[UnitKind], slots: u64) -> Result<(), AllocError>
    ensures { OnOk result (string_bytes text.new
        ≡ string_bytes text.old ++ flat_map (unit_words slots) (enumerate_from 0 kinds.now)) }
{
    for (unit, kind) in kinds.iter().enumerate() {
        push_kind(text, unit as u64, *kind, slots)?;
    }
    Ok(())
}

// A unit with its kind and the number of its slots.
fn push_kind(text: &mut String, unit: Unit, kind: UnitKind, slots: u64) -> Result<(), AllocError>
    ensures { OnOk result
        (string_bytes text.new ≡ string_bytes text.old ++ unit_words slots (unit, kind)) }
{
    let (comma, kind) = (comma_before(unit), kind_word(kind));
    write!(text, "{comma}{unit} {kind} {slots}")
}

// A comma stands before each unit but the first.
fn comma_before(unit: Unit) -> &'static str
    ensures { result.now ≡ comma_before unit }
{
    if unit == 0 { "" } else { ", " }
}

// The clock, and the last epoch that recovery keeps.
fn push_clock(text: &mut String, clock: Epoch, cut: Epoch) -> Result<(), AllocError>
    ensures { OnOk result
        (string_bytes text.new ≡ string_bytes text.old ++ clock_line clock cut) }
{
    writeln!(text, "clock {clock}, cut at {cut}")
}

// What the slots of each unit hold.
fn push_units(text: &mut String, kinds: &[UnitKind], units: &[UnitCounts]) -> Result<(), AllocError>
    ensures { OnOk result (string_bytes text.new
        ≡ string_bytes text.old ++ concat (unit_lines kinds.now units.now)) }
{
    for (unit, (kind, counts)) in kinds.iter().zip(units).enumerate() {
        push_counts(text, unit as u64, *kind, counts)?;
    }
    Ok(())
}

// What the slots of a unit hold.
fn push_counts(
    text: &mut String,
    unit: Unit,
    kind: UnitKind,
    counts: &UnitCounts,
) -> Result<(), AllocError>
    ensures { OnOk result
        (string_bytes text.new ≡ string_bytes text.old ++ unit_line unit kind counts.now) }
{
    push_first_counts(text, unit, kind, counts)?;
    push_other_counts(text, counts)?;
    Ok(())
}

// The unit, and how many of its slots are free, live and superseded.
fn push_first_counts(
    text: &mut String,
    unit: Unit,
    kind: UnitKind,
    counts: &UnitCounts,
) -> Result<(), AllocError>
    ensures { OnOk result
        (string_bytes text.new ≡ string_bytes text.old ++ first_counts unit kind counts.now) }
{
    let kind = kind_word(kind);
    let (free, live, superseded) = (counts.free, counts.live, counts.superseded);
    write!(
        text,
        "unit {unit} {kind}: {free} free, {live} live, {superseded} superseded"
    )?;
    Ok(())
}

// How many of its slots are anti-payloads, beyond the cut and faulty.
fn push_other_counts(text: &mut String, counts: &UnitCounts) -> Result<(), AllocError>
    ensures { OnOk result
        (string_bytes text.new ≡ string_bytes text.old ++ other_counts counts.now) }
{
    let (deleted, beyond, faulty) = (counts.anti_payloads, counts.beyond, counts.faulty);
    writeln!(
        text,
        ", {deleted} anti-payloads, {beyond} beyond the cut, {faulty} faulty"
    )?;
    Ok(())
}

// How many records each epoch has.
fn push_epochs(text: &mut String, epochs: &[EpochCount]) -> Result<(), AllocError>
    ensures { OnOk result (string_bytes text.new
        ≡ string_bytes text.old ++ concat (map epoch_line epochs.now)) }
{
    for count in epochs {
        push_epoch(text, count)?;
    }
    Ok(())
}

// How many records an epoch has.
fn push_epoch(text: &mut String, count: &EpochCount) -> Result<(), AllocError>
    ensures { OnOk result
        (string_bytes text.new ≡ string_bytes text.old ++ epoch_line count.now) }
{
    let (epoch, records) = (count.epoch, count.records);
    writeln!(text, "epoch {epoch}: {records} records")?;
    Ok(())
}

// How many faults there are.
fn push_number(text: &mut String, number: usize) -> Result<(), AllocError>
    ensures { OnOk result
        (string_bytes text.new ≡ string_bytes text.old ++ number_line number) }
{
    writeln!(text, "faults {number}")?;
    Ok(())
}

// How many faults there are, and each of them.
fn push_faults(text: &mut String, image: &Image, faults: &[ImageFault]) -> Result<(), AllocError>
    ensures { OnOk result (string_bytes text.new
        ≡ string_bytes text.old ++ concat (fault_lines image.now faults.now)) }
{
    push_number(text, faults.len())?;
    for fault in faults {
        push_fault(text, image, *fault)?;
    }
    Ok(())
}

// A fault, and after it the words of the slot that has it.
fn push_fault(text: &mut String, image: &Image, fault: ImageFault) -> Result<(), AllocError>
    ensures { OnOk result
        (string_bytes text.new ≡ string_bytes text.old ++ fault_line image.now fault) }
{
    write!(text, "fault {fault}")?;
    push_slot(text, image, slot_of(fault))?;
    text.push_str("\n")?;
    Ok(())
}

// The words of a slot, if there is one.
fn push_slot(text: &mut String, image: &Image, slot: Option<Slot>) -> Result<(), AllocError>
    ensures { OnOk result
        (string_bytes text.new ≡ string_bytes text.old ++ slot_told image.now slot) }
{
    match slot {
        Some(slot) => push_words(text, words_of(image, slot)),
        None => Ok(()),
    }
}

// The words of a slot after a colon.
fn push_words(text: &mut String, words: &[u64]) -> Result<(), AllocError>
    ensures { OnOk result
        (string_bytes text.new ≡ string_bytes text.old ++ words_told words.now) }
{
    text.push_str(":")?;
    for word in words {
        write!(text, " {word}")?;
    }
    Ok(())
}

// The slot that has a fault.
fn slot_of(fault: ImageFault) -> Option<Slot>
    ensures { result ≡ slot_of fault }
{
    match fault {
        ImageFault::Slot { slot, .. }
        | ImageFault::Twice { slot, .. }
        | ImageFault::Object { slot, .. } => Some(slot),
        ImageFault::Magic
        | ImageFault::Version
        | ImageFault::Layout
        | ImageFault::Clock
        | ImageFault::Short { .. }
        | ImageFault::Long => None,
    }
}

// The words of a slot, as many as the image's slots have.
fn words_of(image: &Image, slot: Slot) -> &[u64]
    ensures { result.now ≡ slot_words image.now.old image.now.words slot }
{
    let fields = if image.old { OLD_FIELDS } else { FIELDS };
    words_at(image.words.as_slice(), fields, slot)
}

// So many words at the place of a slot, where each slot has so many; fewer where the words end.
fn words_at(words: &[u64], fields: usize, slot: Slot) -> &[u64]
    ensures { result.now ≡ take fields (drop (1 + fields * slot) words.now) }
{
    let first = fields.saturating_mul(slot as usize).saturating_add(1);
    let rest = &words[first.min(words.len())..];
    &rest[..fields.min(rest.len())]
}

// The word for a kind of unit.
fn kind_word(kind: UnitKind) -> &'static str
    ensures { result.now ≡ kind_name kind }
{
    match kind {
        UnitKind::Map => "map",
        UnitKind::Queue => "queue",
        UnitKind::Graph => "graph",
        UnitKind::Ordered => "ordered",
    }
}
