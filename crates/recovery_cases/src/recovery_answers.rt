// What comes of a case.
ghost use Rattle.std.specs.Prelude.{◌≡◌, ◌<◌, ◌≤◌, false};

use crate::asked_image::Asked;
use crate::chains::follow_chains;
use crate::damaged_images::{DAMAGED, damaged_images};
use crate::failing_devices::{FAILING, failing_told};
use crate::found_text::told_by;
use crate::now::{ReadImage, image_now};
use crate::slot_told::{SLOT, slot_told};
use crate::sweep_table::sweep_table;
use crate::tellings::{told_fault, told_image, told_refusal};
use crate::texts_told::{is_other_text, told_as_read, told_picked};
use crate::units_told::{told_parts, told_scan, told_units};
use case_file::{Case, Unanswered};
use case_image::image_text;
use mont_image::Image;
use recover::RecoverRefusal;
use std::alloc::Global;
use std::str;
use std::thread::Threads;

// How many bytes a source gives at most in a call, and how many workers look through an image.
static WAYS: [(u64, u64); 6] = [
    (10_000_000, 1),
    (7, 2),
    (1, 3),
    (10_000_000, 5),
    (7, 8),
    (1, 64),
];

/// What comes of a case: of its chains, of images that are damaged, of a slot, or of its image what
/// is asked.
pub fn answer_to(
    rt: &(impl AllocGlobal + Threads + Sync),
    case: &Case,
) -> Result<Vec<u8>, Unanswered> {
    let alloc = rt.alloc();
    if let Some(chains) = case.part("chains") {
        return follow_chains(rt, alloc, chains);
    }
    if let Some(count) = case.part(DAMAGED) {
        return damaged_images(rt, alloc, case, count);
    }
    if let Some(slot) = case.part(SLOT) {
        return slot_told(alloc, slot);
    }
    by_all_ways(rt, alloc, case)
}

// What comes of an image, which is told once where it is the same by all ways.
fn by_all_ways(
    rt: &(impl Threads + Sync),
    alloc: Global,
    case: &Case,
) -> Result<Vec<u8>, Unanswered> {
    let text = image_text(alloc, case)?;
    if let Some(piece) = case.part(FAILING) {
        return failing_told(alloc, piece, text.as_slice());
    }
    let mut told = Vec::new(alloc);
    push_ways(&mut told, rt, alloc, case, text.as_slice())?;
    Ok(told)
}

fn push_ways(
    told: &mut Vec<u8>,
    rt: &(impl Threads + Sync),
    alloc: Global,
    case: &Case,
    text: &[u8],
) -> Result<(), Unanswered> {
    for (piece, workers) in WAYS {
        let came = by_way(rt, alloc, case, text, piece.max(1), workers.clamp(1, 64))?;
        push_other(told, came.as_slice())?;
    }
    Ok(())
}

// Adds what came by one way, where it is something else than by those before.
fn push_other(told: &mut Vec<u8>, came: &[u8]) -> Result<(), Unanswered> {
    if told.as_slice() == came {
        return Ok(());
    }
    if !told.is_empty() {
        told.extend_from_slice(b"but by other pieces and workers\n")?;
    }
    Ok(told.extend_from_slice(came)?)
}

// What comes of a text by a source of such pieces and so many workers.
fn by_way(
    rt: &(impl Threads + Sync),
    alloc: Global,
    case: &Case,
    text: &[u8],
    piece: u64,
    workers: u64,
) -> Result<Vec<u8>, Unanswered>
    requires some { 0 < piece }
    requires workers { (1 ≤ workers) × (workers ≤ 64) }
{
    if case.part("read").is_some() {
        return told_as_read(alloc, text, piece);
    }
    let asked = case.part("ask").unwrap_or(b"recover\n");
    match image_now(alloc, text, piece)? {
        ReadImage::Faulty { fault } => told_fault(alloc, fault),
        ReadImage::Now { image } => {
            let is_other = is_other_text(alloc, &image, text, piece)?;
            answers(rt, alloc, asked, &image, is_other, workers)
        }
    }
}

// The answers to all that is asked of an image, and before them whether it is written otherwise.
fn answers(
    rt: &(impl Threads + Sync),
    alloc: Global,
    asked: &[u8],
    image: &Image,
    is_other: bool,
    workers: u64,
) -> Result<Vec<u8>, Unanswered>
    requires workers { (1 ≤ workers) × (workers ≤ 64) }
    requires new { image.now.old ≡ false }
{
    let mut told = Vec::new(alloc);
    if is_other {
        told.extend_from_slice(b"but it is written otherwise\n")?;
    }
    for line in str::from_utf8(asked).unwrap_or("?").lines() {
        push_answer(&mut told, rt, alloc, image, line, workers)?;
    }
    Ok(told)
}

fn push_answer(
    told: &mut Vec<u8>,
    rt: &(impl Threads + Sync),
    alloc: Global,
    image: &Image,
    line: &str,
    workers: u64,
) -> Result<(), Unanswered>
    requires workers { (1 ≤ workers) × (workers ≤ 64) }
    requires new { image.now.old ≡ false }
{
    let answer = answer(rt, alloc, image, line, workers)?;
    Ok(told.extend_from_slice(answer.as_slice())?)
}

// The answer to a question.
fn answer(
    rt: &(impl Threads + Sync),
    alloc: Global,
    image: &Image,
    line: &str,
    workers: u64,
) -> Result<Vec<u8>, Unanswered>
    requires workers { (1 ≤ workers) × (workers ≤ 64) }
    requires new { image.now.old ≡ false }
{
    match Asked::of_line(line) {
        Some(Asked::Recover) => told_by(rt, alloc, image, workers),
        Some(Asked::Migrate) => told_image(alloc, image),
        Some(Asked::Scan) => told_scan(rt, alloc, image, workers),
        Some(Asked::Units) => told_units(rt, alloc, image, workers),
        Some(Asked::Sweep { most }) => sweep_table(rt, alloc, image, most),
        Some(Asked::Parts { callers }) => told_parts(rt, alloc, image, workers, callers),
        Some(Asked::Pick { mask }) => told_picked(alloc, image, mask),
        Some(Asked::Memory) => told_refusal(alloc, RecoverRefusal::Memory),
        None => Err(Unanswered::Unclear { head: "ask" }),
    }
}
