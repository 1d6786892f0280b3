// Reports in which one byte is changed, and what is wanted of each.
ghost use Rattle.std.specs.Prelude.{◌≡◌, false};

use crate::agreement::agrees;
use case_file::{Unanswered, numbers_in};
use job_text::{Report, ReportRefusal, read_report, write_report};
use mont_image::Image;
use rand_core::Rng;
use rand_pcg::Pcg64;
use report_check::{Verdict, check};
use std::alloc::Global;
use std::thread::Threads;

const CHANGED: &str = "changed";

// Bytes that stand in reports, and some that don't.
const BYTES: &[u8] = b"0123456789 \n=%abcdefghiklmnopqrstuvyz-\x00\xff";

/// Changes one byte of a report's text, as often as the second number tells, by the seed that the
/// first one is. Where the text is no report's then, the first refused line is to be the changed
/// one or one after it; else its report is to be spelled by it, and the verdict is to be yes
/// exactly where the report agrees with what the unchanged one tells of the image.
pub fn answer_changed(
    rt: &(impl AllocGlobal + Threads + Sync),
    text: &[u8],
    report: &Report,
    image: &Image,
    changed: &[u8],
) -> Result<Vec<u8>, Unanswered>
    requires { image.now.old ≡ false }
{
    let alloc = rt.alloc();
    let (seed, many) = draw_in(alloc, changed)?;
    let mut draws = Pcg64::new(u128::from(seed), 0);
    for time in 0..many {
        let at = below(&mut draws, text.len());
        let drawn = BYTES.get(below(&mut draws, BYTES.len()));
        let byte = drawn.copied().unwrap_or(0);
        if !is_as_wanted(rt, text, report, image, at, byte)? {
            return Ok(format!(in alloc; "{time}: byte {byte} at {at}\n")?.into_bytes());
        }
    }
    Ok(format!(in alloc; "{many} as wanted\n")?.into_bytes())
}

// The seed, and how many bytes are changed.
fn draw_in(alloc: Global, changed: &[u8]) -> Result<(u64, u64), Unanswered> {
    match numbers_in(alloc, CHANGED, changed)?.as_slice() {
        [seed, many] => Ok((*seed, *many)),
        _ => Err(Unanswered::Unclear { head: CHANGED }),
    }
}

fn below(draws: &mut Pcg64, many: usize) -> usize {
    draws.next_u64().checked_rem(many as u64).unwrap_or(0) as usize
}

fn is_as_wanted(
    rt: &(impl AllocGlobal + Threads + Sync),
    text: &[u8],
    report: &Report,
    image: &Image,
    at: usize,
    byte: u8,
) -> Result<bool, Unanswered>
    requires { image.now.old ≡ false }
{
    let alloc = rt.alloc();
    let mut bytes = Vec::from_slice(alloc, text)?;
    if let Some(place) = bytes.get_mut(at) {
        *place = byte;
    }
    match read_report(alloc, bytes.as_slice()) {
        Ok(told) => is_told_rightly(rt, bytes.as_slice(), &told, report, image),
        Err(ReportRefusal::Text { line }) => Ok(line >= line_of(text, at)),
        Err(ReportRefusal::Memory) => Err(Unanswered::Memory),
    }
}

// Whether the changed text spells the report that it tells, and the verdict is the wanted one.
fn is_told_rightly(
    rt: &(impl AllocGlobal + Threads + Sync),
    text: &[u8],
    told: &Report,
    report: &Report,
    image: &Image,
) -> Result<bool, Unanswered>
    requires { image.now.old ≡ false }
{
    let alloc = rt.alloc();
    let wanted = agrees(told, report)?;
    let is_yes = matches!(check(rt, alloc, told, image, 2)?, Verdict::Yes);
    Ok(is_yes == wanted && write_report(alloc, told)?.as_slice() == text)
}

// The line in which a byte stands, counted from 1.
fn line_of(text: &[u8], at: usize) -> u64 {
    let mut line = 1_u64;
    for byte in text.iter().take(at) {
        if *byte == b'\n' {
            line = line.saturating_add(1);
        }
    }
    line
}
