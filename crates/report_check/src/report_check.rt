// A report held against an image.
ghost use Rattle.std.specs.Prelude.{◌≡◌, ◌↔◌, ◌≤◌, false, IfOk, IsTrue};
ghost use Rattle.job_text.specs.PlainReport.{report_of};
ghost use Rattle.report_check.specs.ReportVerdict.{IsJudged, IsRefusal, IsVerdict};

use crate::failing_entry::failing_entry;
use crate::failing_outcome::failing_outcome;
use crate::marks::{first_unmarked, no_marks};
use crate::other_contents::other_unit;
use crate::verdict::Verdict;
use image_units::{ImageFault, RecoverRefusal, find_units};
use job_text::Report;
use mont_base::Layout;
use mont_image::Image;
use std::alloc::{AllocError, Global};
use std::thread::Threads;

/// Holds a report against an image, for any number of workers with the same verdict. It asks for
/// no shape of the report: what isn't there isn't judged. Each report that `read_report` gives has
/// something of each unit and each caller.
///
/// It takes n log n steps, where n is the lines of the report and the words of the image, but that
/// an entry with a floor, a rank, a range, a degree or the removal of a vertex walks along its
/// unit's state, as in `plain`.
pub fn check(
    rt: &(impl Threads + Sync),
    alloc: Global,
    report: &Report,
    image: &Image,
    workers: u64,
) -> Result<Verdict, AllocError>
    requires some { 1 ≤ workers }
    requires few { workers ≤ 64 }
    requires new { image.now.old ≡ false }
    ensures { IfOk result
        (IsVerdict (report_of report.now) image.now.layout image.now.words) }
{
    if !same_layout(&report.layout, &image.layout) {
        return Ok(Verdict::Layout);
    }
    if let Some(verdict) = judge_report(alloc, report)? {
        return Ok(verdict);
    }
    let found = match find_units(rt, alloc, image, workers) {
        Ok(found) => found,
        Err(refusal) => return refused(refusal),
    };
    let clock = image.clock();
    if clock != report.image_clock {
        return Ok(Verdict::Clock { image: clock });
    }
    match other_unit(report, image, &found.contents)? {
        Some(unit) => Ok(Verdict::Contents { unit }),
        None => Ok(Verdict::Yes),
    }
}

fn same_layout(a: &Layout, b: &Layout) -> bool
    ensures { IsTrue result ↔ (a.now ≡ b.now) }
{
    a == b
}

// What the report tells by itself, if its histories and outcomes don't hold.
fn judge_report(alloc: Global, report: &Report) -> Result<Option<Verdict>, AllocError>
    ensures { IfOk result (IsJudged (report_of report.now)) }
{
    if let Some((unit, place)) = failing_entry(report)? {
        return Ok(Some(Verdict::History { unit, place }));
    }
    let mut marks = no_marks(alloc, report)?;
    if let Some((caller, line)) = failing_outcome(alloc, report, &mut marks)? {
        return Ok(Some(Verdict::Outcome { caller, line }));
    }
    match first_unmarked(&marks) {
        Some((unit, place)) => Ok(Some(Verdict::Unnamed { unit, place })),
        None => Ok(None),
    }
}

// The verdict on an image that recovery refuses, unless it was for want of memory.
fn refused(refusal: RecoverRefusal) -> Result<Verdict, AllocError>
    ensures { IfOk result (IsRefusal refusal) }
{
    match ImageFault::of_words(refusal) {
        Some(fault) => Ok(Verdict::Image { fault }),
        None => Err(AllocError),
    }
}
