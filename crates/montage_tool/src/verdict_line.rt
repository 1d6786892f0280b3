// A report is held against an image, and the verdict told.
ghost use Rattle.std.specs.Prelude.{◌≡◌, ◌+◌, ◌++◌, [], ◌∷◌, IfOk, IfErr, OnOk};
ghost use Rattle.std.specs.Io.KnownBytes.{IsAtEnd};
ghost use Rattle.report_check.specs.VerdictWords.{verdict_words};
ghost use Rattle.montage_tool.specs.Devices.{IsRead, StopsAtJob, ended_as, source_seen};
ghost use Rattle.montage_tool.specs.Judged.{IsHeld, RefusesCheck};

use crate::read_inputs::{REPORT_BYTES, image_of, told_report};
use crate::status::{SourceName, Status};
use image_units::ImageFault;
use mont_base::Source;
use mont_image::IMAGE_BYTES;
use report_check::{Verdict, check};
use std::alloc::{AllocError, Global};
use std::thread::Threads;

// How many workers look through an image.
const WORKERS: u64 = 4;

// The verdict of the report of a source on the image of another. Where no report is read, the
// image's source isn't asked.
pub(crate) fn verdict_of<R: AllocGlobal + Threads + Sync, J: Source, I: Source>(
    rt: &R,
    job: &mut J,
    image: &mut I,
) -> Result<Vec<u8>, Status>
    ensures told { IfOk result
        (λ text. IsHeld (J.left job.old) (I.left image.old) text.items) }
    ensures refused { IfErr result (RefusesCheck (J.left job.old) (I.left image.old)) }
    ensures job { IsRead (REPORT_BYTES + 1) SourceName.Job (source_seen J.Source job.old)
        (source_seen J.Source job.new) (ended_as result) }
    ensures whole { OnOk result (IsAtEnd (J.left job.new)) }
    ensures image { IsRead (IMAGE_BYTES + 1) SourceName.Image (source_seen I.Source image.old)
        (source_seen I.Source image.new) (ended_as result) }
    ensures first { IfErr result (λ status. StopsAtJob status → image.new ≡ image.old) }
{
    let alloc = rt.alloc();
    let report = told_report(alloc, job)?;
    let image = image_of(alloc, image)?;
    if image.old {
        return Err(Status::BadImage {
            fault: ImageFault::Version,
        });
    }
    let verdict = check(rt, alloc, &report, &image, WORKERS)?;
    Ok(line_of_verdict(alloc, &verdict)?)
}

// The line that tells a verdict.
fn line_of_verdict(alloc: Global, verdict: &Verdict) -> Result<Vec<u8>, AllocError>
    ensures { IfOk result (λ line. line.items ≡ verdict_words verdict.now ++ 10 ∷ []) }
{
    let line = format!(in alloc; "{verdict}\n")?;
    Ok(line.into_bytes())
}
