// The verdict on the report and the image of a case.
ghost use Rattle.std.specs.Prelude.{◌≡◌, IfOk, false};

use crate::changed_reports::answer_changed;
use crate::judged::report_in;
use case_file::{Case, Unanswered};
use case_image::image_text;
use job_text::Report;
use mont_base::MemSource;
use mont_image::{Image, read_image};
use report_check::check;
use std::alloc::Global;
use std::thread::Threads;

// Any number of workers finds the same.
const WORKERS: u64 = 4;

const CALLERS: &str = "callers";

/// The verdict on a report and the image of the part `image`. Where there is a part `callers`, the
/// report has so many callers. With a part `changed` the report is changed in one byte at a time.
pub fn answer_verdict(
    rt: &(impl AllocGlobal + Threads + Sync),
    case: &Case,
    text: &[u8],
) -> Result<Vec<u8>, Unanswered> {
    let image = image_of(rt.alloc(), case)?;
    verdict_on(rt, case, text, &image)
}

// The image of the case, which is one of the version that is written today.
fn image_of(alloc: Global, case: &Case) -> Result<Image, Unanswered>
    ensures { IfOk result (λ image. image.old ≡ false) }
{
    let bytes = image_text(alloc, case)?;
    let mut source = MemSource::new(bytes, 4096, Vec::new(alloc));
    match read_image(alloc, &mut source) {
        Ok(image) if !image.old => Ok(image),
        _ => Err(Unanswered::Unclear { head: "image" }),
    }
}

fn verdict_on(
    rt: &(impl AllocGlobal + Threads + Sync),
    case: &Case,
    text: &[u8],
    image: &Image,
) -> Result<Vec<u8>, Unanswered>
    requires { image.now.old ≡ false }
{
    let report = report_of(rt.alloc(), case, text)?;
    match case.part("changed") {
        Some(changed) => answer_changed(rt, text, &report, image, changed),
        None => told_verdict(rt, &report, image),
    }
}

// The report that a text spells, with so many callers as the case says.
fn report_of(alloc: Global, case: &Case, text: &[u8]) -> Result<Report, Unanswered> {
    let mut report = report_in(alloc, "report", text)?;
    if let Some(callers) = case.number(alloc, CALLERS)? {
        report.callers = callers;
    }
    Ok(report)
}

// The line of the verdict.
fn told_verdict(
    rt: &(impl AllocGlobal + Threads + Sync),
    report: &Report,
    image: &Image,
) -> Result<Vec<u8>, Unanswered>
    requires { image.now.old ≡ false }
{
    let alloc = rt.alloc();
    let verdict = check(rt, alloc, report, image, WORKERS)?;
    Ok(format!(in alloc; "{verdict}\n")?.into_bytes())
}
