// A job is run, on a store that was never used or on what an image holds.
ghost use Rattle.std.specs.Prelude.{◌≡◌, ◌+◌, false, List, ℕ, Option, map, IfOk, IfErr, OnOk};
ghost use Rattle.std.specs.FinMap as finite;
ghost use Rattle.std.specs.Io.KnownBytes.{IsAtEnd};
ghost use Rattle.job_text.specs.PlainReport.{report_of};
ghost use Rattle.job_text.specs.ReportText.{report_text};
ghost use Rattle.mont_image.specs.ImageText.{image_text};
ghost use Rattle.montage_tool.specs.Devices.{IsRead, StopsAtJob, ended_as, source_seen};
ghost use Rattle.montage_tool.specs.Service.{IsFreshRun, IsResumedRun, RefusesFresh, RefusesResumed};

use crate::read_inputs::{image_of, job_of};
use crate::status::{SourceName, Status};
use index_kit::Index;
use job_store::{WholeRun, run_fresh, run_resumed};
use job_text::{READ_BYTES, write_report};
use mont_base::Source;
use mont_image::{IMAGE_BYTES, Image};
use std::alloc::{AllocError, Global};
use std::sync::Wait;
use std::thread::Threads;

// What a run of a job gives to be written: the text of its report, and the image that a crash
// leaves, which is as images are now.
#[derive(Drop)]
pub(crate) struct MadeRun {
    pub(crate) report: Vec<u8>,
    pub(crate) image: Image,
    pub(crate) ghost new: { image.old ≡ false },
}

// Runs the job of a source on a store that was never used.
pub(crate) fn fresh_run<R: AllocGlobal + Threads + Wait + Sync, J: Source, B: Index + Send>(
    rt: &R,
    job: &mut J,
    indexes: Vec<B>,
) -> Result<MadeRun, Status>
    ensures made { (image : Option (List ℕ)) → IfOk result (λ m. IsFreshRun
        (record {
          job = J.left job.old;
          image = image;
          boxes = map (λ b. finite.len (B.places b)) indexes.items;
        })
        m.report.items (image_text m.image.layout m.image.words)) }
    ensures refused { (image : Option (List ℕ)) → IfErr result (RefusesFresh
        (record {
          job = J.left job.old;
          image = image;
          boxes = map (λ b. finite.len (B.places b)) indexes.items;
        })) }
    ensures source { IsRead READ_BYTES SourceName.Job (source_seen J.Source job.old)
        (source_seen J.Source job.new) (ended_as result) }
    ensures whole { OnOk result (IsAtEnd (J.left job.new)) }
{
    let alloc = rt.alloc();
    let job = job_of(alloc, job)?;
    let run = run_fresh(rt, alloc, &job, indexes)?;
    Ok(made_of(alloc, run)?)
}

// Runs the job of a source on what the image of another holds. Where no job is read, the image's
// source isn't asked.
pub(crate) fn resumed_run<
    R: AllocGlobal + Threads + Wait + Sync,
    J: Source,
    I: Source,
    B: Index + Send,
>(rt: &R, job: &mut J, image: &mut I, indexes: Vec<B>) -> Result<MadeRun, Status>
    ensures made { IfOk result (λ m. IsResumedRun
        (record {
          job = J.left job.old;
          image = I.left image.old;
          boxes = map (λ b. finite.len (B.places b)) indexes.items;
        })
        m.report.items (image_text m.image.layout m.image.words)) }
    ensures refused { IfErr result (RefusesResumed
        (record {
          job = J.left job.old;
          image = I.left image.old;
          boxes = map (λ b. finite.len (B.places b)) indexes.items;
        })) }
    ensures job { IsRead READ_BYTES SourceName.Job (source_seen J.Source job.old)
        (source_seen J.Source job.new) (ended_as result) }
    ensures whole { OnOk result (IsAtEnd (J.left job.new)) }
    ensures image { IsRead (IMAGE_BYTES + 1) SourceName.Image (source_seen I.Source image.old)
        (source_seen I.Source image.new) (ended_as result) }
    ensures first { IfErr result (λ status. StopsAtJob status → image.new ≡ image.old) }
{
    let alloc = rt.alloc();
    let job = job_of(alloc, job)?;
    let image = image_of(alloc, image)?;
    let run = run_resumed(rt, alloc, &job, image, indexes)?;
    Ok(made_of(alloc, run)?)
}

// What is written of a run.
fn made_of(alloc: Global, run: WholeRun) -> Result<MadeRun, AllocError>
    requires { run.image.old ≡ false }
    ensures report { IfOk result (λ m. m.report.items ≡ report_text (report_of run.report)) }
    ensures image { IfOk result (λ m. m.image ≡ run.image) }
{
    let WholeRun { report, image } = run;
    Ok(MadeRun {
        report: write_report(alloc, &report)?,
        image,
    })
}
