// A job is run on what an image holds.
ghost use Rattle.std.specs.Prelude.{map, IfOk, IfErr, OnOk};
ghost use Rattle.std.specs.FinMap as finite;
ghost use Rattle.job_text.specs.Grammar.{IsJob};
ghost use Rattle.mont_image.specs.ImageReader.{parts_of};
ghost use Rattle.job_store.specs.ResumedRun.{IsRunAfter, MayBeResumed, RefusesResume};

use crate::image_now::migrated_if_old;
use crate::recovered_run::run_recovered;
use crate::resume_refusal::ResumeRefusal;
use crate::whole_run::{WORKERS, WholeRun};
use index_kit::Index;
use job_text::Job;
use mont_image::Image;
use recover::recover;
use std::alloc::Global;
use std::sync::Wait;
use std::thread::Threads;

/// Recovers a store from an image, which is migrated first where it is of the first version, and
/// runs a job on it as `run_recovered` does. The image is looked through before its layout is
/// compared with the job's, and that before the boxes.
pub fn run_resumed<R: Threads + Wait + Sync, I: Index + Send>(
    rt: &R,
    alloc: Global,
    job: &Job,
    image: Image,
    indexes: Vec<I>,
) -> Result<WholeRun, ResumeRefusal>
    requires { IsJob job.now }
    ensures run { IfOk result (IsRunAfter job.now (parts_of image)) }
    ensures accepted { OnOk result (MayBeResumed job.now (parts_of image)
        (map (λ b. finite.len (I.places b)) indexes.items)) }
    ensures refused { IfErr result (RefusesResume job.now (parts_of image)
        (map (λ b. finite.len (I.places b)) indexes.items)) }
{
    let image = migrated_if_old(alloc, image)?;
    let recovered = recover(rt, alloc, &image, WORKERS, job.callers)?;
    if image.layout != job.layout {
        return Err(ResumeRefusal::OtherLayout {
            layout: image.layout,
        });
    }
    Ok(run_recovered(rt, alloc, job, recovered, indexes)?)
}
