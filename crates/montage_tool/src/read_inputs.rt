// What is read of the sources: a job, a report or a schedule, and an image.
ghost use Rattle.std.specs.Prelude.{◌+◌, IfOk, IfErr, OnOk};
ghost use Rattle.std.specs.Io.KnownBytes.{IsAtEnd};
ghost use Rattle.mont_image.specs.ImageReader.{parts_of};
ghost use Rattle.montage_tool.specs.Devices.{IsRead, ended_as, source_seen};
ghost use Rattle.montage_tool.specs.Inputs.{IsImageOf, IsJobOf};
ghost use Rattle.job_text.specs.PlainReport.{report_of};
ghost use Rattle.montage_tool.specs.Judged.{IsReportOf, IsScheduleOf, RefusesBytes, RefusesReport, RefusesSchedule};
ghost use Rattle.montage_tool.specs.Service.{RefusesImage, RefusesJob};

use crate::status::{SourceName, Status};
use job_text::{Job, READ_BYTES, Report, read_job, read_report};
use mont_base::Source;
use mont_image::{IMAGE_BYTES, Image, read_image};
use replay::{SCHEDULE_BYTES, Schedule, read_schedule};
use source_bytes::read_at_most;
use std::alloc::Global;

/// A report that is held against an image has at most so many bytes.
pub(crate) const REPORT_BYTES: usize = 134_217_728;

const _: () = prove!(REPORT_BYTES == 134_217_728);

// Reads a job.
pub(crate) fn job_of<J: Source>(alloc: Global, job: &mut J) -> Result<Job, Status>
    ensures read { IfOk result (IsJobOf (J.left job.old)) }
    ensures refused { IfErr result (RefusesJob (J.left job.old)) }
    ensures source { IsRead READ_BYTES SourceName.Job (source_seen J.Source job.old)
        (source_seen J.Source job.new) (ended_as result) }
    ensures whole { OnOk result (IsAtEnd (J.left job.new)) }
{
    Ok(read_job(alloc, job)?)
}

// Reads an image.
pub(crate) fn image_of<I: Source>(alloc: Global, image: &mut I) -> Result<Image, Status>
    ensures read { IfOk result (λ found. IsImageOf (I.left image.old) (parts_of found)) }
    ensures refused { IfErr result (RefusesImage (I.left image.old)) }
    ensures bytes { IfErr result (RefusesBytes (I.left image.old)) }
    ensures source { IsRead (IMAGE_BYTES + 1) SourceName.Image (source_seen I.Source image.old)
        (source_seen I.Source image.new) (ended_as result) }
{
    Ok(read_image(alloc, image)?)
}

// Reads a report.
pub(crate) fn told_report<J: Source>(alloc: Global, job: &mut J) -> Result<Report, Status>
    ensures read { IfOk result (λ report. IsReportOf (J.left job.old) (report_of report)) }
    ensures refused { IfErr result (RefusesReport (J.left job.old)) }
    ensures source { IsRead (REPORT_BYTES + 1) SourceName.Job (source_seen J.Source job.old)
        (source_seen J.Source job.new) (ended_as result) }
    ensures whole { OnOk result (IsAtEnd (J.left job.new)) }
{
    let bytes = read_at_most(alloc, job, REPORT_BYTES + 1)?;
    if bytes.len() > REPORT_BYTES {
        return Err(Status::BadReport { line: 0 });
    }
    Ok(read_report(alloc, &bytes)?)
}

// Reads a schedule.
pub(crate) fn schedule_of<J: Source>(alloc: Global, job: &mut J) -> Result<Schedule, Status>
    ensures read { IfOk result (IsScheduleOf (J.left job.old)) }
    ensures refused { IfErr result (RefusesSchedule (J.left job.old)) }
    ensures source { IsRead SCHEDULE_BYTES SourceName.Job (source_seen J.Source job.old)
        (source_seen J.Source job.new) (ended_as result) }
    ensures whole { OnOk result (IsAtEnd (J.left job.new)) }
{
    Ok(read_schedule(alloc, job)?)
}
