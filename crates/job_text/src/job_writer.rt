// The texts of jobs.
ghost use Rattle.std.specs.Prelude.{◌≡◌, IfOk};
ghost use Rattle.job_text.specs.Grammar.{IsJob};
ghost use Rattle.job_text.specs.JobText.{job_text};

use crate::header::{Head, write_job_header};
use crate::job::Job;
use std::alloc::{AllocError, Global};

/// The one text of a job.
pub fn write_job(alloc: Global, job: &Job) -> Result<Vec<u8>, AllocError>
    requires { IsJob job.now }
    ensures { IfOk result (λ bytes. bytes.items ≡ job_text job.now) }
{
    let mut text = String::new(alloc);
    let head = Head {
        layout: job.layout,
        callers: job.callers,
        attempts: job.attempts,
        mask: job.mask,
    };
    write_job_header(&mut text, &head)?;
    for stop in job.stops.as_slice() {
        writeln!(text, "{stop}")?;
    }
    for line in job.lines.as_slice() {
        writeln!(text, "{line}")?;
    }
    Ok(text.into_bytes())
}
