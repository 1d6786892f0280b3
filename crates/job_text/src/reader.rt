// Jobs from sources.
ghost use Rattle.std.specs.Prelude.{◌≡◌, ℕ, Some, Err, IfOk, IfErr, IfSome, MatchResult};
ghost use Rattle.job_text.specs.declared.job.Job.{Job};
ghost use Rattle.job_text.specs.declared.job.JobFault.{JobFault};
ghost use Rattle.job_text.specs.Grammar.{IsJob};
ghost use Rattle.job_text.specs.JobText.{IsFirstRefused, job_text};
ghost use Rattle.job_text.specs.Refused.{IsOutside};
ghost use Rattle.job_text.specs.Taken.{HasLostSome, TakesBytes, IsTaken, TellsFaults};

use crate::job::Job;
use crate::job_refusal::JobRefusal;
use crate::limits::READ_BYTES;
use crate::parser::parse_job;
use mont_base::Source;
use std::alloc::Global;

/// How many bytes are asked of a source at once.
const CHUNK: usize = 4096;

/// What a source has left, or the first bytes of it where it has more than any job's text.
fn read_text<S: Source>(alloc: Global, source: &mut S) -> Result<Vec<u8>, JobRefusal>
    ensures bytes { IfOk result
        (λ bytes. TakesBytes (S.left source.old) (S.left source.new) bytes.items) }
    ensures few { HasLostSome (S.left source.old) (S.left source.new) }
    ensures outside { IfErr result IsOutside }
    ensures cause { TellsFaults (S.faults source.old) (S.faults source.new) result }
{
    let mut bytes = Vec::new(alloc);
    let mut chunk = [0; CHUNK];
    while bytes.len() < READ_BYTES {
        let room = CHUNK.min(READ_BYTES - bytes.len());
        let count = source.read(&mut chunk[..room])?;
        if count == 0 {
            return Ok(bytes);
        }
        bytes.extend_from_slice(&chunk[..count])?;
    }
    Ok(bytes)
}

/// Reads a job to the end of the source, or 32,200,001 bytes, and then decides. A fault of reading
/// refuses before any fault of the text.
pub fn read_job<S: Source>(alloc: Global, source: &mut S) -> Result<Job, JobRefusal>
    ensures spelled { IfOk result
        (λ j. IsJob j × IfSome (S.left source.old) (λ text. text ≡ job_text j)) }
    ensures refused { (line : ℕ) (fault : JobFault) → result ≡ Err (JobRefusal.Text line fault)
        → IfSome (S.left source.old) (λ text. IsFirstRefused text line fault) }

    // A job's text gives the job, unless the source fails or memory runs out.
    ensures accepted { (j : Job) → IsJob j → S.left source.old ≡ Some (job_text j)
        → MatchResult result (λ r. r ≡ j) IsOutside }

    // What was taken of the source, and how often it failed.
    ensures taken { IsTaken (S.left source.old) (S.left source.new) result }
    ensures cause { TellsFaults (S.faults source.old) (S.faults source.new) result }
{
    let text = read_text(alloc, source)?;
    parse_job(alloc, text.as_slice())
}
