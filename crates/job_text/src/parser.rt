// Jobs from the bytes of their texts.
ghost use Rattle.std.specs.Prelude.{◌≡◌, ◌<◌, length, IfOk, IfErr};
ghost use Rattle.job_text.specs.declared.limits.TheConstants.{READ_BYTES};
ghost use Rattle.job_text.specs.Grammar.{IsJob};
ghost use Rattle.job_text.specs.JobText.{job_text};
ghost use Rattle.job_text.specs.Refused.{IsRefusal};

use crate::draft::Draft;
use crate::job::Job;
use crate::job_refusal::JobRefusal;
use crate::lines::{next_head, next_line};
use std::alloc::Global;

/// The job that a text spells. Where the text has more bytes than a job's, what is
/// said of them is said of each longer text too.
pub fn parse_job(alloc: Global, text: &[u8]) -> Result<Job, JobRefusal>
    ensures spelled { IfOk result
        (λ j. IsJob j × (text.now ≡ job_text j) × (length text.now < READ_BYTES)) }
    ensures refused { IfErr result (λ e. IsRefusal text.now e) }
{
    let (head, mut rest) = match next_head(text) {
        Ok(begun) => begun,
        Err(fault) => return Err(JobRefusal::Text { line: 1, fault }),
    };
    let mut draft = Draft::new(alloc, head);
    while !rest.is_empty() {
        let place = draft.count();
        let (line, after) = match next_line(rest, place) {
            Ok(begun) => begun,
            Err(fault) => {
                return Err(JobRefusal::Text {
                    line: place + 1,
                    fault,
                });
            }
        };
        draft = match draft.with(line) {
            Ok(longer) => longer,
            Err(refusal) => return Err(refusal),
        };
        rest = after;
    }
    Ok(draft.into_job())
}
