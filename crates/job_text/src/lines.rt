// The lines of a job's text.
ghost use Rattle.std.specs.Prelude.{MatchResult};
ghost use Rattle.job_text.specs.Refused.{BeginsWith, IsNoLine, BeginsWithHead, IsNoHead};

use crate::header::{Head, read_head};
use crate::job::JobFault;
use crate::limits::{LINE_BYTES, MOST_LINES};
use crate::split::split_once;

/// The first line of a text, and what follows its line feed. The line's place is counted from 0.
pub fn next_line(text: &[u8], place: u64) -> Result<(&[u8], &[u8]), JobFault>
    ensures { MatchResult result (λ p. BeginsWith text.now place p.0.now p.1.now)
        (λ fault. IsNoLine text.now place fault) }
{
    if place >= MOST_LINES {
        return Err(JobFault::Many);
    }
    let Some((line, after)) = split_once(text, b'\n') else {
        if text.len() > LINE_BYTES {
            return Err(JobFault::Long);
        }
        return Err(JobFault::Unended);
    };
    if line.len() > LINE_BYTES {
        return Err(JobFault::Long);
    }
    Ok((line, after))
}

/// What the first line of a text names, and what follows that line.
pub fn next_head(text: &[u8]) -> Result<(Head, &[u8]), JobFault>
    ensures { MatchResult result (λ p. BeginsWithHead text.now p.0 p.1.now)
        (λ fault. IsNoHead text.now fault) }
{
    let (line, after) = next_line(text, 0)?;
    match read_head(line) {
        Some(head) => Ok((head, after)),
        None => Err(JobFault::Header),
    }
}
