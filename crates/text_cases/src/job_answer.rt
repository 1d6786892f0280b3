// What is told of the text of a job.
ghost use Rattle.std.specs.Prelude.{◌<◌};

use crate::job_outcome::outcome_of;
use case_file::{Case, Unanswered, numbers_in};
use job_text::READ_BYTES;
use std::alloc::Global;

/// A line on what comes of the text of the part `job`, whose source gives it in pieces of several
/// sizes or of those of the part `pieces`, and fails in the calls of the part `failing calls`.
pub fn answer_job(alloc: Global, case: &Case) -> Result<Vec<u8>, Unanswered> {
    let text = case.needed("job")?;
    let pieces = match case.part("pieces") {
        Some(words) => numbers_in(alloc, "pieces", words)?,
        None => vec![in alloc; 1, 7, READ_BYTES as u64]?,
    };
    let failing = match case.part("failing calls") {
        Some(words) => numbers_in(alloc, "failing calls", words)?,
        None => Vec::new(alloc),
    };
    told_of(alloc, text, pieces.as_slice(), failing.as_slice())
}

// What comes of the text in pieces of each size, which is told once where it stays the same.
fn told_of(
    alloc: Global,
    text: &[u8],
    pieces: &[u64],
    failing: &[u64],
) -> Result<Vec<u8>, Unanswered> {
    let mut answer = String::new(alloc);
    let mut told = None;
    for piece in pieces {
        let piece = *piece;
        if piece == 0 {
            return Err(Unanswered::Unclear { head: "pieces" });
        }
        let outcome = outcome_of(alloc, text, piece, failing)?;
        if told != Some(outcome) {
            if told.is_some() {
                write!(answer, ", but in pieces of {piece} ")?;
            }
            write!(answer, "{outcome}")?;
            told = Some(outcome);
        }
    }
    writeln!(answer)?;
    Ok(answer.into_bytes())
}
