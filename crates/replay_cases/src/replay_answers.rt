// What comes of a case on a schedule.
use crate::drawn_replays::drawn_answer;
use crate::replay_outcome::ReplayOutcome;
use case_file::{Case, Subject, Unanswered, numbers_in};
use std::alloc::Global;

/// Answers cases with a part `schedule`, and those on drawn schedules. Its source gives it in
/// pieces of the sizes of the part `pieces`, and fails in the calls of the part `failing calls`.
#[derive(Drop)]
pub struct ReplayCases {
    pub alloc: Global,
}

impl Subject for ReplayCases {
    fn answer(&self, case: &Case) -> Result<Vec<u8>, Unanswered> {
        match case.part("drawn") {
            Some(drawn) => drawn_answer(self.alloc, case, drawn),
            None => replayed(self.alloc, case),
        }
    }
}

fn replayed(alloc: Global, case: &Case) -> Result<Vec<u8>, Unanswered> {
    let text = case.needed("schedule")?;
    let pieces = numbers_in(alloc, "pieces", case.part("pieces").unwrap_or(b"7"))?;
    let failing = case.part("failing calls").unwrap_or(b"");
    let failing = numbers_in(alloc, "failing calls", failing)?;
    told_pieces(alloc, text, &pieces, &failing)
}

// What comes of a text for each size of pieces.
fn told_pieces(
    alloc: Global,
    text: &[u8],
    pieces: &[u64],
    failing: &[u64],
) -> Result<Vec<u8>, Unanswered> {
    let mut told = Vec::new(alloc);
    for piece in pieces {
        let piece = *piece;
        if piece == 0 {
            return Err(Unanswered::Unclear { head: "pieces" });
        }
        let outcome = ReplayOutcome::of(alloc, text, piece, failing)?;
        told.extend_from_slice(outcome.told(alloc)?.as_slice())?;
    }
    Ok(told)
}
