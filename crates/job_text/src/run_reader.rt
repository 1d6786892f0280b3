// Runs from the words that spell their pairs.
ghost use Rattle.std.specs.Prelude.{◌≡◌, ◌≢◌, ◌≤◌, length, map, MatchOption};
ghost use Rattle.mont_base.specs.declared.constants.TheConstants.{MOST_PAIRS};
ghost use Rattle.mont_base.specs.State.{Run};
ghost use Rattle.job_text.specs.Spelling.{run_words};
ghost use Rattle.job_text.specs.ReportRanges.{IsPair};
ghost use Rattle.job_text.specs.TextParts.{AllFrom};

use crate::text_word::text;
use mont_base::{MOST_PAIRS, PairList};

/// The pairs of which words spell the keys and the values, each key before its value. They are 16
/// at most.
pub fn read_run(words: &[&[u8]]) -> Option<PairList>
    ensures { MatchOption result
        ((run : Run) → AllFrom (λ place p. IsPair p) 0 run → length run ≤ MOST_PAIRS
        → map (λ word. word.now) words.now ≢ run_words run)
        (λ run. AllFrom (λ place p. IsPair p) 0 run × (length run ≤ MOST_PAIRS)
        × (map (λ word. word.now) words.now ≡ run_words run)) }
{
    let mut run = PairList::empty();
    let mut rest = words;
    while let [key, value, after @ ..] = rest {
        if run.len() == MOST_PAIRS as u64 {
            return None;
        }
        let (key, value) = (text(key)?, text(value)?);
        run.push(key, value);
        rest = after;
    }
    if rest.is_empty() { Some(run) } else { None }
}
