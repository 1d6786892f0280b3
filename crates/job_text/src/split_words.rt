// Lines as words.
ghost use Rattle.std.specs.Prelude.{◌≡◌, ◌<◌, length, map, MatchOption};
ghost use Rattle.job_text.specs.LineWords.{words_of};

use crate::split::split_once;
use arrayvec::ArrayVec;

/// No line of a report has more words.
pub const MOST_WORDS: usize = 44;

/// No line of a job has more words, but for the first two of its header.
pub const JOB_WORDS: usize = 6;

/// The words of a line, unless they are more than so many.
pub fn words<const MOST: usize>(line: &[u8]) -> Option<ArrayVec<&[u8], MOST>>
    ensures { MatchOption result (MOST < length (words_of line.now))
        (λ words. map (λ word. word.now) words.items ≡ words_of line.now) }
{
    let mut words = ArrayVec::new();
    let mut rest = line;
    while let Some((word, after)) = split_once(rest, b' ') {
        words.try_push(word).ok()?;
        rest = after;
    }
    words.try_push(rest).ok()?;
    Some(words)
}
