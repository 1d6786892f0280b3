// The first line of a schedule.
ghost use Rattle.std.specs.Prelude.{◌≡◌, ◌≢◌, ℕ, map, MatchOption};
ghost use Rattle.mont_base.specs.Layout.{Shape};
ghost use Rattle.job_text.specs.Lines.{spaced};
ghost use Rattle.replay.specs.Schedules.{title_words, title_tail, IsTitle};

use job_text::{MOST_CALLERS, MOST_WORDS, layout, number_within, words};
use mont_base::Layout;

/// The layout and the number of callers that a schedule's first line names.
pub fn read_title(line: &[u8]) -> Option<(Layout, u64)>
    ensures { MatchOption result
        ((s : Shape) (n : ℕ) → IsTitle s n → line.now ≢ spaced (title_words s n))
        (λ p. IsTitle p.0 p.1 × (line.now ≡ spaced (title_words p.0 p.1))) }
{
    let words = words::<MOST_WORDS>(line.strip_prefix(b"montage-schedule 1 ")?)?;
    title_in(words.as_slice())
}

// What the words after the first two name.
fn title_in(words: &[&[u8]]) -> Option<(Layout, u64)>
    ensures { MatchOption result
        ((s : Shape) (n : ℕ) → IsTitle s n → map (λ word. word.now) words.now ≢ title_tail s n)
        (λ p. IsTitle p.0 p.1 × (map (λ word. word.now) words.now ≡ title_tail p.0 p.1)) }
{
    match words {
        [kinds, slots, callers] => Some((
            layout(kinds, slots)?,
            number_within(callers, 1, MOST_CALLERS)?,
        )),
        _ => None,
    }
}
