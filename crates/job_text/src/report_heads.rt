// The lines of a report that stand before others: its header, its clocks, and its counts.
ghost use Rattle.std.specs.Prelude.{◌≡◌, ◌≢◌, ◌<◌, ◌^◌, ◌∷◌, [], ℕ, List, map, IsTrue, MatchOption, codes};
ghost use Rattle.mont_base.specs.Layout.{Shape};
ghost use Rattle.job_text.specs.Operations.{IsNumber};
ghost use Rattle.job_text.specs.ReportRanges.{IsVertex};
ghost use Rattle.job_text.specs.ReportRows.{Tells, line_of_row, IsTitle, title_words, clock_words, count_words, graph_counts, end_words};

use crate::header::{layout, number_within};
use crate::limits::MOST_CALLERS;
use crate::report_refusal::ReportRefusal;
use crate::unread::Unread;
use crate::words_behind::{behind, named};
use mont_base::{Epoch, Layout};

/// The layout and the callers that a report's first line names.
pub fn next_title(lines: &mut Unread<'_>) -> Result<(Layout, u64), ReportRefusal>
    ensures { Tells IsTitle (line_of_row title_words) lines.old lines.new result }
{
    let words = lines.words()?;
    match title_of(words.as_slice()) {
        Some(title) => Ok(title),
        None => Err(lines.refused()),
    }
}

fn title_of(words: &[&[u8]]) -> Option<(Layout, u64)>
    ensures { MatchOption result
        ((p : Shape × ℕ) → IsTitle p → map (λ word. word.now) words.now ≢ title_words p)
        (λ p. IsTitle p × (map (λ word. word.now) words.now ≡ title_words p)) }
{
    let words = behind(words, b"montage-report")?;
    match behind(words, b"3")? {
        [kinds, slots, callers] => {
            let layout = layout(kinds, slots)?;
            let callers = number_within(callers, 1, MOST_CALLERS)?;
            Some((layout, callers))
        }
        _ => None,
    }
}

/// The clock after a word.
pub fn next_clock(lines: &mut Unread<'_>, word: &[u8]) -> Result<Epoch, ReportRefusal>
    ensures { Tells IsNumber (line_of_row (clock_words word.now)) lines.old lines.new result }
{
    let words = lines.words()?;
    match clock_of(words.as_slice(), word) {
        Some(clock) => Ok(clock),
        None => Err(lines.refused()),
    }
}

fn clock_of(words: &[&[u8]], word: &[u8]) -> Option<Epoch>
    ensures { MatchOption result
        ((n : ℕ) → IsNumber n → map (λ word. word.now) words.now ≢ clock_words word.now n)
        (λ n. IsNumber n × (map (λ word. word.now) words.now ≡ clock_words word.now n)) }
{
    let [clock] = named::<1>(words, word)?;
    Some(clock)
}

/// The count after a word and the number of a unit or a caller.
pub fn next_count(lines: &mut Unread<'_>, word: &[u8], place: u64) -> Result<u64, ReportRefusal>
    ensures { Tells IsNumber (line_of_row (count_words word.now place)) lines.old lines.new result }
{
    let words = lines.words()?;
    match count_of(words.as_slice(), word, place) {
        Some(count) => Ok(count),
        None => Err(lines.refused()),
    }
}

fn count_of(words: &[&[u8]], word: &[u8], place: u64) -> Option<u64>
    ensures { MatchOption result
        ((n : ℕ) → IsNumber n → map (λ word. word.now) words.now ≢ count_words word.now place n)
        (λ n. IsNumber n × (map (λ word. word.now) words.now ≡ count_words word.now place n)) }
{
    let [own, count] = named::<2>(words, word)?;
    if own == place { Some(count) } else { None }
}

/// How many vertices and how many edges a graph unit has.
pub fn next_graph_counts(lines: &mut Unread<'_>, unit: u64) -> Result<(u64, u64), ReportRefusal>
    ensures { Tells IsVertex (line_of_row (graph_counts unit)) lines.old lines.new result }
{
    let words = lines.words()?;
    match graph_counts_of(words.as_slice(), unit) {
        Some(counts) => Ok(counts),
        None => Err(lines.refused()),
    }
}

fn graph_counts_of(words: &[&[u8]], unit: u64) -> Option<(u64, u64)>
    ensures { MatchOption result
        ((p : ℕ × ℕ) → IsVertex p → map (λ word. word.now) words.now ≢ graph_counts unit p)
        (λ p. IsVertex p × (map (λ word. word.now) words.now ≡ graph_counts unit p)) }
{
    let [own, vertices, edges] = named::<3>(words, b"graph")?;
    if own == unit {
        Some((vertices, edges))
    } else {
        None
    }
}

/// The last line of a report.
pub fn next_end(lines: &mut Unread<'_>) -> Result<(), ReportRefusal>
    ensures { Tells (λ _. Unit {0}) (line_of_row end_words) lines.old lines.new result }
{
    let words = lines.words()?;
    match named::<0>(words.as_slice(), b"end") {
        Some(_) => Ok(()),
        None => Err(lines.refused()),
    }
}
