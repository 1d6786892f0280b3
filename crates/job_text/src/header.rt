// The first lines of jobs and of reports.
ghost use Rattle.std.specs.Prelude.{◌≡◌, ◌≢◌, ◌++◌, ◌≤◌, ℕ, map, decimal, OnOk, MatchOption};
ghost use Rattle.std.specs.String.{string_bytes};
ghost use Rattle.mont_base.specs.Layout.{Shape, IsLayout, letters_of};
ghost use Rattle.job_text.specs.declared.header.Head.{Head};
ghost use Rattle.job_text.specs.Lines.{spaced, line_of};
ghost use Rattle.job_text.specs.Grammar.{IsHead};
ghost use Rattle.job_text.specs.JobText.{head_words, head_tail, head_front};
ghost use Rattle.job_text.specs.ReportText.{report_header_words};

use crate::limits::{MOST_ATTEMPTS, MOST_CALLERS};
use crate::masks::{mask, write_mask};
use crate::number_words::number;
use crate::spelling::Letters;
use crate::split_words::{JOB_WORDS, words};
use mont_base::{Kinds, Layout};
use std::alloc::AllocError;

/// What the first line of a job names.
#[derive(Clone, Copy, Debug, PartialEq, Eq)]
pub struct Head {
    pub layout: Layout,
    pub callers: u64,
    pub attempts: u64,
    pub mask: u64,
}

/// What a job's header names.
pub fn read_head(line: &[u8]) -> Option<Head>
    ensures { MatchOption result ((h : Head) → IsHead h → line.now ≢ spaced (head_words h))
        (λ h. IsHead h × (line.now ≡ spaced (head_words h))) }
{
    let words = words::<JOB_WORDS>(line.strip_prefix(b"montage-job 3 ")?)?;
    head_in(words.as_slice())
}

// What the words after the first two name.
fn head_in(words: &[&[u8]]) -> Option<Head>
    ensures { MatchOption result
        ((h : Head) → IsHead h → map (λ word. word.now) words.now ≢ head_tail h)
        (λ h. IsHead h × (map (λ word. word.now) words.now ≡ head_tail h)) }
{
    match words {
        [kinds, slots, callers, attempts, digits] => Some(Head {
            layout: layout(kinds, slots)?,
            callers: number_within(callers, 1, MOST_CALLERS)?,
            attempts: number_within(attempts, 0, MOST_ATTEMPTS)?,
            mask: mask(digits)?,
        }),
        _ => None,
    }
}

/// The layout that two words spell: the letters of the kinds, and the slots of a unit.
pub fn layout(kinds: &[u8], slots: &[u8]) -> Option<Layout>
    ensures { MatchOption result
        ((s : Shape) → IsLayout s → kinds.now ≡ letters_of s.kinds → slots.now ≢ decimal s.slots)
        (λ s. IsLayout s × (kinds.now ≡ letters_of s.kinds) × (slots.now ≡ decimal s.slots)) }
{
    let kinds = Kinds::of_letters(kinds).ok()?;
    Layout::new(kinds, number(slots)?).ok()
}

/// The number in a range that a word spells.
pub fn number_within(word: &[u8], least: u64, most: u64) -> Option<u64>
    ensures { MatchOption result ((n : ℕ) → least ≤ n → n ≤ most → word.now ≢ decimal n)
        (λ n. (least ≤ n) × (n ≤ most) × (word.now ≡ decimal n)) }
{
    let number = number(word)?;
    if least <= number && number <= most {
        Some(number)
    } else {
        None
    }
}

/// Writes the header of a job.
pub fn write_job_header(text: &mut String, head: &Head) -> Result<(), AllocError>
    ensures { OnOk result (string_bytes text.new
        ≡ string_bytes text.old ++ line_of (head_words head.now)) }
{
    write_head_front(text, head)?;
    write_mask(text, head.mask)?;
    text.push_str("\n")?;
    Ok(())
}

// Writes what stands before the mask.
fn write_head_front(text: &mut String, head: &Head) -> Result<(), AllocError>
    ensures { OnOk result (string_bytes text.new ≡ string_bytes text.old ++ head_front head.now) }
{
    let kinds = head.layout.kinds();
    let letters = Letters(kinds.as_slice());
    let slots = head.layout.slots();
    let Head {
        callers,
        attempts,
        ..
    } = head;
    write!(
        text,
        "montage-job 3 {letters} {slots} {callers} {attempts} "
    )?;
    Ok(())
}

/// Writes the header of a report.
pub fn write_report_header(
    text: &mut String,
    layout: &Layout,
    callers: u64,
) -> Result<(), AllocError>
    ensures { OnOk result (string_bytes text.new
        ≡ string_bytes text.old ++ line_of (report_header_words layout.now callers)) }
{
    let kinds = layout.kinds();
    let letters = Letters(kinds.as_slice());
    let slots = layout.slots();
    writeln!(text, "montage-report 3 {letters} {slots} {callers}")
}
