// Reports from the bytes of their texts.
ghost use Rattle.std.specs.Prelude.{◌≡◌, ℕ, IfOk, MatchResult, Err};
ghost use Rattle.mont_base.specs.State.{State};
ghost use Rattle.plain.specs.States.{states_of};
ghost use Rattle.job_text.specs.declared.report_refusal.ReportRefusal.TheVariants.{Text, Memory};
ghost use Rattle.job_text.specs.Report as plainly;
ghost use Rattle.job_text.specs.Readings.{Reads, Refuses};
ghost use Rattle.job_text.specs.ReportText.{report_lines, report_text};
ghost use Rattle.job_text.specs.ReportRanges.{IsReport, IsFirstWrong};
ghost use Rattle.job_text.specs.ReportRows.{IsStart, start_rows};
ghost use Rattle.job_text.specs.PlainReport.{report_of};

use crate::contents_reader::next_units;
use crate::history_reader::{next_callers, next_histories};
use crate::report::Report;
use crate::report_heads::{next_clock, next_end, next_title};
use crate::report_refusal::ReportRefusal;
use crate::unread::Unread;
use mont_base::{Epoch, Layout};
use plain::Contents;
use std::alloc::Global;

/// The report that a text spells. However much the text announces, no more memory is taken than
/// goes with its bytes.
pub fn read_report(alloc: Global, bytes: &[u8]) -> Result<Report, ReportRefusal>
    ensures spelled { IfOk result
        (λ r. IsReport (report_of r) × (bytes.now ≡ report_text (report_of r))) }
    ensures refused { (line : ℕ) → result ≡ Err (Text line) → IsFirstWrong bytes.now line }

    // A report's text gives the report, unless memory runs out.
    ensures accepted { (r : plainly.Report) → IsReport r → bytes.now ≡ report_text r
        → MatchResult result (λ got. report_of got ≡ r) (λ e. e ≡ Memory) }
{
    let mut lines = Unread::of(bytes);
    let report = next_report(alloc, &mut lines)?;
    lines.finish()?;
    Ok(report)
}

fn next_report(alloc: Global, lines: &mut Unread<'_>) -> Result<Report, ReportRefusal>
    ensures { MatchResult result
        (λ r. Reads IsReport report_lines lines.old lines.new (report_of r))
        (λ e. Refuses IsReport report_lines lines.old e) }
{
    let (layout, callers) = next_title(lines)?;
    let units = layout.units();
    let (base_clock, base) = next_contents(alloc, lines, b"base", &layout)?;
    let (histories, runs) = next_histories(alloc, lines, callers, units)?;
    let outcomes = next_callers(alloc, lines, units, callers)?;
    let (image_clock, contents) = next_contents(alloc, lines, b"image", &layout)?;
    next_end(lines)?;
    Ok(Report {
        layout,
        callers,
        base_clock,
        base,
        histories,
        runs,
        outcomes,
        image_clock,
        contents,
    })
}

// The clock after a word, and the contents then.
fn next_contents(
    alloc: Global,
    lines: &mut Unread<'_>,
    word: &[u8],
    layout: &Layout,
) -> Result<(Epoch, Contents), ReportRefusal>
    ensures { MatchResult result
        (λ p. Reads (IsStart layout.now.kinds) (start_rows layout.now.kinds word.now)
        lines.old lines.new (p.0, states_of p.1))
        (λ e. Refuses (IsStart layout.now.kinds) (start_rows layout.now.kinds word.now)
        lines.old e) }
{
    let clock = next_clock(lines, word)?;
    let contents = next_units(alloc, lines, layout)?;
    Ok((clock, contents))
}
