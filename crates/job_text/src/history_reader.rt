// The histories of a report's units, and the outcomes of its callers.
ghost use Rattle.std.specs.Prelude.{◌≤◌, MatchResult};
ghost use Rattle.job_text.specs.declared.outcome.Outcome.{Outcome};
ghost use Rattle.job_text.specs.ReportText.{history_lines, histories_lines, caller_lines, outcomes_lines};
ghost use Rattle.job_text.specs.Runs.{HasRuns, HaveRuns, spelled, spelled_all};
ghost use Rattle.job_text.specs.ReportRanges.{IsSpelled, AreCounted, AreOutcomes};
ghost use Rattle.job_text.specs.ReportRows.{Tells, AllOf};
ghost use Rattle.job_text.specs.Readings.{Reads, Refuses};

use crate::entry_reader::next_entries;
use crate::outcome::Outcome;
use crate::outcome_reader::next_outcomes;
use crate::report::Run;
use crate::report_heads::next_count;
use crate::report_refusal::ReportRefusal;
use crate::unread::Unread;
use mont_base::{Entry, Sequence};
use std::alloc::Global;

/// The histories of so many units, and the runs of their ranges.
pub fn next_histories(
    alloc: Global,
    lines: &mut Unread<'_>,
    callers: u64,
    units: u64,
) -> Result<(Sequence<Sequence<Entry>>, Sequence<Sequence<Run>>), ReportRefusal>
    requires { 1 ≤ callers }
    ensures { MatchResult result
        (λ p. HaveRuns p.0 p.1
        × Reads (AllOf (λ unit h. AreCounted (IsSpelled callers) h) units) histories_lines
        lines.old lines.new (spelled_all p.0 p.1))
        (λ e. Refuses (AllOf (λ unit h. AreCounted (IsSpelled callers) h) units) histories_lines
        lines.old e) }
{
    let mut histories = Sequence::new(alloc);
    let mut runs = Sequence::new(alloc);
    for unit in 0..units {
        let (history, own) = next_history(alloc, lines, callers, unit)?;
        histories.push(history)?;
        runs.push(own)?;
    }
    Ok((histories, runs))
}

fn next_history(
    alloc: Global,
    lines: &mut Unread<'_>,
    callers: u64,
    unit: u64,
) -> Result<(Sequence<Entry>, Sequence<Run>), ReportRefusal>
    requires { 1 ≤ callers }
    ensures { MatchResult result
        (λ p. HasRuns p.0 p.1 × Reads (AreCounted (IsSpelled callers)) (history_lines unit)
        lines.old lines.new (spelled p.0 p.1))
        (λ e. Refuses (AreCounted (IsSpelled callers)) (history_lines unit) lines.old e) }
{
    let count = next_count(lines, b"unit", unit)?;
    next_entries(alloc, lines, callers, count)
}

/// The outcomes of each caller.
pub fn next_callers(
    alloc: Global,
    lines: &mut Unread<'_>,
    units: u64,
    callers: u64,
) -> Result<Sequence<Sequence<Outcome>>, ReportRefusal>
    ensures { Tells (AllOf (λ caller os. AreOutcomes units callers os) callers) outcomes_lines
        lines.old lines.new result }
{
    let mut outcomes = Sequence::new(alloc);
    for caller in 0..callers {
        let of_caller = next_caller(alloc, lines, units, callers, caller)?;
        outcomes.push(of_caller)?;
    }
    Ok(outcomes)
}

fn next_caller(
    alloc: Global,
    lines: &mut Unread<'_>,
    units: u64,
    callers: u64,
    caller: u64,
) -> Result<Sequence<Outcome>, ReportRefusal>
    ensures { Tells (AreOutcomes units callers) (caller_lines caller)
        lines.old lines.new result }
{
    let count = next_count(lines, b"caller", caller)?;
    next_outcomes(alloc, lines, units, callers, count)
}
