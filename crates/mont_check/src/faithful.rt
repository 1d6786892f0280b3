// Whether a report is faithful to its job.
ghost use Rattle.std.specs.Prelude.{◌≡◌, ◌↔◌, ℕ, IsTrue, IfOk, slice_get, Some};
ghost use Rattle.job_text.specs.Faithful.{IsFaithful, IsOfJob, HasClocks, IsWhole, HasFrame, LegalAt, CutAt};
ghost use Rattle.plain.specs.States.{state_of, states_of};
ghost use Rattle.job_text.specs.PlainReport.{report_of};

use crate::answered::are_answered;
use crate::judged_runs::are_run;
use crate::named_entries::are_named_once;
use crate::walk::copied;
use job_text::{Job, Report};
use mont_base::{Entry, Epoch, Held, LAST, Layout, Sequence, Unit};
use plain::{Contents, UnitState, cut_at, is_legal, same_state, state_after};
use std::alloc::{AllocError, Global};

/// Whether a report is faithful to a job that was run on a store which was opened at this clock,
/// with these contents and, unit by unit, these records. A fresh store has none. It takes n log n
/// steps, where n is the lines and entries of the report, and besides, for each call that was
/// refused as full or at the end of a number, or was left in the sync after a refusal, a step for
/// each point of its unit's history from the first that the call may have been made at, and at
/// which there was as little room as the refusal tells of, to the first at which its cause held.
pub fn is_faithful(
    alloc: Global,
    job: &Job,
    clock: Epoch,
    base: &Contents,
    records: &[Sequence<Held>],
    report: &Report,
) -> Result<bool, AllocError>
    ensures { IfOk result (λ b. IsTrue b
        ↔ IsFaithful job.now clock (states_of base.now) records.now (report_of report.now)) }
{
    if !has_frame(job, clock, report) {
        return Ok(false);
    }
    if !same_contents(&report.base, base) {
        return Ok(false);
    }
    if !are_named_once(alloc, report)? {
        return Ok(false);
    }
    if !are_legal(&job.layout, clock, base, &report.histories)? {
        return Ok(false);
    }
    if !are_run(base, report)? {
        return Ok(false);
    }
    if !are_answered(alloc, job, records, report)? {
        return Ok(false);
    }
    are_cut(alloc, base, report)
}

// Whether the report is of the job, is whole, and has its clocks in order.
fn has_frame(job: &Job, clock: Epoch, report: &Report) -> bool
    ensures { IsTrue result ↔ HasFrame job.now clock (report_of report.now) }
{
    is_of_job(job, report) && has_clocks(clock, report) && is_whole(job, report)
}

// Whether the report is of the job's layout and callers.
fn is_of_job(job: &Job, report: &Report) -> bool
    ensures { IsTrue result ↔ IsOfJob job.now (report_of report.now) }
{
    report.layout == job.layout && report.callers == job.callers
}

// Whether the clocks are in order, and the run began at this one.
fn has_clocks(clock: Epoch, report: &Report) -> bool
    ensures { IsTrue result ↔ HasClocks clock (report_of report.now) }
{
    report.base_clock == clock && clock <= report.image_clock && report.image_clock <= LAST
}

// Whether there is something of each unit and each caller.
fn is_whole(job: &Job, report: &Report) -> bool
    ensures { IsTrue result ↔ IsWhole job.now (report_of report.now) }
{
    let units = job.layout.units();
    report.base.units.len() == units
        && report.histories.len() == units
        && report.runs.len() == units
        && report.outcomes.len() == job.callers
        && report.contents.units.len() == units
}

// Whether both have the same states.
fn same_contents(a: &Contents, b: &Contents) -> bool
    ensures { IsTrue result ↔ (states_of a.now ≡ states_of b.now) }
{
    let ours = a.units.as_slice();
    let theirs = b.units.as_slice();
    if ours.len() != theirs.len() {
        return false;
    }
    for unit in 0..ours.len() {
        if !same_state(&ours[unit], &theirs[unit]) {
            return false;
        }
    }
    true
}

// Whether the history of each unit is legal.
fn are_legal(
    layout: &Layout,
    clock: Epoch,
    base: &Contents,
    histories: &Sequence<Sequence<Entry>>,
) -> Result<bool, AllocError>
    ensures { IfOk result (λ b. IsTrue b
        ↔ ((unit : ℕ) → LegalAt layout.now clock (states_of base.now) histories.now unit)) }
{
    for unit in 0..histories.len() {
        if !is_legal_at(layout, clock, base, histories, unit)? {
            return Ok(false);
        }
    }
    Ok(true)
}

fn is_legal_at(
    layout: &Layout,
    clock: Epoch,
    base: &Contents,
    histories: &Sequence<Sequence<Entry>>,
    unit: Unit,
) -> Result<bool, AllocError>
    ensures { IfOk result (λ b. IsTrue b
        ↔ LegalAt layout.now clock (states_of base.now) histories.now unit) }
{
    let Some(state) = base.units.get(unit) else {
        return Ok(true);
    };
    let Some(history) = histories.get(unit) else {
        return Ok(true);
    };
    is_legal(*layout, unit, copied(state)?, clock, history.as_slice())
}

// Whether the contents of each unit are what its cut history leads to.
fn are_cut(alloc: Global, base: &Contents, report: &Report) -> Result<bool, AllocError>
    ensures { IfOk result (λ b. IsTrue b
        ↔ ((unit : ℕ) → CutAt (report_of report.now) (states_of base.now) unit)) }
{
    for unit in 0..report.histories.len() {
        if !is_cut_at(alloc, base, report, unit)? {
            return Ok(false);
        }
    }
    Ok(true)
}

fn is_cut_at(
    alloc: Global,
    base: &Contents,
    report: &Report,
    unit: Unit,
) -> Result<bool, AllocError>
    ensures { IfOk result (λ b. IsTrue b
        ↔ CutAt (report_of report.now) (states_of base.now) unit) }
{
    let Some(state) = base.units.get(unit) else {
        return Ok(true);
    };
    let Some(history) = report.histories.get(unit) else {
        return Ok(true);
    };
    let last = report.image_clock.saturating_sub(2);
    let kept = cut_at(alloc, last, history.as_slice())?;
    let after = state_after(copied(state)?, kept.as_slice())?;
    Ok(holds_state(&report.contents, unit, &after))
}

// Whether a unit has this state.
fn holds_state(contents: &Contents, unit: Unit, state: &UnitState) -> bool
    ensures { IsTrue result
        ↔ (slice_get (states_of contents.now) unit ≡ Some (state_of state.now)) }
{
    match contents.units.get(unit) {
        Some(found) => same_state(found, state),
        None => false,
    }
}
