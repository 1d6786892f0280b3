// What is told of the history of a unit in a report.
ghost use Rattle.std.specs.Prelude.{◌≡◌, ◌↔◌, IsTrue, IfOk, slice_get, Some};
ghost use Rattle.job_text.specs.Faithful.{LegalAt};
ghost use Rattle.job_text.specs.PlainReport.{report_of};
ghost use Rattle.job_text.specs.ReportText.{report_text};
ghost use Rattle.plain.specs.States.{state_of, states_of};
ghost use Rattle.unit_cases.specs.Told.{UsedAt, IsCutTold};

use case_file::Unanswered;
use job_text::{Report, ReportRefusal, read_report};
use mont_base::{Epoch, Unit};
use plain::{UnitState, cut_at, is_legal, same_state, state_after, used_slots};
use std::alloc::{AllocError, Global};

/// The report that a text spells.
pub fn report_in(alloc: Global, text: &[u8]) -> Result<Report, Unanswered>
    ensures { IfOk result (λ r. text.now ≡ report_text (report_of r)) }
{
    match read_report(alloc, text) {
        Ok(report) => Ok(report),
        Err(ReportRefusal::Memory) => Err(Unanswered::Memory),
        Err(ReportRefusal::Text { .. }) => Err(Unanswered::Unclear { head: "report" }),
    }
}

/// Whether the history of a unit is legal from the state that the report begins with.
pub fn is_legal_at(report: &Report, unit: Unit) -> Result<bool, AllocError>
    ensures { IfOk result (λ b. IsTrue b ↔ LegalAt report.now.layout report.now.base_clock
        (states_of report.now.base) report.now.histories unit) }
{
    let Some(state) = report.base.units.get(unit) else {
        return Ok(true);
    };
    let Some(history) = report.histories.get(unit) else {
        return Ok(true);
    };
    let clock = report.base_clock;
    is_legal(
        report.layout,
        unit,
        copied(state)?,
        clock,
        history.as_slice(),
    )
}

/// How many slots of a unit are in use at a clock, after its whole history.
pub fn used_at(alloc: Global, report: &Report, unit: Unit, clock: Epoch) -> Result<u64, AllocError>
    ensures { IfOk result (UsedAt (report_of report.now) unit clock) }
{
    let Some(state) = report.base.units.get(unit) else {
        return Ok(0);
    };
    let Some(history) = report.histories.get(unit) else {
        return Ok(0);
    };
    used_slots(alloc, copied(state)?, history.as_slice(), clock)
}

/// What is told of the cut of a unit's history, two epochs below the clock of the image.
#[derive(Clone, Copy)]
pub struct CutTold {
    /// How many entries it has.
    pub entries: u64,
    /// Whether it leads to the contents that the report tells of the unit.
    pub same: bool,
}

/// The cut of a unit's history, and whether it leads to what the report tells.
pub fn cut_told(alloc: Global, report: &Report, unit: Unit) -> Result<CutTold, AllocError>
    ensures { IfOk result (IsCutTold (report_of report.now) unit) }
{
    let Some(history) = report.histories.get(unit) else {
        return Ok(CutTold {
            entries: 0,
            same: true,
        });
    };
    let last = report.image_clock.saturating_sub(2);
    let kept = cut_at(alloc, last, history.as_slice())?;
    let entries = kept.len() as u64;
    let Some(state) = report.base.units.get(unit) else {
        return Ok(CutTold {
            entries,
            same: true,
        });
    };
    let after = state_after(copied(state)?, kept.as_slice())?;
    let same = holds_state(report, unit, &after);
    Ok(CutTold { entries, same })
}

// Whether the report tells this state of a unit.
fn holds_state(report: &Report, unit: Unit, state: &UnitState) -> bool
    ensures { IsTrue result
        ↔ (slice_get (states_of report.now.contents) unit ≡ Some (state_of state.now)) }
{
    match report.contents.units.get(unit) {
        Some(found) => same_state(found, state),
        None => false,
    }
}

/// The same state, kept apart.
pub fn copied(state: &UnitState) -> Result<UnitState, AllocError>
    ensures { IfOk result (λ copy. state_of copy ≡ state_of state.now) }
{
    state.clone()
}
