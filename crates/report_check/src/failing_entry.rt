// The first entry of a report's histories that doesn't hold with those before it.
ghost use Rattle.std.specs.Prelude.{◌≡◌, ◌↔◌, IfOk, IsTrue};
ghost use Rattle.job_text.specs.PlainReport.{report_of};
ghost use Rattle.plain.specs.States.{state_of};
ghost use Rattle.report_check.specs.HeldEntries.{EntryHolds, FrontHolds};
ghost use Rattle.report_check.specs.Lowest.{IsFirst, IsFirstPair};
ghost use Rattle.report_check.specs.NextEntry.{MayFollow};

use crate::run_left::runs_behind;
use job_text::{Report, Run};
use mont_base::{Entry, Epoch, LAST, Reply, Unit};
use plain::UnitState;
use std::alloc::AllocError;

/// The unit and the place of the first entry that doesn't hold, in one walk along each history. Of
/// a unit there are in memory the state that the report tells and one that goes along.
pub fn failing_entry(report: &Report) -> Result<Option<(Unit, u64)>, AllocError>
    ensures { IfOk result (IsFirstPair (EntryHolds (report_of report.now))) }
{
    for unit in 0..report.histories.len() {
        if let Some(place) = failing_place(report, unit)? {
            return Ok(Some((unit, place)));
        }
    }
    Ok(None)
}

// The place of the first entry of a unit that doesn't hold.
fn failing_place(report: &Report, unit: Unit) -> Result<Option<u64>, AllocError>
    ensures { IfOk result (IsFirst (EntryHolds (report_of report.now) unit)) }
{
    let Some(base) = report.base.units.get(unit) else {
        return Ok(None);
    };
    let Some(history) = report.histories.get(unit) else {
        return Ok(None);
    };
    let Some(runs) = report.runs.get(unit) else {
        return Ok(None);
    };
    first_apart(report, unit, base, history.as_slice(), runs.as_slice())
}

// The place of the first entry that doesn't hold with those before it, in a unit with this state,
// these entries and these runs beside them.
fn first_apart(
    report: &Report,
    unit: Unit,
    base: &UnitState,
    entries: &[Entry],
    runs: &[Run],
) -> Result<Option<u64>, AllocError>
    ensures { IfOk result (IsFirst
        (FrontHolds (report_of report.now) unit (state_of base.now) runs.now entries.now)) }
{
    let mut state = copied(base)?;
    let mut newest = report.base_clock;
    let mut left = runs;
    for (place, entry) in entries.iter().enumerate() {
        if !may_follow(report, unit, newest, entry) {
            return Ok(Some(place as u64));
        }
        let Some(behind) = runs_behind(&state, &entry.op, left) else {
            return Ok(Some(place as u64));
        };
        let reply = state.apply(&entry.op)?;
        if !same_reply(&entry.reply, &reply) {
            return Ok(Some(place as u64));
        }
        newest = entry.epoch;
        left = behind;
    }
    Ok(None)
}

// Whether an entry may come next, but for its reply and its run.
fn may_follow(report: &Report, unit: Unit, newest: Epoch, entry: &Entry) -> bool
    ensures { IsTrue result ↔ MayFollow (report_of report.now) unit newest entry.now }
{
    entry.op.unit(report.layout) == Some(unit)
        && newest <= entry.epoch
        && entry.epoch <= LAST
        && entry.caller < report.callers
}

fn same_reply(a: &Reply, b: &Reply) -> bool
    ensures { IsTrue result ↔ (a.now ≡ b.now) }
{
    a == b
}

/// The same state, kept apart.
pub(crate) fn copied(state: &UnitState) -> Result<UnitState, AllocError>
    ensures { IfOk result (λ copy. state_of copy ≡ state_of state.now) }
{
    state.clone()
}
