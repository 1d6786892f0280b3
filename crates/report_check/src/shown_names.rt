// What the outcomes of a caller have named so far.
ghost use Rattle.std.specs.Prelude.{◌≡◌, ◌+◌, ◌^◌, ◌<◌, IfOk, MatchOption, [], length, slice_set};
ghost use Rattle.std.specs.Option.{IfSome};
ghost use Rattle.mont_base.specs.declared.operation.Entry.{Entry};
ghost use Rattle.mont_base.specs.Seen.{IsEntryAt};
ghost use Rattle.job_text.specs.PlainReport.{report_of};
ghost use Rattle.report_check.specs.ShownNames.{HaveShown, IsNextEntry};

use job_text::Report;
use mont_base::{Entry, Epoch, Sequence, Unit};
use std::alloc::{AllocError, Global};

/// What the outcomes of a caller have named so far.
#[derive(Debug, Drop)]
pub struct ShownNames {
    /// How many entries they name.
    pub calls: u64,
    /// The greatest epoch of these.
    pub newest: Epoch,
    /// Of each unit the number of entries up to the last that they name.
    pub fronts: Sequence<u64>,
}

impl ShownNames {
    /// Nothing was named yet.
    pub fn new(alloc: Global, report: &Report) -> Result<ShownNames, AllocError>
        ensures { IfOk result (HaveShown report.now.histories []) }
    {
        let fronts = vec![in alloc; 0; report.histories.len() as usize]?;
        Ok(ShownNames {
            calls: 0,
            newest: 0,
            fronts: Sequence::from_vec(fronts),
        })
    }

    /// The entry at a place, if the caller's next outcome may name it.
    pub fn next_entry<'a>(
        &self,
        report: &'a Report,
        caller: u64,
        unit: Unit,
        place: u64,
    ) -> Option<&'a Entry>
        ensures entry { MatchOption result
            ((e : Entry) → ¬ IsNextEntry (report_of report.now) caller self.now unit place e)
            (λ entry. IsNextEntry (report_of report.now) caller self.now unit place entry.now) }
        ensures room { IfSome result (λ entry. place + 1 < 2 ^ 64) }
    {
        let Some(entry) = entry_at(report, unit, place) else {
            return None;
        };
        let Some(front) = self.fronts.get(unit) else {
            return None;
        };
        if entry.caller == caller
            && entry.call == self.calls
            && entry.op.unit(report.layout) == Some(unit)
            && self.newest <= entry.epoch
            && *front <= place
        {
            Some(entry)
        } else {
            None
        }
    }

    /// Takes in that the entry at a place was named.
    pub fn add(&mut self, epoch: Epoch, unit: Unit, place: u64)
        requires calls { self.old.calls + 1 < 2 ^ 64 }
        requires unit { unit < length self.old.fronts }
        requires place { place + 1 < 2 ^ 64 }
        ensures calls { self.new.calls ≡ self.old.calls + 1 }
        ensures newest { self.new.newest ≡ epoch }
        ensures fronts { self.new.fronts ≡ slice_set self.old.fronts unit (place + 1) }
    {
        self.calls += 1;
        self.newest = epoch;
        self.fronts.set(unit, place + 1);
    }
}

// The entry at a place of a unit's history.
fn entry_at(report: &Report, unit: Unit, place: u64) -> Option<&Entry>
    ensures entry { MatchOption result
        ((e : Entry) → ¬ IsEntryAt report.now.histories unit place e)
        (λ entry. IsEntryAt report.now.histories unit place entry.now) }
    ensures room { IfSome result (λ entry. place + 1 < 2 ^ 64) }
{
    let Some(history) = report.histories.get(unit) else {
        return None;
    };
    if place < history.len() {
        history.get(place)
    } else {
        None
    }
}
