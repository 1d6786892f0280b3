// Whether each entry of a report is named by exactly one outcome.
ghost use Rattle.std.specs.Prelude.{◌≡◌, ◌↔◌, ℕ, [], ◌∷◌, All, IsTrue, IfOk};
ghost use Rattle.job_text.specs.Faithful.{AllNamedAt};
ghost use Rattle.job_text.specs.PlainReport.{report_of};
ghost use Rattle.mont_check.specs.Names.{CountsNames, TellsNames};

use crate::shown::place_of;
use job_text::{Outcome, Report};
use mont_base::{Sequence, Unit};
use std::alloc::{AllocError, Global};

/// Whether the outcomes name every entry, and none of them twice.
pub fn are_named_once(alloc: Global, report: &Report) -> Result<bool, AllocError>
    ensures { IfOk result (λ b. IsTrue b
        ↔ ((unit : ℕ) → AllNamedAt (report_of report.now) unit)) }
{
    for unit in 0..report.histories.len() {
        if !are_named_at(alloc, report, unit)? {
            return Ok(false);
        }
    }
    Ok(true)
}

fn are_named_at(alloc: Global, report: &Report, unit: Unit) -> Result<bool, AllocError>
    ensures { IfOk result (λ b. IsTrue b ↔ AllNamedAt (report_of report.now) unit) }
{
    let Some(history) = report.histories.get(unit) else {
        return Ok(true);
    };
    let times = names_of(alloc, report.outcomes.as_slice(), unit, history.len())?;
    Ok(are_one(times.as_slice()))
}

fn are_one(numbers: &[u64]) -> bool
    ensures { IsTrue result ↔ All (λ n. n ≡ 1) numbers.now }
{
    numbers.iter().all(|number| *number == 1)
}

// How often each of so many places of a unit is named.
fn names_of(
    alloc: Global,
    outcomes: &[Sequence<Outcome>],
    unit: Unit,
    places: u64,
) -> Result<Vec<u64>, AllocError>
    ensures { IfOk result (λ v. TellsNames outcomes.now unit places v.items) }
{
    let mut times = vec![in alloc; 0; places as usize]?;
    for of_caller in outcomes {
        count_names(&mut times, unit, of_caller.as_slice());
    }
    Ok(times)
}

// Counts the places that outcomes name.
fn count_names(times: &mut Vec<u64>, unit: Unit, outcomes: &[Outcome])
    ensures { CountsNames unit outcomes.now times.old.items times.new.items }
{
    for outcome in outcomes {
        count_name(times, unit, outcome);
    }
}

fn count_name(times: &mut Vec<u64>, unit: Unit, outcome: &Outcome)
    ensures { CountsNames unit (outcome.now ∷ []) times.old.items times.new.items }
{
    let Some((named, place)) = place_of(outcome) else {
        return;
    };
    let place = place as usize;
    if named == unit && place < times.len() {
        times[place] = times[place].saturating_add(1);
    }
}
