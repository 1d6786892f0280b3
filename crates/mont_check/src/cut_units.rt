// In which units callers were cut. A cut is the last outcome of its caller.
ghost use Rattle.std.specs.Prelude.{◌≡◌, ◌↔◌, IsTrue};
ghost use Rattle.job_text.specs.declared.outcome.Outcome.TheVariants.{CutIn};
ghost use Rattle.job_text.specs.Causes.{WasCutIn};
ghost use Rattle.job_text.specs.PlainReport.{report_of};
ghost use Rattle.mont_check.specs.CutUnits.{AllCutsLast, CutsLast};

use crate::shown::is_cut;
use job_text::{Outcome, Report};
use mont_base::Unit;

/// Whether nothing stands after a cut, whichever caller it is.
pub fn all_cuts_last(report: &Report) -> bool
    ensures { IsTrue result ↔ AllCutsLast (report_of report.now) }
{
    report
        .outcomes
        .as_slice()
        .iter()
        .all(|outcomes| cuts_last(outcomes.as_slice()))
}

// Whether only the last of these outcomes may be a cut.
fn cuts_last(outcomes: &[Outcome]) -> bool
    ensures { IsTrue result ↔ CutsLast outcomes.now }
{
    match outcomes.split_last() {
        Some((_, before)) => !before.iter().any(|outcome| is_cut(outcome)),
        None => true,
    }
}

/// Whether the caller was cut in the unit.
pub fn was_cut_in(report: &Report, caller: u64, unit: Unit) -> bool
    requires { AllCutsLast (report_of report.now) }
    ensures { IsTrue result ↔ WasCutIn (report_of report.now) caller unit }
{
    let Some(outcomes) = report.outcomes.get(caller) else {
        return false;
    };
    match outcomes.as_slice().last() {
        Some(last) => is_cut_in(last, unit),
        None => false,
    }
}

fn is_cut_in(outcome: &Outcome, unit: Unit) -> bool
    ensures { IsTrue result ↔ (outcome.now ≡ CutIn unit) }
{
    *outcome == Outcome::CutIn { unit }
}
