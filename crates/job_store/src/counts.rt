// What is counted of the outcomes of all callers.
ghost use Rattle.std.specs.Prelude.{◌≡◌, ◌<◌, ◌^◌, length, count_by, sum_by};
ghost use Rattle.std.specs.List.{list_any};
ghost use Rattle.job_text.specs.Outcomes.{is_at};
ghost use Rattle.job_store.specs.BigRun.{answered_in, is_clock_end, met_clock_end};

use job_text::Outcome;
use mont_base::Sequence;

// How many lines were answered.
pub(crate) fn count_answered(outcomes: &[Sequence<Outcome>]) -> u64
    requires few { sum_by (λ os. length os) outcomes.now < 2 ^ 64 }
    ensures { result ≡ answered_in outcomes.now }
{
    let mut count = 0;
    for of_caller in outcomes {
        count += answered_by_one(of_caller.as_slice());
    }
    count
}

fn answered_by_one(outcomes: &[Outcome]) -> u64
    ensures { result ≡ count_by is_at outcomes.now }
{
    let mut count = 0;
    for outcome in outcomes {
        if let Outcome::At { .. } = outcome {
            count += 1;
        }
    }
    count
}

// Whether a line found the clock at its end.
pub(crate) fn has_clock_end(outcomes: &[Sequence<Outcome>]) -> bool
    ensures { result ≡ met_clock_end outcomes.now }
{
    outcomes
        .iter()
        .any(|of_caller| one_has_clock_end(of_caller.as_slice()))
}

fn one_has_clock_end(outcomes: &[Outcome]) -> bool
    ensures { result ≡ list_any is_clock_end outcomes.now }
{
    outcomes.iter().any(|outcome| *outcome == Outcome::ClockEnd)
}
