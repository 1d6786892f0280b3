// Whether the runs of a report are those of the states after the entries before them.
ghost use Rattle.std.specs.Prelude.{◌≡◌, ◌↔◌, ◌≤◌, ℕ, List, IsTrue, IfOk, All, slice_get, Some};
ghost use Rattle.mont_base.specs.declared.operation.Entry.{Entry};
ghost use Rattle.mont_base.specs.History.{runs_of, IsShort};
ghost use Rattle.mont_base.specs.State.{State, IsShortOp, run_of};
ghost use Rattle.job_text.specs.Faithful.{RunsAt};
ghost use Rattle.job_text.specs.PlainReport.{report_of};
ghost use Rattle.plain.specs.States.{state_of, states_of};
ghost use Rattle.mont_check.specs.JudgedRuns.{AreShort};

use crate::walk::copied;
use job_text::{Report, Run};
use mont_base::{Entry, Op, PairList, Text, Unit};
use plain::{Contents, UnitState};
use std::alloc::AllocError;

/// Whether the runs of each unit are those that its ranges have. No range may be of more pairs
/// than a run has room for.
pub fn are_run(base: &Contents, report: &Report) -> Result<bool, AllocError>
    requires { AreShort (states_of base.now) report.now.histories }
    ensures { IfOk result (λ b. IsTrue b
        ↔ ((unit : ℕ) → RunsAt (report_of report.now) (states_of base.now) unit)) }
{
    for unit in 0..report.histories.len() {
        if !is_run_at(base, report, unit)? {
            return Ok(false);
        }
    }
    Ok(true)
}

fn is_run_at(base: &Contents, report: &Report, unit: Unit) -> Result<bool, AllocError>
    requires { AreShort (states_of base.now) report.now.histories }
    ensures { IfOk result (λ b. IsTrue b
        ↔ RunsAt (report_of report.now) (states_of base.now) unit) }
{
    let Some(state) = base.units.get(unit) else {
        return Ok(true);
    };
    let Some(history) = report.histories.get(unit) else {
        return Ok(true);
    };
    let Some(runs) = report.runs.get(unit) else {
        return Ok(false);
    };
    has_runs(state, history.as_slice(), runs.as_slice())
}

// Whether these are the runs of the ranges in a history from a state.
fn has_runs(base: &UnitState, history: &[Entry], runs: &[Run]) -> Result<bool, AllocError>
    requires { All IsShort history.now }
    ensures { IfOk result (λ b. IsTrue b ↔ (runs.now ≡ runs_of (state_of base.now) history.now)) }
{
    let mut state = copied(base)?;
    let mut left = runs;
    for entry in history {
        if let Some(run) = run_of(&state, &entry.op) {
            match left {
                [own, behind @ ..] if same_pairs(own.as_slice(), run.as_slice()) => left = behind,
                _ => return Ok(false),
            }
        }
        let _ = state.apply(&entry.op)?;
    }
    Ok(left.is_empty())
}

// The run of a range on a state.
fn run_of(state: &UnitState, op: &Op) -> Option<PairList>
    requires { IsShortOp op.now }
    ensures { result ≡ run_of (state_of state.now) op.now }
{
    match (state, op) {
        (
            UnitState::Map { state } | UnitState::Ordered { state },
            Op::ORange { from, to, most, .. },
        ) => {
            let mut pairs = PairList::empty();
            state.range(from, to, *most, &mut pairs);
            Some(pairs)
        }
        _ => None,
    }
}

// Whether both have the same pairs in the same order.
fn same_pairs(a: &[(Text, Text)], b: &[(Text, Text)]) -> bool
    ensures { IsTrue result ↔ (a.now ≡ b.now) }
{
    a == b
}
