// The runs of the ranges in histories.
ghost use Rattle.std.specs.Prelude.{◌≡◌, ◌++◌, IfOk, OnOk, All, slice_get, Some};
ghost use Rattle.std.specs.List.{list_any};
ghost use Rattle.std.specs.Option.{option_to_list};
ghost use Rattle.mont_base.specs.declared.operation.Entry.{Entry};
ghost use Rattle.mont_base.specs.History.{runs_of, IsShort};
ghost use Rattle.mont_base.specs.State.{State, IsShortOp, run_of};
ghost use Rattle.plain.specs.States.{state_of, states_of};
ghost use Rattle.job_report.specs.FoundRuns.{AreRuns, asks_range};

use job_text::Run;
use mont_base::{Entry, MOST_PAIRS, Op, PairList, Sequence, Unit};
use plain::{Contents, UnitState};
use std::alloc::{AllocError, Global};

/// The runs of each unit: of each range in its history the pairs that it gave, on the state after
/// the entries before it.
pub fn all_runs(
    alloc: Global,
    base: &Contents,
    histories: &[Sequence<Entry>],
) -> Result<Sequence<Sequence<Run>>, AllocError>
    ensures { IfOk result (λ runs. AreRuns (states_of base.now) histories.now runs) }
{
    let mut runs = Sequence::new(alloc);
    for (unit, history) in histories.iter().enumerate() {
        let own = runs_at(alloc, base, unit as u64, history.as_slice())?;
        runs.push(own)?;
    }
    Ok(runs)
}

// The runs of a unit, from what it held; none of one that held nothing.
fn runs_at(
    alloc: Global,
    base: &Contents,
    unit: Unit,
    history: &[Entry],
) -> Result<Sequence<Run>, AllocError>
    ensures { IfOk result (λ runs.
        (state : State) → slice_get (states_of base.now) unit ≡ Some state
        → All IsShort history.now → runs ≡ runs_of state history.now) }
{
    let Some(state) = base.units.get(unit) else {
        return Ok(Sequence::new(alloc));
    };
    runs_of(alloc, state, history)
}

// The runs of the ranges in a history from a state.
fn runs_of(alloc: Global, base: &UnitState, history: &[Entry]) -> Result<Sequence<Run>, AllocError>
    ensures { IfOk result
        (λ runs. All IsShort history.now → runs ≡ runs_of (state_of base.now) history.now) }
{
    let mut runs = Sequence::new(alloc);
    if !has_range(history) {
        return Ok(runs);
    }
    let mut state = kept_apart(base)?;
    for entry in history {
        add_run(alloc, &state, &entry.op, &mut runs)?;
        let _ = state.apply(&entry.op)?;
    }
    Ok(runs)
}

// Whether a history has a range. One without needs no replay.
fn has_range(history: &[Entry]) -> bool
    ensures { result ≡ list_any (λ (e : Entry). asks_range e.op) history.now }
{
    history.iter().any(|entry| asks_range(&entry.op))
}

// Whether an operation is a range.
fn asks_range(op: &Op) -> bool
    ensures { result ≡ asks_range op.now }
{
    matches!(op, Op::ORange { .. })
}

// The same state, kept apart.
fn kept_apart(state: &UnitState) -> Result<UnitState, AllocError>
    ensures { IfOk result (λ copy. state_of copy ≡ state_of state.now) }
{
    state.clone()
}

// Adds the run of an operation after the others, if it has one.
fn add_run(
    alloc: Global,
    state: &UnitState,
    op: &Op,
    runs: &mut Sequence<Run>,
) -> Result<(), AllocError>
    ensures { OnOk result (IsShortOp op.now
        → runs.new ≡ runs.old ++ option_to_list (run_of (state_of state.now) op.now)) }
{
    if let Some(run) = run_of(state, op) {
        let own = copied(alloc, &run)?;
        runs.push(own)?;
    }
    Ok(())
}

// The run of a range on a state.
fn run_of(state: &UnitState, op: &Op) -> Option<PairList>
    ensures { IsShortOp op.now → result ≡ run_of (state_of state.now) op.now }
{
    match (state, op) {
        (
            UnitState::Map { state } | UnitState::Ordered { state },
            Op::ORange { from, to, most, .. },
        ) => {
            let mut pairs = PairList::empty();
            state.range(from, to, (*most).min(MOST_PAIRS as u64), &mut pairs);
            Some(pairs)
        }
        _ => None,
    }
}

// The pairs, in memory of their own.
fn copied(alloc: Global, run: &PairList) -> Result<Run, AllocError>
    ensures { IfOk result (λ copy. copy ≡ run.now) }
{
    let mut copy = Sequence::new(alloc);
    for pair in run.as_slice() {
        copy.push(*pair)?;
    }
    Ok(copy)
}
