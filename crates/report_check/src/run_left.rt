// The run beside an entry, held against the one that the entry has.
ghost use Rattle.std.specs.Prelude.{◌≡◌, ◌↔◌, ◌++◌, IsTrue, MatchOption};
ghost use Rattle.std.specs.Option.{option_to_list};
ghost use Rattle.mont_base.specs.State.{IsShortOp, run_of};
ghost use Rattle.plain.specs.States.{state_of};
ghost use Rattle.report_check.specs.NextEntry.{LacksRun};

use job_text::Run;
use mont_base::{Op, PairList, Text};
use plain::UnitState;

/// What is left of the runs after that of the operation, if it has one; `None` where they don't
/// begin with it.
pub fn runs_behind<'a>(state: &UnitState, op: &Op, left: &'a [Run]) -> Option<&'a [Run]>
    requires { IsShortOp op.now }
    ensures { let run = run_of (state_of state.now) op.now in
        MatchOption result (LacksRun left.now run)
        (λ behind. left.now ≡ option_to_list run ++ behind.now) }
{
    let Some(run) = run_of(state, op) else {
        return Some(left);
    };
    match left {
        [own, behind @ ..] if same_pairs(own.as_slice(), run.as_slice()) => Some(behind),
        _ => None,
    }
}

// The run of an operation on a state.
fn run_of(state: &UnitState, op: &Op) -> Option<PairList>
    requires { IsShortOp op.now }
    ensures { result ≡ run_of (state_of state.now) op.now }
{
    match (state, op) {
        (
            UnitState::Map { state } | UnitState::Ordered { state },
            Op::ORange { from, to, most, .. },
        ) => {
            let mut pairs = PairList::empty();
            state.range(from, to, *most, &mut pairs);
            Some(pairs)
        }
        _ => None,
    }
}

// Whether both have the same pairs in the same order.
fn same_pairs(a: &[(Text, Text)], b: &[(Text, Text)]) -> bool
    ensures { IsTrue result ↔ (a.now ≡ b.now) }
{
    a == b
}
