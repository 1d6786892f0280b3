// The first places that a caller's later outcomes name, told after each of its outcomes.
ghost use Rattle.std.specs.Prelude.{◌≤◌, length, IfOk, OnOk};
ghost use Rattle.mont_check.specs.Ahead.{AreAhead, IsKnownAhead, LowersPlace};

use crate::shown::place_of;
use job_text::{Deed, Line, Outcome};
use mont_base::{Layout, Unit};
use std::alloc::{AllocError, Global};
use std::collections::BTreeMap;

/// For each outcome of a caller, the first place that those after it name in the unit of its
/// line's operation. It takes one pass, from the last outcome back.
pub fn places_ahead(
    alloc: Global,
    layout: Layout,
    lines: &[Line],
    outcomes: &[Outcome],
) -> Result<Vec<Option<u64>>, AllocError>
    requires { length outcomes.now ≤ length lines.now }
    ensures { IfOk result (λ v. AreAhead layout lines.now outcomes.now v.items) }
{
    let mut ahead = vec![in alloc; None; outcomes.len()]?;
    let mut first = BTreeMap::new(alloc);
    for passed in 0..outcomes.len() {
        let at = outcomes.len() - 1 - passed;
        ahead[at] = place_ahead(layout, &lines[at], &first);
        lower(&mut first, place_of(&outcomes[at]))?;
    }
    Ok(ahead)
}

// The first place that is known in the unit of a line's operation.
fn place_ahead(layout: Layout, line: &Line, first: &BTreeMap<Unit, u64>) -> Option<u64>
    ensures { IsKnownAhead layout first.now line.now.deed result }
{
    match &line.deed {
        Deed::Call { op } => match op.unit(layout) {
            Some(unit) => first.get(&unit).copied(),
            None => None,
        },
        Deed::Tick | Deed::Sync => None,
    }
}

// Makes a place the first of its unit, unless an earlier one is known.
fn lower(first: &mut BTreeMap<Unit, u64>, named: Option<(Unit, u64)>) -> Result<(), AllocError>
    ensures { OnOk result (LowersPlace named first.old first.new) }
{
    let Some((unit, place)) = named else {
        return Ok(());
    };
    let known = first.get(&unit).copied();
    if known.is_none_or(|known| place < known) {
        first.insert(unit, place)?;
    }
    Ok(())
}
