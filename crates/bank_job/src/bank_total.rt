// What the accounts hold together.
ghost use Rattle.std.specs.Prelude.{◌≡◌, ◌%◌, ◌^◌, sum_by};
ghost use Rattle.plain.specs.States.{state_of, states_of};
ghost use Rattle.big_job.specs.Totals.{value_of_pair};
ghost use Rattle.bank_job.specs.BankText.{number_total, pairs_total};

use big_job::number_spelled;
use mont_base::Text;
use plain::{Contents, UnitState};
use std::collections::btree_map;

// The sum modulo 2^64 of the values of all maps, read as numbers.
pub(crate) fn number_total(contents: &Contents) -> u64
    ensures { result ≡ number_total (states_of contents.now) }
{
    let mut total: u64 = 0;
    for state in contents.units.as_slice() {
        total = total.wrapping_add(total_of_unit(state));
    }
    total
}

// That of one unit, which is 0 where its values stand under no keys.
fn total_of_unit(state: &UnitState) -> u64
    ensures { result ≡ pairs_total (state_of state.now) % 2 ^ 64 }
{
    match state {
        UnitState::Map { state } | UnitState::Ordered { state } => total_of_pairs(state.iter()),
        UnitState::Queue { .. } | UnitState::Graph { .. } => 0,
    }
}

fn total_of_pairs(pairs: btree_map::Iter<'_, Text, Text>) -> u64
    ensures { result ≡ sum_by value_of_pair pairs.entry % 2 ^ 64 }
{
    let mut total: u64 = 0;
    for (_key, value) in pairs {
        total = total.wrapping_add(number_spelled(value));
    }
    total
}
