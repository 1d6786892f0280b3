// Whether two units have the same state.
ghost use Rattle.std.specs.Prelude.{◌≡◌, ◌↔◌, IsTrue};
ghost use Rattle.plain.specs.States.{state_of};

use crate::unit_state::UnitState;

/// Whether two units have the same state. A map and an ordered unit have it where they have the
/// same pairs.
pub fn same_state(a: &UnitState, b: &UnitState) -> bool
    ensures { IsTrue result ↔ (state_of a.now ≡ state_of b.now) }
{
    match (a, b) {
        (
            UnitState::Map { state: a } | UnitState::Ordered { state: a },
            UnitState::Map { state: b } | UnitState::Ordered { state: b },
        ) => a.has_same_pairs(b),
        (UnitState::Queue { state: a }, UnitState::Queue { state: b }) => a.has_same_items(b),
        (UnitState::Graph { state: a }, UnitState::Graph { state: b }) => a.has_same_parts(b),
        _ => false,
    }
}
