// The structures of all units in memory.
ghost use Rattle.std.specs.Prelude.{◌≡◌, IfOk};
ghost use Rattle.mont_base.specs.Image.{empty_states};
ghost use Rattle.plain.specs.States.{states_of};

use crate::unit_state::UnitState;
use mont_base::{Layout, Sequence};
use std::alloc::{AllocError, Global};

/// The states of the units, unit by unit.
#[derive(Debug, Drop)]
pub struct Contents {
    pub units: Sequence<UnitState>,
}

impl Contents {
    /// Structures with nothing in them.
    pub fn empty(alloc: Global, layout: Layout) -> Result<Contents, AllocError>
        ensures { IfOk result (λ c. states_of c ≡ empty_states layout) }
    {
        let mut units = Sequence::new(alloc);
        for kind in layout.kinds().as_slice() {
            units.push(UnitState::empty(alloc, *kind))?;
        }
        Ok(Contents { units })
    }
}
