// Why a shift isn't answered.
ghost use Rattle.std.specs.Prelude.{◌≡◌};
ghost use Rattle.shard_map.specs.MapShift.{refusal_of};

use crate::pair_carrying::PairUncarried;
use mont_base::{Epoch, Receipt, Text, Unit, Which};

/// Why a shift isn't answered. The order of the variants is that in which they are tried.
#[derive(Clone, Copy, Debug, PartialEq, Eq)]
pub enum ShiftRefusal {
    /// One unit keeps both keys.
    SameUnit {
        unit: Unit,
    },
    /// A caller was cut inside the unit, which is halted for good.
    Halted {
        unit: Unit,
        by: u64,
    },
    /// No number stands under the key.
    Missing {
        key: Text,
    },
    /// There is so much, which is less than the amount.
    Short {
        have: u64,
    },
    /// With the amount it would be above 2^64 - 1.
    Over {
        have: u64,
    },
    /// A number is at its end.
    CountEnd {
        which: Which,
    },
    /// There is too little memory.
    Memory,
    /// So few slots of the unit are free, once all is closed that may be at this durable clock.
    Full {
        unit: Unit,
        need: u64,
        free: u64,
        clock: Epoch,
    },
    /// The caller's gate cut inside the unit. Where the entry of the other unit was added before,
    /// it stands alone.
    Cut {
        unit: Unit,
        first: Option<Receipt>,
    },
}

impl ShiftRefusal {
    // Why its operations weren't carried out.
    pub(crate) fn of(why: PairUncarried) -> ShiftRefusal
        ensures { result ≡ refusal_of why }
    {
        match why {
            PairUncarried::Full {
                unit,
                need,
                free,
                clock,
            } => ShiftRefusal::Full {
                unit,
                need,
                free,
                clock,
            },
            PairUncarried::Cut { unit, first: None } => ShiftRefusal::Cut { unit, first: None },
            PairUncarried::Cut {
                unit,
                first: Some(carried),
            } => ShiftRefusal::Cut {
                unit,
                first: Some(carried.receipt),
            },
        }
    }
}
