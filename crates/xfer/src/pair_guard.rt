// An operation under way in two units, what it ends with, and why none was begun or ended.
ghost use Rattle.std.specs.Prelude.{◌≡◌};
ghost use Rattle.xfer.specs.Pairs.{unit_at_hand};

use mont_base::{Epoch, Receipt, Unit};
use op_guard::Guard;

/// An operation under way in two units that are registered at one epoch. It is spent by
/// `commit_pair`, and after a cut of `write_pair` by being taken apart.
pub struct PairGuard {
    pub low: Unit,
    pub high: Unit,
    /// The caller's number.
    pub by: u64,
    pub epoch: Epoch,
    /// How many of the two records are written, the lower unit's first.
    pub written: u64,
}

/// Why no operation was begun.
#[derive(Clone, Copy, Debug, PartialEq, Eq)]
pub enum PairRefusal {
    /// So few slots of the unit are free, once all is closed that this durable clock lets close.
    Full {
        unit: Unit,
        need: u64,
        free: u64,
        clock: Epoch,
    },
    /// The gate cut before a step of this unit.
    Cut {
        unit: Unit,
    },
}

/// The receipts of both entries.
#[derive(Clone, Copy, Debug, PartialEq, Eq)]
pub struct PairReceipt {
    pub low: Receipt,
    pub high: Receipt,
}

/// The gate cut while both units were to leave.
#[derive(Clone, Copy, Debug, PartialEq, Eq)]
pub struct PairCut {
    /// The receipt of the lower unit's entry, where that unit had left before.
    pub first: Option<Receipt>,
}

impl PairGuard {
    /// The unit of the record that is to be written next. After a cut of `write_pair` it is the
    /// unit before whose step the gate cut.
    pub fn unit_at_hand(&self) -> Unit
        ensures { result ≡ unit_at_hand self.now }
    {
        if self.written == 0 {
            self.low
        } else {
            self.high
        }
    }
}

// Takes the guard of one unit apart.
pub(crate) fn spend(guard: Guard) {
    let Guard {
        unit: _,
        by: _,
        epoch: _,
        need: _,
        written: _,
    } = guard;
}
