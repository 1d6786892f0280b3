// What is found in an image.
ghost use Rattle.std.specs.Prelude.{◌≡◌};
ghost use Rattle.scan.specs.declared.scanned.ScanRefusal.TheVariants.{Memory};

use mont_base::{Held, Sequence, Slot, SlotFault};
use std::alloc::AllocError;

/// What an image holds, each by rising slot.
#[derive(Debug, Drop)]
pub struct Scan {
    /// The records whose epoch is at least two before the image's clock.
    pub records: Sequence<Held>,
    /// The slots whose epoch is later. They hold nothing for recovery, and are to be closed.
    pub lost: Sequence<Slot>,
}

/// Why an image wasn't scanned.
#[derive(Clone, Copy, Debug, PartialEq, Eq)]
pub enum ScanRefusal {
    /// The lowest slot that should hold a record and holds none, and its first fault.
    Slot { slot: Slot, fault: SlotFault },
    /// There was too little memory.
    Memory,
}

// What was found among some slots.
pub(crate) type Found = Result<Scan, ScanRefusal>;

impl From<AllocError> for ScanRefusal {
    ghost from_gives = { λ _ e. e ≡ Memory };

    fn from(_error: AllocError) -> ScanRefusal {
        ScanRefusal::Memory
    }
}
