// The order in which the slots of records that aren't needed can be closed.
ghost use Rattle.mont_laws.specs.Retiring.{FirstCanClose, WrittenRetire, FoundRetire, RetireByVersion, LiveAreLeft, RetireAsMany};

use mont_base::{Epoch, Slot};

/// A slot that waits to be closed, with the epoch from which on its record isn't needed.
#[derive(Clone, Copy, Debug, PartialEq, Eq)]
pub struct Retired {
    pub slot: Slot,
    pub epoch: Epoch,
}

/// The first retired slot can be closed from its epoch on.
pub fn first_retired_can_close()
    ensures { FirstCanClose }
{}

/// Written records retire what they follow.
pub fn written_records_retire()
    ensures { WrittenRetire }
{}

/// Records that were found retire by rising identity and version.
pub fn found_records_retire()
    ensures { FoundRetire }
{}

/// The retired slots may be told by the order of closing, or record by record.
pub fn records_retire_by_version()
    ensures { RetireByVersion }
{}

/// The live records are those that aren't retired.
pub fn live_records_are_left()
    ensures { LiveAreLeft }
{}

/// Written records retire as many as their effects do.
pub fn effects_retire_as_many()
    ensures { RetireAsMany }
{}
