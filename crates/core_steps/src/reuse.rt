// When a slot may be written again, and how many slots a unit has left.
ghost use Rattle.core_steps.specs.Reuse.{FreeSlotsAreUnseen, FirstStoresAreUnseen, ClosedSlotsAreUnneeded, ReclaimedHaveRoom};

/// A slot into which a first store may go is open in no image that a crash permits.
pub fn free_slots_are_unseen()
    ensures { FreeSlotsAreUnseen }
{}

/// The first store of a record goes only into such a slot, and no word of it has a store pending.
pub fn first_stores_are_unseen()
    ensures { FirstStoresAreUnseen }
{}

/// A label is closed only where no image that a crash then permits needs the slot.
pub fn closed_slots_are_unneeded()
    ensures { ClosedSlotsAreUnneeded }
{}

/// Once all that was due is closed, the slots without a record are the room that the history tells.
pub fn reclaimed_have_room()
    ensures { ReclaimedHaveRoom }
{}
