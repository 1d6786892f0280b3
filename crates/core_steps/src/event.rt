// The kinds of step.
use crate::parts::{Note, Part};
use mont_base::{Epoch, Op, Reply, Slot, Unit};

/// A step of a unit, of the advancer, or of a caller in a unit.
#[derive(Debug, Drop)]
pub enum Event {
    /// The unit loads the clock.
    Look {
        unit: Unit,
    },
    /// The unit announces an epoch.
    Tell {
        unit: Unit,
        epoch: Epoch,
    },
    /// The unit loads the clock again, and is registered where it shows the announced epoch.
    Confirm {
        unit: Unit,
    },
    /// The unit stores a field of the record that it writes into the slot.
    Store {
        unit: Unit,
        slot: Slot,
        field: u64,
        value: u64,
    },
    /// The unit takes its announcement back with what it has written, and answers the caller.
    Leave {
        unit: Unit,
        caller: u64,
        op: Op,
        reply: Reply,
    },
    /// The unit loads the clock and answers the caller, and changes nothing.
    Read {
        unit: Unit,
        caller: u64,
        op: Op,
        reply: Reply,
    },
    /// The unit takes its announcement back, and has written nothing.
    Withdraw {
        unit: Unit,
    },
    /// The caller is cut in the unit, which stays as it is from then on.
    Freeze {
        unit: Unit,
        caller: u64,
    },
    /// The unit or the caller loads the durable clock.
    LoadDurable {
        part: Part,
    },
    /// The unit stores 0 into the label of a slot that isn't needed.
    CloseLabel {
        unit: Unit,
        slot: Slot,
    },
    /// The unit makes that label durable.
    PersistClose {
        unit: Unit,
    },
    /// The advancer loads an announcement.
    Check,
    /// The advancer loads a word that is to be made durable.
    LoadWord,
    /// The advancer makes the loaded word durable.
    PersistWord,
    /// The advancer moves the clock.
    SetClock,
    /// The advancer makes the clock durable.
    PersistClock,
    /// What the part shows is noted.
    Split {
        part: Part,
    },
    /// The part takes a note.
    Join {
        part: Part,
        note: Note,
    },
    /// A list of slots is moved out of its place, or into it.
    Exchange {
        part: Part,
    },
}
