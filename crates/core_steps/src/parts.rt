// The parts of the machine.
use mont_base::{Entry, Epoch, Held, Layout, Receipt, Sequence, Slot, Unit};
use mont_laws::Retired;

/// How far a unit's operation is.
#[derive(Clone, Copy, Debug, PartialEq, Eq)]
pub enum UnitStage {
    /// No operation is under way.
    Idle,
    /// The epoch is announced, and the clock wasn't looked at since.
    Told { epoch: Epoch },
    /// The unit is registered: it writes with this epoch.
    Within { epoch: Epoch },
    /// The label of a slot is closed, but not yet durably.
    Closing { slot: Slot },
}

/// A slot that is being written.
#[derive(Clone, Copy, Debug, PartialEq, Eq)]
pub struct Writing {
    pub slot: Slot,
    /// The fields stored so far, and 0 for the others.
    pub change: Held,
    /// How many fields were stored.
    pub stored: u64,
}

/// What a unit knows of itself.
#[derive(Debug, Drop)]
pub struct UnitPart {
    pub stage: UnitStage,
    /// Its answered operations.
    pub history: Sequence<Entry>,
    /// What its slots hold.
    pub records: Sequence<Held>,
    /// Superseded records, by the order in which their slots are closed.
    pub retired: Sequence<Retired>,
    /// What the operation under way has written whole.
    pub written: Sequence<Held>,
    pub writing: Option<Writing>,
    /// Open slots beyond the cut, left by a crash.
    pub lost: Sequence<Slot>,
    /// The durable clock that it loaded last.
    pub durable: Epoch,
    /// The caller that was cut in it, if one was.
    pub frozen: Option<u64>,
}

/// How far an advance of the clock is.
#[derive(Clone, Copy, Debug, PartialEq, Eq)]
pub enum AdvPart {
    Rest,
    /// It waits for this unit, and has passed those below.
    Checking { unit: Unit },
    /// It has passed all units. So many of the slots to be written back are durable, and of the
    /// next one the fields below this.
    Flushing { done: u64, field: u64 },
    /// The same, and it has loaded this value of the field.
    Holding { done: u64, field: u64, value: u64 },
    /// The clock has moved, but not yet durably.
    Clocked,
}

/// A unit in which a caller was cut. The caller is named where it is known.
#[derive(Clone, Copy, Debug, PartialEq, Eq)]
pub struct Mark {
    pub unit: Unit,
    pub by: Option<u64>,
}

/// What a caller did and has seen.
#[derive(Debug, Drop)]
pub struct CallerPart {
    /// How many of its calls were answered.
    pub calls: u64,
    pub receipts: Sequence<Receipt>,
    /// Of each unit the number of entries that it has seen.
    pub fronts: Sequence<u64>,
    /// Of each unit the number of entries that it knows to be durable.
    pub synced: Sequence<u64>,
    /// The greatest epoch of what it has seen.
    pub newest: Epoch,
    /// The durable clock that it learnt last.
    pub durable: Epoch,
    /// The units in which it was cut.
    pub cuts: Sequence<Unit>,
    pub marks: Sequence<Mark>,
}

/// What a part showed at an earlier moment.
#[derive(Debug, Drop)]
pub struct Note {
    pub fronts: Sequence<u64>,
    pub newest: Epoch,
    pub durable: Epoch,
    pub marks: Sequence<Mark>,
}

/// The name of a part.
#[derive(Clone, Copy, Debug, PartialEq, Eq)]
pub enum Part {
    Unit { unit: Unit },
    Advancer,
    Caller { caller: u64 },
}

/// The whole machine. Word 0 of the persistent words is the clock.
#[derive(Debug, Drop)]
pub struct Core {
    pub layout: Layout,
    /// The current words.
    pub cur: Sequence<u64>,
    /// The durable words.
    pub dur: Sequence<u64>,
    /// The announcement of each unit: 0, or twice an epoch, and one more where the caller was cut.
    pub told: Sequence<u64>,
    pub units: Sequence<UnitPart>,
    pub advancer: AdvPart,
    /// The units whose announcement the advancer has loaded odd, each once.
    pub odd: Sequence<Unit>,
    pub callers: Sequence<CallerPart>,
}
