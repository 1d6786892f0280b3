// What a seat of the table knows. No value of a view is ever made.
use core_steps::{AdvPart, CallerPart, Note, UnitPart};
use mont_base::{Entry, Epoch, Sequence, Slot, SlotList, Unit};

/// What a slot of the table holds: a list, or nothing while the list is out.
pub type Cell = Option<SlotList>;

/// The newest epoch and the greatest durable clock of the notes that a part has taken.
#[derive(Clone, Copy)]
pub struct Learnt {
    pub newest: Epoch,
    pub durable: Epoch,
}

/// Whether a unit has its list out, and which slots it has pushed after those of its records.
#[derive(Drop)]
pub struct UnitTurn {
    pub out: bool,
    pub pushed: Sequence<Slot>,
}

/// A unit's part and its turn.
#[derive(Drop)]
pub struct UnitKnown {
    pub unit: Unit,
    /// How many slots there is room for in each of its lists.
    pub room: u64,
    pub part: UnitPart,
    pub turn: UnitTurn,
    /// How many steps it made.
    pub steps: u64,
    /// The word that it loaded last.
    pub loaded: u64,
    pub learnt: Learnt,
    /// Units that have no lost slot.
    pub clean: Sequence<Unit>,
}

/// The lists of the units below `emptied` were given back empty, and that of this unit may be out.
#[derive(Clone, Copy)]
pub struct FullTurn {
    pub emptied: Unit,
    pub out: bool,
}

/// The advancer's part and its turn.
#[derive(Drop)]
pub struct AdvKnown {
    pub part: AdvPart,
    pub clock: Epoch,
    pub durable: Epoch,
    /// The units whose announcement it has loaded odd.
    pub odd: Sequence<Unit>,
    pub units: u64,
    pub room: u64,
    /// Of each unit that it has passed, the slots listed for the epoch before the clock.
    pub lists: Sequence<Sequence<Slot>>,
    pub turn: FullTurn,
    pub steps: u64,
    pub loaded: u64,
    pub learnt: Learnt,
    pub clean: Sequence<Unit>,
}

/// A unit that is left within an epoch, since a caller was cut in it there.
#[derive(Clone, Copy)]
pub struct LeftWithin {
    pub unit: Unit,
    pub epoch: Epoch,
}

/// A caller's part.
#[derive(Drop)]
pub struct CallerKnown {
    pub caller: u64,
    pub part: CallerPart,
    /// Of each unit the entries that it has seen.
    pub entries: Sequence<Sequence<Entry>>,
    /// The units in which it was cut while they were within an epoch.
    pub within: Sequence<LeftWithin>,
    pub steps: u64,
    pub loaded: u64,
    pub clean: Sequence<Unit>,
}

/// A note of a part, and the entries that it has seen.
#[derive(Drop)]
pub struct NoteKnown {
    pub note: Note,
    pub entries: Sequence<Sequence<Entry>>,
    /// The word that the part had loaded last.
    pub loaded: u64,
    pub clean: Sequence<Unit>,
}

/// What one seat knows. Each part stands in the view of one seat.
#[derive(Drop)]
pub struct View {
    pub units: Sequence<UnitKnown>,
    pub advancers: Sequence<AdvKnown>,
    pub callers: Sequence<CallerKnown>,
    pub notes: Sequence<NoteKnown>,
}
