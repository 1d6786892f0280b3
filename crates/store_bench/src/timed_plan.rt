// What is to be timed.

// What is timed.
#[derive(Clone, Copy)]
pub(crate) enum Subject {
    // Calls of callers.
    Calls { work: Timed, by: Callers },
    // An advance that writes the records of one epoch back.
    Tick,
    // A sync after some puts.
    Sync,
    // The stop of a store.
    Stop,
    // The opening of a store that was never used.
    Open,
    // The opening of a store from an image, with the sweep.
    Recover,
}

// Which call of a structure.
#[derive(Clone, Copy)]
pub(crate) enum Timed {
    Put,
    Get,
    Del,
    Enq,
    Deq,
    AddEdge,
    Degree,
}

// Who calls.
#[derive(Clone, Copy)]
pub(crate) struct Callers {
    // How many callers there are, and as many units.
    pub(crate) many: u64,
    // Whether each calls a unit of its own, or all call all units in turn.
    pub(crate) own: bool,
    // Whether a thread beside them advances the clock without pause.
    pub(crate) advancer: bool,
}

// What is timed, how large it is, and how often it is done.
#[derive(Clone, Copy)]
pub(crate) struct Plan {
    pub(crate) subject: Subject,
    pub(crate) size: u64,
    pub(crate) calls: u64,
}
