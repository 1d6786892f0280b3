//! The rule by which a table of atomic words and slots carries the abstract machine: what each seat
//! of the table knows of the machine, and what each step, split and join of seats makes of it.
//!
//! The words are the machine's current and durable words and its announcements, and each unit has
//! two lists of slots in slots of the table. The rule says that there is a core, reached by allowed
//! steps, whose words are the table's and whose parts are what the seats know. Nothing here runs: a
//! layer above makes the steps. Its proofs cite the lemmas in `proofs/`.
#![tactic(auto)]

mod opening_words;
mod plays;
mod rule;
mod seat_moves;
mod views;

pub use opening_words::OpeningWords;
pub use plays::{
    Answer, Checks, ClosesLabel, Confirms, Freezes, GivesEmpty, GivesList, HearsNews, HearsUnit,
    Leaves, LoadsDurable, LoadsWord, Looks, Opened, PersistsClock, PersistsClose, PersistsWord,
    Reads, SeesDurable, SetsClock, Stores, TakesFull, TakesList, Tells, Withdraws,
};
pub use rule::{Opening, Rule};
pub use seat_moves::{
    Callers, CopiesCaller, FirstCaller, FirstUnit, HearsAdvancer, ShowsCaller, TakesCallers,
    TakesNotes, TakesUnits, Whole,
};
pub use views::{
    AdvKnown, CallerKnown, Cell, FullTurn, Learnt, LeftWithin, NoteKnown, UnitKnown, UnitTurn, View,
};
