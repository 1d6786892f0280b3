// The events that a line of a schedule may name, and what each wants.
ghost use Rattle.std.specs.Prelude.{◌≡◌, ◌≢◌, MatchOption};

use crate::wanted::{Figure, Wanted};

/// The first word of a line of a schedule.
#[derive(Clone, Copy, Debug, PartialEq, Eq)]
pub enum Event {
    Look,
    Tell,
    Confirm,
    Store,
    Leave,
    Read,
    Withdraw,
    Freeze,
    Durable,
    Close,
    PersistClose,
    Check,
    LoadWord,
    PersistWord,
    SetClock,
    PersistClock,
}

/// All of them, in the order in which they are told.
pub const EVENTS: [Event; 16] = [
    Event::Look,
    Event::Tell,
    Event::Confirm,
    Event::Store,
    Event::Leave,
    Event::Read,
    Event::Withdraw,
    Event::Freeze,
    Event::Durable,
    Event::Close,
    Event::PersistClose,
    Event::Check,
    Event::LoadWord,
    Event::PersistWord,
    Event::SetClock,
    Event::PersistClock,
];

impl Event {
    ghost use Rattle.refusal_help.specs.declared.event.Event.{Event};
    ghost use Rattle.refusal_help.specs.Table.{event_word, event_args};

    /// How it is spelled.
    pub fn word(self) -> &'static [u8]
        ensures { result.now ≡ event_word self }
    {
        match self {
            Event::Look => b"look",
            Event::Tell => b"tell",
            Event::Confirm => b"confirm",
            Event::Store => b"store",
            Event::Leave => b"leave",
            Event::Read => b"read",
            Event::Withdraw => b"withdraw",
            Event::Freeze => b"freeze",
            Event::Durable => b"durable",
            Event::Close => b"close",
            Event::PersistClose => b"persistclose",
            Event::Check => b"check",
            Event::LoadWord => b"loadword",
            Event::PersistWord => b"persistword",
            Event::SetClock => b"setclock",
            Event::PersistClock => b"persistclock",
        }
    }

    /// What the words after it are to be.
    pub fn args(self) -> &'static [Wanted]
        ensures { result.now ≡ event_args self }
    {
        match self {
            Event::Look | Event::Confirm | Event::Withdraw | Event::PersistClose => &[
                Wanted::Number(Figure::Unit),
            ],
            Event::Tell => &[Wanted::Number(Figure::Unit), Wanted::Number(Figure::Any)],
            Event::Store => &[
                Wanted::Number(Figure::Unit),
                Wanted::Number(Figure::Slot),
                Wanted::Number(Figure::Any),
                Wanted::Number(Figure::Any),
            ],
            Event::Leave | Event::Read => &[
                Wanted::Number(Figure::Unit),
                Wanted::Number(Figure::Caller),
                Wanted::Operation,
            ],
            Event::Freeze => &[Wanted::Number(Figure::Unit), Wanted::Number(Figure::Caller)],
            Event::Durable => &[Wanted::Part],
            Event::Close => &[Wanted::Number(Figure::Unit), Wanted::Number(Figure::Slot)],
            Event::Check
            | Event::LoadWord
            | Event::PersistWord
            | Event::SetClock
            | Event::PersistClock => &[],
        }
    }

    /// The one that a word names.
    pub fn of_word(word: &[u8]) -> Option<Event>
        ensures { MatchOption result ((name : Event) → word.now ≢ event_word name)
            (λ name. word.now ≡ event_word name) }
    {
        for name in EVENTS {
            if name.word() == word {
                return Some(name);
            }
        }
        None
    }
}
