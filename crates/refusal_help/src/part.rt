// Whose durable clock an event loads.
ghost use Rattle.std.specs.Prelude.{◌≡◌, ◌≢◌, MatchOption};

use crate::wanted::{Figure, Wanted};

/// The word after `durable`.
#[derive(Clone, Copy, Debug, PartialEq, Eq)]
pub enum Part {
    Unit,
    Caller,
}

/// All of them, in the order in which they are told.
pub const PARTS: [Part; 2] = [Part::Unit, Part::Caller];

impl Part {
    ghost use Rattle.refusal_help.specs.declared.part.Part.{Part};
    ghost use Rattle.refusal_help.specs.Table.{part_word, part_args};

    /// How it is spelled.
    pub fn word(self) -> &'static [u8]
        ensures { result.now ≡ part_word self }
    {
        match self {
            Part::Unit => b"unit",
            Part::Caller => b"caller",
        }
    }

    /// What the words after it are to be.
    pub fn args(self) -> &'static [Wanted]
        ensures { result.now ≡ part_args self }
    {
        match self {
            Part::Unit => &[Wanted::Number(Figure::Unit)],
            Part::Caller => &[Wanted::Number(Figure::Caller)],
        }
    }

    /// The one that a word names.
    pub fn of_word(word: &[u8]) -> Option<Part>
        ensures { MatchOption result ((name : Part) → word.now ≢ part_word name)
            (λ name. word.now ≡ part_word name) }
    {
        for name in PARTS {
            if name.word() == word {
                return Some(name);
            }
        }
        None
    }
}
