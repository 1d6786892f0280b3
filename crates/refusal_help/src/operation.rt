// The operations that a line of a job may ask, and what each wants.
ghost use Rattle.std.specs.Prelude.{◌≡◌, ◌≢◌, MatchOption};

use crate::wanted::{Figure, Wanted};
use mont_base::UnitKind;

/// The first word of what a caller asks.
#[derive(Clone, Copy, Debug, PartialEq, Eq)]
pub enum Operation {
    Put,
    Get,
    Del,
    Enq,
    Deq,
    Len,
    AddV,
    DelV,
    AddE,
    DelE,
    Vertex,
    Degree,
    OPut,
    OGet,
    ODel,
    OFloor,
    ORank,
    ORange,
    Tick,
    Sync,
}

/// All of them, in the order in which they are told.
pub const OPERATIONS: [Operation; 20] = [
    Operation::Put,
    Operation::Get,
    Operation::Del,
    Operation::Enq,
    Operation::Deq,
    Operation::Len,
    Operation::AddV,
    Operation::DelV,
    Operation::AddE,
    Operation::DelE,
    Operation::Vertex,
    Operation::Degree,
    Operation::OPut,
    Operation::OGet,
    Operation::ODel,
    Operation::OFloor,
    Operation::ORank,
    Operation::ORange,
    Operation::Tick,
    Operation::Sync,
];

impl Operation {
    ghost use Rattle.refusal_help.specs.declared.operation.Operation.{Operation};
    ghost use Rattle.refusal_help.specs.Table.{operation_word, args_of};

    /// How it is spelled.
    pub fn word(self) -> &'static [u8]
        ensures { result.now ≡ operation_word self }
    {
        match self {
            Operation::Put => b"put",
            Operation::Get => b"get",
            Operation::Del => b"del",
            Operation::Enq => b"enq",
            Operation::Deq => b"deq",
            Operation::Len => b"len",
            Operation::AddV => b"addv",
            Operation::DelV => b"delv",
            Operation::AddE => b"adde",
            Operation::DelE => b"dele",
            Operation::Vertex => b"vertex",
            Operation::Degree => b"degree",
            Operation::OPut => b"oput",
            Operation::OGet => b"oget",
            Operation::ODel => b"odel",
            Operation::OFloor => b"ofloor",
            Operation::ORank => b"orank",
            Operation::ORange => b"orange",
            Operation::Tick => b"tick",
            Operation::Sync => b"sync",
        }
    }

    /// What the words after it are to be.
    pub fn args(self) -> &'static [Wanted]
        ensures { result.now ≡ args_of self }
    {
        match self {
            Operation::Put => &[Wanted::Key, Wanted::Value],
            Operation::Get | Operation::Del => &[Wanted::Key],
            Operation::Enq => &[Wanted::UnitOf(UnitKind::Queue), Wanted::Number(Figure::Any)],
            Operation::Deq | Operation::Len => &[Wanted::UnitOf(UnitKind::Queue)],
            Operation::AddV | Operation::DelE => &[
                Wanted::UnitOf(UnitKind::Graph),
                Wanted::Number(Figure::Any),
                Wanted::Number(Figure::Any),
            ],
            Operation::DelV | Operation::Vertex | Operation::Degree => &[
                Wanted::UnitOf(UnitKind::Graph),
                Wanted::Number(Figure::Any),
            ],
            Operation::AddE => &[
                Wanted::UnitOf(UnitKind::Graph),
                Wanted::Number(Figure::Any),
                Wanted::Number(Figure::Any),
                Wanted::Number(Figure::Any),
            ],
            Operation::OPut => &[
                Wanted::UnitOf(UnitKind::Ordered),
                Wanted::Key,
                Wanted::Value,
            ],
            Operation::OGet | Operation::ODel | Operation::OFloor | Operation::ORank => &[
                Wanted::UnitOf(UnitKind::Ordered),
                Wanted::Key,
            ],
            Operation::ORange => &[
                Wanted::UnitOf(UnitKind::Ordered),
                Wanted::Key,
                Wanted::Key,
                Wanted::Number(Figure::Most),
            ],
            Operation::Tick | Operation::Sync => &[],
        }
    }

    /// The one that a word names.
    pub fn of_word(word: &[u8]) -> Option<Operation>
        ensures { MatchOption result ((name : Operation) → word.now ≢ operation_word name)
            (λ name. word.now ≡ operation_word name) }
    {
        for name in OPERATIONS {
            if name.word() == word {
                return Some(name);
            }
        }
        None
    }
}
