// What the places of a line want.
ghost use Rattle.std.specs.Prelude.{◌≡◌};

use mont_base::UnitKind;

/// A word that stands where it must, whatever the line.
#[derive(Clone, Copy, Debug, PartialEq, Eq)]
pub enum Fixed {
    /// `montage-job`
    JobTitle,
    /// `montage-schedule`
    ScheduleTitle,
    /// `3`
    JobVersion,
    /// `1`
    ScheduleVersion,
    /// `stop`
    Stop,
    /// `=`
    Equals,
}

impl Fixed {
    ghost use Rattle.refusal_help.specs.Table.{fixed_word};

    /// How it is spelled.
    pub fn word(self) -> &'static [u8]
        ensures { result.now ≡ fixed_word self }
    {
        match self {
            Fixed::JobTitle => b"montage-job",
            Fixed::ScheduleTitle => b"montage-schedule",
            Fixed::JobVersion => b"3",
            Fixed::ScheduleVersion => b"1",
            Fixed::Stop => b"stop",
            Fixed::Equals => b"=",
        }
    }
}

/// What a number is of.
#[derive(Clone, Copy, Debug, PartialEq, Eq)]
pub enum Figure {
    /// The slots of a unit.
    Slots,
    /// How many callers there are.
    Callers,
    /// How often the advancer tries.
    Attempts,
    /// How many steps a gate passes.
    Steps,
    /// A gate: a caller's, or the advancer's after them.
    Gate,
    /// A caller.
    Caller,
    /// A unit of any kind.
    Unit,
    /// A slot.
    Slot,
    /// How many pairs a range may have.
    Most,
    /// How many pairs a range has.
    Pairs,
    /// How many workers recover an image.
    Workers,
    /// Any number of 64 bits.
    Any,
}

/// What a place of a line wants.
#[derive(Clone, Copy, Debug, PartialEq, Eq)]
pub enum Wanted {
    /// This word alone.
    Word(Fixed),
    /// A number in its range.
    Number(Figure),
    /// The number of a unit of this kind.
    UnitOf(UnitKind),
    /// A text of at most 24 bytes.
    Key,
    /// A text of at most 24 bytes.
    Value,
    /// The letters of 1 to 16 kinds.
    Kinds,
    /// Sixteen digits in base 16.
    Mask,
    /// The name of an operation, `tick` or `sync`.
    Deed,
    /// The name of an operation.
    Operation,
    /// The name of an event.
    Event,
    /// `unit` or `caller`.
    Part,
    /// The first word of a reply.
    Reply,
    /// The first word of the command line.
    Form,
    /// The name of a file, which is any word.
    File,
}
