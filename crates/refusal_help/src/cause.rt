// The first thing that is wrong with a line.
use crate::wanted::Wanted;
use mont_base::UnitKind;

/// The numbers that a place takes.
#[derive(Clone, Copy, Debug, PartialEq, Eq)]
pub enum Range {
    /// All of 64 bits.
    Any,
    /// Those of so many things, which are counted from 0.
    Below { end: u64 },
    /// From the first to the second, both of which are among them.
    Within { least: u64, most: u64 },
}

/// Why a word spells no number.
#[derive(Clone, Copy, Debug, PartialEq, Eq)]
pub enum NumberFault {
    /// A byte is no digit, or there is none.
    NoDigits,
    /// A zero stands before other digits.
    LeadingZero,
    /// It is digits alone, of a number above 2^64 - 1.
    TooLarge,
}

/// Why a word spells no key and no value.
#[derive(Clone, Copy, Debug, PartialEq, Eq)]
pub enum TextFault {
    /// The word has no bytes; the empty text is `%`.
    Empty,
    /// After so many bytes of the word no byte of a text is spelled.
    NoByte { at: u64 },
    /// It spells so many bytes, which are too many.
    Long { bytes: u64 },
}

/// Why a word spells no kinds.
#[derive(Clone, Copy, Debug, PartialEq, Eq)]
pub enum KindsFault {
    /// It has so many letters: none, or more than sixteen.
    Count { kinds: u64 },
    /// The letter after so many others is no kind's.
    Letter { at: u64 },
}

/// Why a word spells no mask.
#[derive(Clone, Copy, Debug, PartialEq, Eq)]
pub enum MaskFault {
    /// It has so many bytes, and not sixteen.
    Count { digits: u64 },
    /// The byte after so many others is no digit in base 16.
    Digit { at: u64 },
}

/// Why a word isn't what its place wants.
#[derive(Clone, Copy, Debug, PartialEq, Eq)]
pub enum WordFault {
    /// It isn't the one word that may stand there.
    Other,
    /// It names none of those that there are.
    Unknown,
    /// It names an operation of a map, and the layout has no map unit.
    NoMap,
    Number(NumberFault),
    /// It is this number, which isn't in the range.
    Outside { number: u64, range: Range },
    /// There are only so many units.
    NoUnit { number: u64, units: u64 },
    /// The unit of this number is of this kind, and another is wanted.
    OtherKind { number: u64, kind: UnitKind },
    Text(TextFault),
    Kinds(KindsFault),
    Mask(MaskFault),
}

/// The first thing that is wrong with a line. Places are counted from 0.
#[derive(Clone, Copy, Debug, PartialEq, Eq)]
pub enum Cause {
    /// The text has so many lines at most.
    Many {
        most: u64,
    },
    /// The line has so many bytes, and may have so many.
    Long {
        bytes: u64,
        most: u64,
    },
    /// No line feed ends it.
    Unended,
    /// It has no bytes.
    Blank,
    /// It begins with `#`.
    Comment,
    /// At this place stands a byte that isn't ASCII that can be seen, and no space either.
    Byte {
        at: u64,
        byte: u8,
    },
    /// The space at this place doesn't stand between two words.
    Space {
        at: u64,
    },
    /// The word at this place isn't what is wanted there.
    Word {
        at: u64,
        wanted: Wanted,
        fault: WordFault,
    },
    /// The words end before this place.
    Missing {
        at: u64,
        wanted: Wanted,
    },
    /// There are words after the last that may stand, of which there are so many.
    Extra {
        most: u64,
    },
    /// A stop line stands after a line of a caller.
    LateStop,
}
