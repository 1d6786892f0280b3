// Causes as sentences.
use crate::cause::{Cause, KindsFault, MaskFault, NumberFault, Range, TextFault, WordFault};
use crate::nouns::{kind_noun, known_words, noun};
use crate::wanted::Wanted;
use std::fmt;

impl fmt::Display for Cause {
    fn fmt<W: fmt::Write>(&self, f: &mut fmt::Formatter<W>) -> fmt::Result {
        match *self {
            Cause::Many { most } => write!(f, "there may be {most} lines"),
            Cause::Long { bytes, most } => {
                write!(f, "the line has {bytes} bytes, and may have {most}")
            }
            Cause::Unended => write!(f, "no line feed ends the line"),
            Cause::Blank => write!(f, "the line is empty"),
            Cause::Comment => write!(f, "the line begins with #, and there are no comments"),
            Cause::Byte { at, byte } => write_byte(f, at, byte),
            Cause::Space { at } => {
                let at = at.saturating_add(1);
                write!(f, "the space at byte {at} doesn't stand between two words")
            }
            Cause::Word { at, wanted, fault } => {
                let at = at.saturating_add(1);
                write!(f, "word {at}: ")?;
                write_fault(f, wanted, fault)
            }
            Cause::Missing { at, wanted } => {
                let at = at.saturating_add(1);
                write!(f, "word {at} is missing: {}", noun(wanted))
            }
            Cause::Extra { most } => write!(f, "there is a word after word {most}, the last"),
            Cause::LateStop => write!(f, "a stop line stands before all lines of callers"),
        }
    }
}

fn write_byte<W: fmt::Write>(f: &mut fmt::Formatter<W>, at: u64, byte: u8) -> fmt::Result {
    let at = at.saturating_add(1);
    if byte == b'\r' {
        write!(
            f,
            "byte {at} is a carriage return, and a line feed alone ends a line"
        )
    } else {
        write!(
            f,
            "byte {at} is \\x{byte:02x}, neither a space nor ASCII that can be seen"
        )
    }
}

fn write_fault<W: fmt::Write>(
    f: &mut fmt::Formatter<W>,
    wanted: Wanted,
    fault: WordFault,
) -> fmt::Result {
    let noun = noun(wanted);
    match fault {
        WordFault::Other => write!(f, "here {noun} is to stand"),
        WordFault::Unknown => write!(f, "{noun} is one of {}", known_words(wanted)),
        WordFault::NoMap => write!(f, "{noun} is one of a map, and there is no map"),
        WordFault::Number(fault) => write_number_fault(f, noun, fault),
        WordFault::Outside { number, range } => write_range(f, noun, number, range),
        WordFault::NoUnit { number, units } => {
            write_range(f, noun, number, Range::Below { end: units })
        }
        WordFault::OtherKind { number, kind } => write_kind(f, wanted, number, kind_noun(kind)),
        WordFault::Text(fault) => write_text_fault(f, noun, fault),
        WordFault::Kinds(fault) => write_kinds_fault(f, fault),
        WordFault::Mask(fault) => write_mask_fault(f, fault),
    }
}

fn write_number_fault<W: fmt::Write>(
    f: &mut fmt::Formatter<W>,
    noun: &str,
    fault: NumberFault,
) -> fmt::Result {
    match fault {
        NumberFault::NoDigits => write!(f, "{noun} is digits alone"),
        NumberFault::LeadingZero => write!(f, "{noun} has a zero in front of other digits"),
        NumberFault::TooLarge => write!(f, "{noun} is above {}", u64::MAX),
    }
}

fn write_range<W: fmt::Write>(
    f: &mut fmt::Formatter<W>,
    noun: &str,
    number: u64,
    range: Range,
) -> fmt::Result {
    match range {
        Range::Any => write!(f, "{noun} is {number}"),
        Range::Below { end } => write!(f, "{noun} is {number}, and there are {end}, from 0 on"),
        Range::Within { least, most } if least <= most => {
            write!(f, "{noun} is {number}, and may be {least} to {most}")
        }
        Range::Within { most, .. } => {
            write!(
                f,
                "{noun} is {number}, and {most}, the last, was named before"
            )
        }
    }
}

fn write_kind<W: fmt::Write>(
    f: &mut fmt::Formatter<W>,
    wanted: Wanted,
    number: u64,
    kind: &str,
) -> fmt::Result {
    match wanted {
        Wanted::UnitOf(asked) => {
            let asked = kind_noun(asked);
            write!(f, "unit {number} is {kind}, and {asked} is wanted")
        }
        _ => write!(f, "unit {number} is {kind}"),
    }
}

fn write_text_fault<W: fmt::Write>(
    f: &mut fmt::Formatter<W>,
    noun: &str,
    fault: TextFault,
) -> fmt::Result {
    match fault {
        TextFault::Empty => write!(f, "{noun} has no bytes, and % alone spells the empty one"),
        TextFault::NoByte { at } => {
            let at = at.saturating_add(1);
            write!(f, "at byte {at} of {noun} no byte is spelled")
        }
        TextFault::Long { bytes } => write!(f, "{noun} has {bytes} bytes, and may have 24"),
    }
}

fn write_kinds_fault<W: fmt::Write>(f: &mut fmt::Formatter<W>, fault: KindsFault) -> fmt::Result {
    match fault {
        KindsFault::Count { kinds } => write!(f, "there are {kinds} kinds, and may be 1 to 16"),
        KindsFault::Letter { at } => {
            let at = at.saturating_add(1);
            write!(f, "letter {at} of the kinds is none of m, q, g and o")
        }
    }
}

fn write_mask_fault<W: fmt::Write>(f: &mut fmt::Formatter<W>, fault: MaskFault) -> fmt::Result {
    match fault {
        MaskFault::Count { digits } => write!(f, "the mask has {digits} digits, and is 16"),
        MaskFault::Digit { at } => {
            let at = at.saturating_add(1);
            write!(f, "digit {at} of the mask is none of 0 to 9 and a to f")
        }
    }
}
