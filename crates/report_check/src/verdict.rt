// What comes of holding a report against an image.
use image_units::ImageFault;
use mont_base::{Epoch, Unit};
use std::fmt;

/// What comes of holding a report against an image. The first that holds is answered, in the order
/// of the variants, each at its lowest place.
#[derive(Clone, Copy, Debug, PartialEq, Eq)]
pub enum Verdict {
    /// The layouts differ.
    Layout,
    /// The unit's history fails first at this entry: it isn't legal with it, the run beside the
    /// entry isn't the one that the state after the entries before gives, or the report has no
    /// such caller.
    History { unit: Unit, place: u64 },
    /// This outcome, counted from 0, names no entry, one that isn't the next of its caller, or one
    /// that was named before.
    Outcome { caller: u64, line: u64 },
    /// No outcome names this entry.
    Unnamed { unit: Unit, place: u64 },
    /// Recovery refuses the image.
    Image { fault: ImageFault },
    /// The image has this clock, and the report another.
    Clock { image: Epoch },
    /// What the image or the report holds of this unit isn't what the history leads to up to two
    /// epochs before the clock.
    Contents { unit: Unit },
    /// Report and image agree.
    Yes,
}

impl fmt::Display for Verdict {
    ghost use Rattle.std.specs.Prelude.{Some};
    ghost use Rattle.report_check.specs.VerdictWords.{verdict_words};

    ghost output = { λ verdict. Some (verdict_words verdict) };

    fn fmt<W: fmt::Write>(&self, f: &mut fmt::Formatter<W>) -> fmt::Result {
        match self {
            Verdict::Layout => write!(f, "no layout"),
            Verdict::History { unit, place } => write!(f, "no history {unit} {place}"),
            Verdict::Outcome { caller, line } => write!(f, "no outcome {caller} {line}"),
            Verdict::Unnamed { unit, place } => write!(f, "no unnamed {unit} {place}"),
            Verdict::Image { fault } => write!(f, "no image {fault}"),
            Verdict::Clock { image } => write!(f, "no clock {image}"),
            Verdict::Contents { unit } => write!(f, "no contents {unit}"),
            Verdict::Yes => write!(f, "yes"),
        }
    }
}
