// What is wrong with an image, in its bytes or in what they hold.
ghost use Rattle.std.specs.Prelude.{◌≡◌};
ghost use Rattle.image_units.specs.Refusals.{fault_of_bytes, fault_of_words};

use crate::fault_words::{object_fault_word, slot_fault_word};
use crate::recovery_refusal::RecoverRefusal;
use mont_base::{ObjectFault, Slot, SlotFault, Unit};
use mont_image::ImageRefusal;
use std::fmt;

/// What is wrong with an image. The first six are faults of its bytes, the others of what they
/// hold, and the order of the variants is that in which they are tried, but that an end within the
/// first five words comes before all.
#[derive(Clone, Copy, Debug, PartialEq, Eq)]
pub enum ImageFault {
    Magic,
    Version,
    Layout,
    Clock,
    Short {
        words: u64,
    },
    Long,
    Slot {
        slot: Slot,
        fault: SlotFault,
    },
    Twice {
        slot: Slot,
        other: Slot,
    },
    Object {
        unit: Unit,
        slot: Slot,
        fault: ObjectFault,
    },
}

impl ImageFault {
    /// The fault for which an image wasn't read; none where its source failed or memory ran out.
    pub fn of_bytes(refusal: ImageRefusal) -> Option<ImageFault>
        ensures { result ≡ fault_of_bytes refusal }
    {
        match refusal {
            ImageRefusal::Magic => Some(ImageFault::Magic),
            ImageRefusal::Version => Some(ImageFault::Version),
            ImageRefusal::Layout => Some(ImageFault::Layout),
            ImageRefusal::Clock => Some(ImageFault::Clock),
            ImageRefusal::Short { words } => Some(ImageFault::Short { words }),
            ImageRefusal::Long => Some(ImageFault::Long),
            ImageRefusal::Read | ImageRefusal::Memory => None,
        }
    }

    /// The fault for which recovery refused an image; none where memory ran out.
    pub fn of_words(refusal: RecoverRefusal) -> Option<ImageFault>
        ensures { result ≡ fault_of_words refusal }
    {
        match refusal {
            RecoverRefusal::Slot { slot, fault } => Some(ImageFault::Slot { slot, fault }),
            RecoverRefusal::Twice { slot, other } => Some(ImageFault::Twice { slot, other }),
            RecoverRefusal::Object { unit, slot, fault } => {
                Some(ImageFault::Object { unit, slot, fault })
            }
            RecoverRefusal::Memory => None,
        }
    }
}

impl fmt::Display for ImageFault {
    ghost use Rattle.std.specs.Prelude.{Some};
    ghost use Rattle.image_units.specs.FaultWords.{fault_words};

    ghost output = { λ fault. Some (fault_words fault) };

    fn fmt<W: fmt::Write>(&self, f: &mut fmt::Formatter<W>) -> fmt::Result {
        match self {
            ImageFault::Magic => write!(f, "magic"),
            ImageFault::Version => write!(f, "version"),
            ImageFault::Layout => write!(f, "layout"),
            ImageFault::Clock => write!(f, "clock"),
            ImageFault::Short { words } => write!(f, "short {words}"),
            ImageFault::Long => write!(f, "long"),
            ImageFault::Slot { slot, fault } => {
                let (name, word) = slot_fault_word(*fault);
                write!(f, "slot {slot} {name} {word}")
            }
            ImageFault::Twice { slot, other } => write!(f, "twice {slot} {other}"),
            ImageFault::Object { unit, slot, fault } => {
                let name = object_fault_word(*fault);
                write!(f, "object {unit} {slot} {name}")
            }
        }
    }
}
