// Why recovery refuses an image.
ghost use Rattle.std.specs.Prelude.{◌≡◌};
ghost use Rattle.image_units.specs.declared.recovery_refusal.RecoverRefusal.TheVariants.{Memory};
ghost use Rattle.image_units.specs.Refusals.{of_build, of_scan};

use crate::fault_words::{object_fault_word, slot_fault_word};
use mont_base::{ObjectFault, Slot, SlotFault, Unit};
use plain::BuildRefusal;
use scan::ScanRefusal;
use std::alloc::{AllocError, AllocFailed};
use std::fmt;

/// Why recovery refuses an image. The order of the variants is that in which they are tried, each
/// in all of the image.
#[derive(Clone, Copy, Debug, PartialEq, Eq)]
pub enum RecoverRefusal {
    /// The lowest slot within the cut that holds no record, and its first fault.
    Slot {
        slot: Slot,
        fault: SlotFault,
    },
    /// The lowest slot whose record has the identity and version of one in a lower slot of its
    /// unit, which is the other.
    Twice {
        slot: Slot,
        other: Slot,
    },
    /// The lowest unit whose live objects make no structure, the first object with a fault, and its
    /// first fault.
    Object {
        unit: Unit,
        slot: Slot,
        fault: ObjectFault,
    },
    /// There was too little memory.
    Memory,
}

impl RecoverRefusal {
    /// What it means for recovery that a unit's structure wasn't built.
    pub fn of_build(unit: Unit, refusal: BuildRefusal) -> RecoverRefusal
        ensures { result ≡ of_build unit refusal }
    {
        match refusal {
            BuildRefusal::Object { slot, fault } => RecoverRefusal::Object { unit, slot, fault },
            BuildRefusal::Memory => RecoverRefusal::Memory,
        }
    }
}

impl From<ScanRefusal> for RecoverRefusal {
    ghost from_gives = { λ refusal e. e ≡ of_scan refusal };

    fn from(refusal: ScanRefusal) -> RecoverRefusal {
        match refusal {
            ScanRefusal::Slot { slot, fault } => RecoverRefusal::Slot { slot, fault },
            ScanRefusal::Memory => RecoverRefusal::Memory,
        }
    }
}

impl From<AllocError> for RecoverRefusal {
    ghost from_gives = { λ _ e. e ≡ Memory };

    fn from(_error: AllocError) -> RecoverRefusal {
        RecoverRefusal::Memory
    }
}

impl<T: Drop> From<AllocFailed<T>> for RecoverRefusal {
    ghost from_gives = { λ _ e. e ≡ Memory };

    fn from(_error: AllocFailed<T>) -> RecoverRefusal {
        RecoverRefusal::Memory
    }
}

impl fmt::Display for RecoverRefusal {
    ghost use Rattle.std.specs.Prelude.{Some};
    ghost use Rattle.image_units.specs.FaultWords.{refusal_words};

    ghost output = { λ refusal. Some (refusal_words refusal) };

    fn fmt<W: fmt::Write>(&self, f: &mut fmt::Formatter<W>) -> fmt::Result {
        match self {
            RecoverRefusal::Slot { slot, fault } => {
                let (name, word) = slot_fault_word(*fault);
                write!(f, "slot {slot} {name} {word}")
            }
            RecoverRefusal::Twice { slot, other } => write!(f, "twice {slot} {other}"),
            RecoverRefusal::Object { unit, slot, fault } => {
                let name = object_fault_word(*fault);
                write!(f, "object {unit} {slot} {name}")
            }
            RecoverRefusal::Memory => write!(f, "out of memory"),
        }
    }
}
