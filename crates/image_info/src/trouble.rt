// Why nothing is shown, or not all of it.
ghost use Rattle.std.specs.Prelude.{◌≡◌};
ghost use Rattle.image_info.specs.declared.trouble.Trouble.TheVariants as troubles;
ghost use Rattle.image_info.specs.Trouble.{exit_code_of, trouble_of_bytes, trouble_of_reading};

use image_units::ImageFault;
use mont_image::ImageRefusal;
use source_bytes::ReadRefusal;
use std::alloc::AllocError;

/// Why nothing is shown, or not all of it.
#[derive(Clone, Copy, Debug, PartialEq, Eq)]
pub(crate) enum Trouble {
    /// Standard input failed.
    Read,
    /// Standard output failed.
    Write,
    /// The bytes are the text of no image, for this fault.
    NoImage { fault: ImageFault },
    /// Memory ran out.
    Memory,
}

/// The exit code of the process.
pub(crate) fn exit_code(shown: &Result<(), Trouble>) -> u8
    ensures { result ≡ exit_code_of shown.now }
{
    match shown {
        Ok(()) => 0,
        Err(Trouble::Read) => 5,
        Err(Trouble::Write) => 6,
        Err(Trouble::Memory) => 7,
        Err(Trouble::NoImage { .. }) => 10,
    }
}

impl From<AllocError> for Trouble {
    ghost from_gives = { λ _ trouble. trouble ≡ troubles.Memory };

    fn from(_error: AllocError) -> Trouble {
        Trouble::Memory
    }
}

impl From<ReadRefusal> for Trouble {
    ghost from_gives = { λ refusal trouble. trouble ≡ trouble_of_reading refusal };

    fn from(refusal: ReadRefusal) -> Trouble {
        match refusal {
            ReadRefusal::Read => Trouble::Read,
            ReadRefusal::Memory => Trouble::Memory,
        }
    }
}

// The bytes stand in memory by then, and a source in memory never fails.
impl From<ImageRefusal> for Trouble {
    ghost from_gives = { λ refusal trouble. trouble ≡ trouble_of_bytes refusal };

    fn from(refusal: ImageRefusal) -> Trouble {
        match ImageFault::of_bytes(refusal) {
            Some(fault) => Trouble::NoImage { fault },
            None => Trouble::Memory,
        }
    }
}
