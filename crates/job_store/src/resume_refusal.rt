// Why a job isn't run on what an image holds.
ghost use Rattle.std.specs.Prelude.{◌≡◌};
ghost use Rattle.job_store.specs.ResumeRefusal.{of_image, of_opening};

use image_units::RecoverRefusal;
use mont_base::{Layout, Unit};
use montage::OpenRefusal;

/// Why a job isn't run on what an image holds. The order of the variants is that in which they are
/// tried, but that memory may run out at any time.
#[derive(Clone, Copy, Debug, PartialEq, Eq)]
pub enum ResumeRefusal {
    /// Recovery refuses the image, for another cause than memory.
    Image { why: RecoverRefusal },
    /// The image is of this layout, and the job of another.
    OtherLayout { layout: Layout },
    /// A map unit has no box, or one that holds so many keys.
    Index { unit: Unit, len: Option<u64> },
    /// There is too little memory.
    Memory,
}

impl From<RecoverRefusal> for ResumeRefusal {
    ghost from_gives = { λ why e. e ≡ of_image why };

    fn from(why: RecoverRefusal) -> ResumeRefusal {
        match why {
            RecoverRefusal::Memory => ResumeRefusal::Memory,
            _ => ResumeRefusal::Image { why },
        }
    }
}

impl From<OpenRefusal> for ResumeRefusal {
    ghost from_gives = { λ why e. e ≡ of_opening why };

    fn from(why: OpenRefusal) -> ResumeRefusal {
        match why {
            OpenRefusal::Index { unit, len } => ResumeRefusal::Index { unit, len },
            OpenRefusal::Memory => ResumeRefusal::Memory,
        }
    }
}
