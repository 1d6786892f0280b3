// Why a store isn't opened.
ghost use Rattle.std.specs.Prelude.{◌≡◌};
ghost use Rattle.store.specs.declared.open_refusal.OpenRefusal.TheVariants as refusals;

use mont_base::Unit;
use std::alloc::AllocError;

/// Why a store isn't opened.
#[derive(Clone, Copy, Debug, PartialEq, Eq)]
pub enum OpenRefusal {
    /// A map unit has no box, or one that holds so many keys.
    Index { unit: Unit, len: Option<u64> },
    /// There is too little memory.
    Memory,
}

impl From<AllocError> for OpenRefusal {
    ghost from_gives = { λ _ e. e ≡ refusals.Memory };

    fn from(_error: AllocError) -> OpenRefusal {
        OpenRefusal::Memory
    }
}
