// Why a program gave up between a layout and the stop of its store.
ghost use Rattle.std.specs.Prelude.{◌≡◌};
ghost use Rattle.store.specs.declared.store_refusal.StoreRefusal.TheVariants as refusals;

use crate::open_refusal::OpenRefusal;
use advance::AdvanceRefusal;
use caller::SyncRefusal;
use mont_base::{BadKinds, BadLayout, CallRefusal, Cut, TextTooLong};
use recover::RecoverRefusal;
use shard_map::ShiftRefusal;
use std::alloc::{AllocError, AllocFailed};

/// Why a program gave up between a layout and the stop of its store. Each refusal on the way
/// becomes one by `?`.
#[derive(Clone, Copy, Debug, PartialEq, Eq)]
pub enum StoreRefusal {
    /// The letters of its units spell no kinds.
    Kinds,
    /// Its units have too few slots or too many.
    Slots,
    /// A text is longer than 24 bytes.
    Text,
    /// An image isn't recovered.
    Image { why: RecoverRefusal },
    /// A gate cut, where no call was made of a store.
    Cut,
    /// The store isn't opened.
    Open { why: OpenRefusal },
    /// A call of a structure isn't answered.
    Call { why: CallRefusal },
    /// A shift between two map units isn't answered.
    Shift { why: ShiftRefusal },
    /// The clock isn't advanced.
    Tick { why: AdvanceRefusal },
    /// What a caller saw doesn't get durable.
    Sync { why: SyncRefusal },
    /// There is too little memory.
    Memory,
}

impl From<BadKinds> for StoreRefusal {
    ghost from_gives = { λ _ e. e ≡ refusals.Kinds };

    fn from(_error: BadKinds) -> StoreRefusal {
        StoreRefusal::Kinds
    }
}

impl From<BadLayout> for StoreRefusal {
    ghost from_gives = { λ _ e. e ≡ refusals.Slots };

    fn from(_error: BadLayout) -> StoreRefusal {
        StoreRefusal::Slots
    }
}

impl From<TextTooLong> for StoreRefusal {
    ghost from_gives = { λ _ e. e ≡ refusals.Text };

    fn from(_error: TextTooLong) -> StoreRefusal {
        StoreRefusal::Text
    }
}

impl From<Cut> for StoreRefusal {
    ghost from_gives = { λ _ e. e ≡ refusals.Cut };

    fn from(_cut: Cut) -> StoreRefusal {
        StoreRefusal::Cut
    }
}

impl From<RecoverRefusal> for StoreRefusal {
    ghost from_gives = { λ why e. e ≡ refusals.Image why };

    fn from(why: RecoverRefusal) -> StoreRefusal {
        StoreRefusal::Image { why }
    }
}

impl From<OpenRefusal> for StoreRefusal {
    ghost from_gives = { λ why e. e ≡ refusals.Open why };

    fn from(why: OpenRefusal) -> StoreRefusal {
        StoreRefusal::Open { why }
    }
}

impl From<CallRefusal> for StoreRefusal {
    ghost from_gives = { λ why e. e ≡ refusals.Call why };

    fn from(why: CallRefusal) -> StoreRefusal {
        StoreRefusal::Call { why }
    }
}

impl From<ShiftRefusal> for StoreRefusal {
    ghost from_gives = { λ why e. e ≡ refusals.Shift why };

    fn from(why: ShiftRefusal) -> StoreRefusal {
        StoreRefusal::Shift { why }
    }
}

impl From<AdvanceRefusal> for StoreRefusal {
    ghost from_gives = { λ why e. e ≡ refusals.Tick why };

    fn from(why: AdvanceRefusal) -> StoreRefusal {
        StoreRefusal::Tick { why }
    }
}

impl From<SyncRefusal> for StoreRefusal {
    ghost from_gives = { λ why e. e ≡ refusals.Sync why };

    fn from(why: SyncRefusal) -> StoreRefusal {
        StoreRefusal::Sync { why }
    }
}

impl From<AllocError> for StoreRefusal {
    ghost from_gives = { λ _ e. e ≡ refusals.Memory };

    fn from(_error: AllocError) -> StoreRefusal {
        StoreRefusal::Memory
    }
}

impl<T: Drop> From<AllocFailed<T>> for StoreRefusal {
    ghost from_gives = { λ _ e. e ≡ refusals.Memory };

    fn from(_error: AllocFailed<T>) -> StoreRefusal {
        StoreRefusal::Memory
    }
}
