// What a caller has seen.
use mont_base::{Epoch, Sequence};

/// Of each unit the number of entries that the caller has seen, and an epoch that none of them is
/// above.
#[derive(Debug, Drop)]
pub struct View {
    pub fronts: Sequence<u64>,
    pub newest: Epoch,
}
