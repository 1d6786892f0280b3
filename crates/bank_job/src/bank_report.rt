// What a run of the bank tells.
use mont_base::{Entry, Epoch, Sequence};
use plain::Contents;

/// What a run of the bank tells.
#[derive(Debug, Drop)]
pub struct BankReport {
    /// Of each unit what the callers were answered.
    pub histories: Sequence<Sequence<Entry>>,
    /// The clock of the image that was left.
    pub image_clock: Epoch,
    /// What recovery finds in that image.
    pub contents: Contents,
}
