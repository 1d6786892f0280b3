// What a run of a job reports.
use crate::outcome::Outcome;
use mont_base::{Entry, Epoch, Layout, Sequence, Text};
use plain::Contents;

/// The pairs that a range gave, by rising key.
pub type Run = Sequence<(Text, Text)>;

/// A report of a run of a job: what the store held when it began, what its callers did, and what a
/// crash at the end leaves of it.
#[derive(Debug, Drop)]
pub struct Report {
    pub layout: Layout,
    pub callers: u64,
    /// The clock when the run began.
    pub base_clock: Epoch,
    pub base: Contents,
    /// The history of each unit.
    pub histories: Sequence<Sequence<Entry>>,
    /// The runs of each unit, one for each reply of pairs in its history, in their order.
    pub runs: Sequence<Sequence<Run>>,
    /// What came of each line, caller by caller.
    pub outcomes: Sequence<Sequence<Outcome>>,
    /// The clock of the image that the crash leaves.
    pub image_clock: Epoch,
    /// What recovery finds in that image.
    pub contents: Contents,
}
