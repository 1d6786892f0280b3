// The parts of a store that was opened from an image, for those who open its calls.
use heap::{AdvSeat, Heap, Ticket};
use mont_base::{Epoch, Layout, Object};
use plain::Contents;
use slots::Region;

/// The parts of a store that was opened from an image. The regions and the objects stand unit by
/// unit, the tickets caller by caller.
#[derive(Drop)]
pub struct Parts {
    pub layout: Layout,
    /// The clock of the image.
    pub clock: Epoch,
    pub heap: Heap,
    pub regions: Vec<Region>,
    /// The live objects of each unit, by rising slot.
    pub objects: Vec<Vec<Object>>,
    pub contents: Contents,
    pub tickets: Vec<Ticket>,
    pub advancer: AdvSeat,
}
