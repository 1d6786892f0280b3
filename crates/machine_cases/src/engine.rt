// A heap with those who work on it.
use advance::Advancer;
use heap::{Heap, UnitSeat};
use heap_pass::Pass;
use mont_base::Fuel;
use slots::Region;

/// A heap, the region of its first unit, the seats of its other units, which stay idle, its
/// advancer, and the pass of its one caller, whose gate all steps ask.
#[derive(Drop)]
pub struct Engine {
    pub heap: Heap,
    pub region: Region,
    pub others: Vec<UnitSeat>,
    pub advancer: Advancer,
    pub pass: Pass<Fuel>,
}
