// A schedule of the abstract machine.
use core_steps::Event;
use job_text::Run;
use mont_base::{Layout, Sequence};

/// Events of a store of this layout with so many callers, one after another.
#[derive(Debug, Drop)]
pub struct Schedule {
    pub layout: Layout,
    pub callers: u64,
    pub events: Sequence<Event>,
    /// The runs of ranges, one for each event whose reply is a number of pairs, in their order.
    pub runs: Sequence<Run>,
}
