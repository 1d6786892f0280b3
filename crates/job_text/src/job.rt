// What a job asks.
use mont_base::{Layout, Op, Sequence};

/// What a line of a job asks.
#[derive(Clone, Copy, Debug, PartialEq, Eq)]
pub enum Deed {
    /// An operation.
    Call { op: Op },
    /// One advance of the clock.
    Tick,
    /// A wait until all that the caller has seen is durable.
    Sync,
}

/// A line of a job.
#[derive(Clone, Copy, Debug, PartialEq, Eq)]
pub struct Line {
    pub caller: u64,
    pub deed: Deed,
}

/// After how many steps a caller is cut.
#[derive(Clone, Copy, Debug, PartialEq, Eq)]
pub struct Stop {
    pub who: u64,
    pub steps: u64,
}

/// A job for several callers.
#[derive(Debug, Drop)]
pub struct Job {
    pub layout: Layout,
    pub callers: u64,
    /// How many advances are tried beside the callers.
    pub attempts: u64,
    /// Which words a crash leaves at their current values.
    pub mask: u64,
    pub stops: Sequence<Stop>,
    pub lines: Sequence<Line>,
}

/// What is wrong with a line of a job's text. The faults are tried in this order.
#[derive(Clone, Copy, Debug, PartialEq, Eq)]
pub enum JobFault {
    /// It is line 200,001.
    Many,
    /// It has more than 160 bytes.
    Long,
    /// The text ends in it.
    Unended,
    /// It is the first line and no header.
    Header,
    /// It begins with `stop` and is no stop line that may stand there.
    Stop,
    /// It is no line of an operation that may stand there.
    Operation,
}
