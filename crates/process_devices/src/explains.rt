// What a device tells beside its bytes: why it failed, and what it gave.
use mont_base::{MemSink, MemSource};
use std::io;

/// A device that may tell why it failed.
pub trait Explains {
    /// What the system said of its first failure, where the system was asked.
    fn reason(&self) -> Option<io::Error>;
}

/// A source that may recall what it gave.
pub trait Recalls {
    /// All that it gave, where it is still at hand.
    fn recalled(&self) -> Option<&[u8]>;
}

impl Explains for MemSource {
    fn reason(&self) -> Option<io::Error> {
        None
    }
}

impl Explains for MemSink {
    fn reason(&self) -> Option<io::Error> {
        None
    }
}

impl Recalls for MemSource {
    fn recalled(&self) -> Option<&[u8]> {
        None
    }
}
