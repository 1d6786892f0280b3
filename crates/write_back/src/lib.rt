//! The write-back of an epoch: the slots that the units have listed for the epoch before the clock
//! are made durable, word by word, through the advancer's seat. A write-back that was cut goes on
//! from where it stood.
#![tactic(auto)]

mod flush;

pub use flush::Flush;
