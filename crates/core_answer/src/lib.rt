//! The steps by which a unit of the abstract machine writes records and answers its callers: what
//! it stores into a slot, when it leaves its epoch with an answer, and its reads. Beside them the
//! words, stages and lists of a core, as its other steps use them.
#![tactic(auto)]

pub mod answering;
pub mod core_words;
mod judging;
pub mod lists;
mod newest;
pub mod stages;
pub mod storing;
mod superseding;
mod unfinished;
mod written;
