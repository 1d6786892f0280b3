//! Worked runs of a store whose callers are on threads: callers beside one that moves the clock on,
//! chains of rounds between which the store crashes and recovers, amounts that callers shift, a
//! caller that is held in the middle of a put, and a store that one caller uses for long. What is
//! left is judged by plain structures.
//!
//! The crate has tests alone: beside the store's calls they would have all of it proved again.
#![tactic(auto)]

#[cfg(test)]
mod chained_rounds;
#[cfg(test)]
mod crashed_images;
#[cfg(test)]
mod drawn_operations;
#[cfg(test)]
mod held_put;
#[cfg(test)]
mod judged_stores;
#[cfg(test)]
mod long_use;
#[cfg(test)]
mod meetings;
#[cfg(test)]
mod swept_stores;
#[cfg(test)]
mod threaded_callers;
#[cfg(test)]
mod worked_chains;
