//! Worked runs of the program's devices, what it says where memory ran out, and a run whose callers
//! wait for each other. The crate has tests alone.
#![tactic(auto)]

#[cfg(test)]
mod devices;
#[cfg(test)]
mod meeting;
#[cfg(test)]
mod pieces;
#[cfg(test)]
mod statuses_told;
