//! That a store may be shared by threads, whatever their number: a law of its type, with no code.
#![tactic(auto)]
