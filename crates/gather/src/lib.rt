//! Merges deltas into one.
#![tactic(auto)]

pub mod laws;
mod merging;

pub use merging::merge;
