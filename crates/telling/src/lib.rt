//! Sources and sinks that trace, in contracts, the bytes that they moved; and whole inputs.
#![tactic(auto)]

pub mod ends;
pub mod slurp;

pub use ends::{Telling, TellingSource};
pub use slurp::slurp_told;
