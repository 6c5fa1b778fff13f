//! Checks of a loaded database: every parent is there, and the consistency conditions hold (TPC-C clause 3.3.2).
#![tactic(auto)]

mod checks;
mod districts;
mod parents;
mod totals;

pub use checks::check;
