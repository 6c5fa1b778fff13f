//! The definitions that crates share: the database, its soundness, the step of a request, and serial execution. They are in
//! `specs/`; `docs/DEFINITIONS.md` explains them. The code is what executing a request and declaring its footprint have in
//! common.
#![tactic(auto)]

pub mod choice;
pub mod laws;
pub mod number;
