//! Sessions: each command is answered before the next is read.
#![tactic(auto)]

mod answer_text;
mod answering;
pub mod laws;
mod serving;

pub use serving::{serve, serve_on};
