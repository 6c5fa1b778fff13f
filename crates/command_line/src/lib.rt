//! Parses the command line of `eve-tpcc` with `clap`.
#![tactic(auto)]

mod command;
mod help;
mod line;
mod matches;
mod words;

pub use line::{Line, LineFault, line_of, line_status};
pub use words::{WordsFault, words_of};
