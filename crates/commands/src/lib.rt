//! Reads the commands of a session from a text as its bytes arrive: batches to execute, commits, rollbacks and queries.
#![tactic(auto)]

mod chunk;
pub mod command;
pub mod command_reader;
mod command_record;
pub mod laws;
mod machine;
mod reading;
mod record_reader;

pub use command::{Command, Control, Heard, RecordFault};
pub use command_reader::CommandReader;
pub use record_reader::{LAST_RECORD, MOST_BYTES};
