//! Reads and writes CSV records: the sources and sinks of bytes, records, and their fields.
#![tactic(auto)]

pub mod fail_at;
pub mod fault;
pub mod fields;
pub mod io;
pub mod laws;
pub mod memory_ends;
pub mod reading;
pub mod record_text;
pub mod record_writer;
pub mod slurp;

pub use fail_at::FailAt;
pub use fault::{FaultKind, ReadError};
pub use io::{Counting, Failed, Sink, Source};
pub use memory_ends::{BytesSink, BytesSource};
