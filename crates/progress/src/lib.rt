//! Sources and sinks that show how far a run is, and the file in which its last state is stored. Each passes on what it wraps: by
//! contract its trace is that of the stream below, byte for byte.
#![tactic(auto)]

pub mod progress;
pub mod store_file;
