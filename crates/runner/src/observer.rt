//! Observers of runs and sessions.
use executor::Record;
use requests::request::Batch;
use workers::{Gate, NoGate};

/// What a run or a session is doing.
#[derive(Clone, Copy, Debug, PartialEq, Eq)]
pub enum Phase {
    /// Loading the image.
    Load,
    /// Reading batches or commands, or waiting for them, but for a batch that is read while another is served.
    Read,
    /// Executing a batch.
    Execute,
    /// Committing a batch and writing its replies, or answering another command.
    Write,
    /// Writing the image of the last state.
    Store,
}

/// Observer of a run or a session. It can't affect what is executed or written.
pub trait Observer: Gate {
    /// Called when a phase begins, and so the one before it ends.
    fn begins(&self, _: Phase) {}

    /// Called after a batch was executed.
    fn executed(&self, _: &Batch, _: &Record) {}
}

impl Observer for NoGate {}
