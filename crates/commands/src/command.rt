//! The commands of a session.
use records::fault::FaultKind;
use requests::request::Batch;

/// A command that is one record.
#[derive(Clone, Copy)]
pub enum Control {
    /// Commits the oldest uncommitted batch.
    Commit,
    /// Rolls back to the state after the batch of this number.
    RollbackTo(u64),
    /// Asks for the present state's number and token.
    State,
    /// Asks for the image of the present state.
    Image,
    /// Asks for the present state's stamp.
    At,
}

/// A command of a session.
#[derive(Drop)]
pub enum Command {
    /// Executes the batch.
    Batch(Batch),
    Control(Control),
}

/// The fault of a record, and the record's number.
#[derive(Clone, Copy)]
pub struct RecordFault {
    pub number: u64,
    pub kind: FaultKind,
}

/// A command, or the fault of a record in its place.
#[derive(Drop)]
pub enum Heard {
    Command(Command),
    Fault(RecordFault),
}
