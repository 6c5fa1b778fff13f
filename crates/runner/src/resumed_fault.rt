//! Why a resumed run ends early.
use crate::fault::RunFault;
use executor::NumbersTaken;
use thiserror::Error;

/// Why a resumed run ends early.
#[derive(Clone, Copy, Debug, PartialEq, Eq, Error)]
pub enum ResumedFault {
    /// The image can't be loaded, or there is no memory for its executor.
    #[error("{0}")]
    Unopened(RunFault),
    /// A request in the history has the stamp's next number or a greater one.
    #[error("{0}")]
    Taken(NumbersTaken),
    /// The run ended early after it was resumed.
    #[error("{0}")]
    Ended(RunFault),
}
