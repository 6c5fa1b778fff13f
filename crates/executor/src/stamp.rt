//! The stamp of a state.
use thiserror::Error;

/// What identifies a state: the number of the last batch, the number of the next request, and the last batch's token.
#[derive(Clone, Copy, Default)]
pub struct Stamp {
    pub sequence: u64,
    pub next: u64,
    pub token: [u8; 32],
}

/// The numbers to resume from are already taken by earlier requests.
#[derive(Clone, Copy, Debug, PartialEq, Eq, Error)]
#[error("the next request has the number {least} or a greater one")]
pub struct NumbersTaken {
    /// The lowest number that the next request may have.
    pub least: u64,
}
