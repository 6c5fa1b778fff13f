//! Why an image can't be loaded.
ghost use Rattle.std.specs.Prelude.{◌≡◌};
ghost use Rattle.image_records.specs.Faults.{code_of, fault_of, name_of, place_of};
ghost use Rattle.image_records.specs.declared.fault.LoadError.TheVariants as load_error;

use records::fault::FaultKind;
use std::alloc::{AllocError, AllocFailed};
use thiserror::Error;
use tpcc_rows::memory::Memory;

/// Why an image can't be loaded.
#[derive(Clone, Copy, Debug, PartialEq, Eq, Error)]
pub enum LoadError {
    /// The record with this number, counted from 1, is malformed, or of a kind that doesn't belong there.
    #[error("record {0}: no record of an image, or out of its place")]
    BadRecord(u64),
    /// The record with this number has a key that came before.
    #[error("record {0}: its key came before")]
    Duplicate(u64),
    /// A record refers to one that isn't there.
    #[error("a record refers to one that isn't there")]
    MissingParent,
    /// The consistency condition with this number (TPC-C clause 3.3.2) doesn't hold.
    #[error("consistency condition {0} doesn't hold")]
    Inconsistent(u8),
    /// The record with this number has a number outside its limits.
    #[error("record {0}: a number is outside its limits")]
    LimitReached(u64),
    /// An allocation failed.
    #[error("memory was refused")]
    Memory,
    /// The source couldn't be read.
    #[error("the image couldn't be read")]
    Read,
    /// The image has no end record.
    #[error("the image has no end record")]
    Truncated,
    /// The image is longer than the limit.
    #[error("the image is too long")]
    InputTooLong,
}

impl LoadError {
    /// The number that the fault is reported by, 1 to 9.
    pub fn code(self) -> u8
        ensures { result ≡ code_of self }
    {
        match self {
            LoadError::BadRecord(_) => 1,
            LoadError::Duplicate(_) => 2,
            LoadError::MissingParent => 3,
            LoadError::Inconsistent(_) => 4,
            LoadError::LimitReached(_) => 5,
            LoadError::Memory => 6,
            LoadError::Read => 7,
            LoadError::Truncated => 8,
            LoadError::InputTooLong => 9,
        }
    }

    /// The name that the fault is reported by.
    pub fn name(self) -> &'static str
        ensures { result.now ≡ name_of self }
    {
        match self {
            LoadError::BadRecord(_) => "BadRecord",
            LoadError::Duplicate(_) => "Duplicate",
            LoadError::MissingParent => "MissingParent",
            LoadError::Inconsistent(_) => "Inconsistent",
            LoadError::LimitReached(_) => "LimitReached",
            LoadError::Memory => "Memory",
            LoadError::Read => "Read",
            LoadError::Truncated => "Truncated",
            LoadError::InputTooLong => "InputTooLong",
        }
    }

    /// The number of the bad record, if the fault is a record's.
    pub fn record(self) -> Option<u64>
        ensures { result ≡ place_of self }
    {
        match self {
            LoadError::BadRecord(number)
            | LoadError::Duplicate(number)
            | LoadError::LimitReached(number) => Some(number),
            LoadError::MissingParent
            | LoadError::Inconsistent(_)
            | LoadError::Memory
            | LoadError::Read
            | LoadError::Truncated
            | LoadError::InputTooLong => None,
        }
    }
}

impl From<AllocError> for LoadError {
    ghost from_gives = { λ _ e. e ≡ load_error.Memory };

    fn from(_: AllocError) -> LoadError {
        LoadError::Memory
    }
}

impl<T: Drop> From<AllocFailed<T>> for LoadError {
    ghost from_gives = { λ _ e. e ≡ load_error.Memory };

    fn from(_: AllocFailed<T>) -> LoadError {
        LoadError::Memory
    }
}

impl From<Memory> for LoadError {
    ghost from_gives = { λ _ e. e ≡ load_error.Memory };

    fn from(_: Memory) -> LoadError {
        LoadError::Memory
    }
}

/// The fault of the record with this number.
pub fn fault(number: u64, kind: FaultKind) -> LoadError
    ensures { result ≡ fault_of number kind }
{
    match kind {
        FaultKind::OutOfRange => LoadError::LimitReached(number),
        FaultKind::BadField
        | FaultKind::WrongCount
        | FaultKind::UnknownKind
        | FaultKind::BatchTooLong => { LoadError::BadRecord(number) }
    }
}
