//! Faults in an input.
ghost use Rattle.std.specs.Prelude.{◌≡◌};
ghost use Rattle.records.specs.Faults.{code_of, name_of, place_of};
ghost use Rattle.records.specs.declared.fault.ReadError.TheVariants as read_error;

use std::alloc::{AllocError, AllocFailed};
use thiserror::Error;
use tpcc_rows::memory::Memory;

/// Why an input yields no batch. A number is the faulty record's, counted from 1.
#[derive(Clone, Copy, Debug, PartialEq, Eq, Error)]
pub enum ReadError {
    /// A field isn't a number, text, verdict or form of choice.
    #[error("record {0}: a field isn't of its kind")]
    BadField(u64),
    /// A record has too few or too many fields, or is missing.
    #[error("record {0}: a wrong number of fields or of records")]
    WrongCount(u64),
    /// A number is outside its limits.
    #[error("record {0}: a number is outside its limits")]
    OutOfRange(u64),
    /// A record of this kind doesn't belong here.
    #[error("record {0}: another kind of record is wanted here")]
    UnknownKind(u64),
    /// A batch has more requests than the limit.
    #[error("record {0}: the batch has too many requests")]
    BatchTooLong(u64),
    /// An allocation failed.
    #[error("memory was refused")]
    Memory,
    /// The source failed.
    #[error("the input couldn't be read")]
    Read,
    /// The input has more bytes than the limit.
    #[error("the input is too long")]
    InputTooLong,
}

impl ReadError {
    /// The number by which the fault is reported, 1 to 8.
    pub fn code(self) -> u8
        ensures { result ≡ code_of self }
    {
        match self {
            ReadError::BadField(_) => 1,
            ReadError::WrongCount(_) => 2,
            ReadError::OutOfRange(_) => 3,
            ReadError::UnknownKind(_) => 4,
            ReadError::BatchTooLong(_) => 5,
            ReadError::Memory => 6,
            ReadError::Read => 7,
            ReadError::InputTooLong => 8,
        }
    }

    /// The name by which the fault is reported.
    pub fn name(self) -> &'static str
        ensures { result.now ≡ name_of self }
    {
        match self {
            ReadError::BadField(_) => "BadField",
            ReadError::WrongCount(_) => "WrongCount",
            ReadError::OutOfRange(_) => "OutOfRange",
            ReadError::UnknownKind(_) => "UnknownKind",
            ReadError::BatchTooLong(_) => "BatchTooLong",
            ReadError::Memory => "Memory",
            ReadError::Read => "Read",
            ReadError::InputTooLong => "InputTooLong",
        }
    }

    /// The number of the faulty record, if the fault is a record's.
    pub fn record(self) -> Option<u64>
        ensures { result ≡ place_of self }
    {
        match self {
            ReadError::BadField(number)
            | ReadError::WrongCount(number)
            | ReadError::OutOfRange(number)
            | ReadError::UnknownKind(number)
            | ReadError::BatchTooLong(number) => Some(number),
            ReadError::Memory | ReadError::Read | ReadError::InputTooLong => None,
        }
    }
}

impl From<AllocError> for ReadError {
    ghost from_gives = { λ _ e. e ≡ read_error.Memory };

    fn from(_: AllocError) -> ReadError {
        ReadError::Memory
    }
}

impl<T: Drop> From<AllocFailed<T>> for ReadError {
    ghost from_gives = { λ _ e. e ≡ read_error.Memory };

    fn from(_: AllocFailed<T>) -> ReadError {
        ReadError::Memory
    }
}

impl From<Memory> for ReadError {
    ghost from_gives = { λ _ e. e ≡ read_error.Memory };

    fn from(_: Memory) -> ReadError {
        ReadError::Memory
    }
}

/// What is wrong with a record.
#[derive(Clone, Copy, PartialEq, Eq)]
pub enum FaultKind {
    BadField,
    WrongCount,
    OutOfRange,
    UnknownKind,
    BatchTooLong,
}
