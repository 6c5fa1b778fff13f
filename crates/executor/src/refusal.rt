//! Why the executor refuses a call.
ghost use Rattle.std.specs.Prelude.{◌≡◌};
ghost use Rattle.executor.specs.Refusals.{refusal_code, refusal_name};
ghost use Rattle.executor.specs.declared.refusal.Refusal.TheVariants as refusal;

use thiserror::Error;
use tpcc_rows::memory::Memory;

/// Why the executor refuses a call.
#[derive(Clone, Copy, Debug, PartialEq, Eq, Error)]
pub enum Refusal {
    /// An allocation failed.
    #[error("memory was refused")]
    Memory,
    /// The batch has more than 1,024 requests.
    #[error("the batch has more than 1,024 requests")]
    BatchTooLong,
    /// The maximum number of batches is uncommitted.
    #[error("as many batches are uncommitted as may be")]
    PointsFull,
    /// No batch is uncommitted, or no state has the number asked for.
    #[error("there is no such batch to commit, or no such state to go back to")]
    NoSuchPoint,
    /// The batch's number or that of one of its requests would exceed the limit.
    #[error("the numbers of requests or of batches are used up")]
    NumbersExhausted,
}

impl From<Memory> for Refusal {
    ghost from_gives = { λ _ e. e ≡ refusal.Memory };

    fn from(_: Memory) -> Refusal {
        Refusal::Memory
    }
}

impl Refusal {
    /// The number that the refusal is reported by.
    pub fn code(self) -> u8
        ensures { result ≡ refusal_code self }
    {
        match self {
            Refusal::Memory => 1,
            Refusal::BatchTooLong => 2,
            Refusal::PointsFull => 3,
            Refusal::NoSuchPoint => 4,
            Refusal::NumbersExhausted => 5,
        }
    }

    /// The name that the refusal is reported by.
    pub fn name(self) -> &'static str
        ensures { result.now ≡ refusal_name self }
    {
        match self {
            Refusal::Memory => "Memory",
            Refusal::BatchTooLong => "BatchTooLong",
            Refusal::PointsFull => "PointsFull",
            Refusal::NoSuchPoint => "NoSuchPoint",
            Refusal::NumbersExhausted => "NumbersExhausted",
        }
    }
}
