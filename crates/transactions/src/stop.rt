//! Why execution stops.
ghost use Rattle.std.specs.Prelude.{◌≡◌};
ghost use Rattle.transactions.specs.declared.stop.Stop.TheVariants as stop;

use std::alloc::{AllocError, AllocFailed};
use thiserror::Error;
use tpcc_rows::memory::Memory;

/// Why a request, or a level of them, has no outcome.
#[derive(Clone, Copy, Debug, PartialEq, Eq, Error)]
pub enum Stop {
    /// It touches what its view doesn't lend.
    #[error("what the request touches is not within the view")]
    Strayed,
    /// An allocation failed.
    #[error("memory was refused")]
    Memory,
}

impl From<Memory> for Stop {
    ghost from_gives = { λ _ e. e ≡ stop.Memory };

    fn from(_: Memory) -> Stop {
        Stop::Memory
    }
}

impl From<AllocError> for Stop {
    ghost from_gives = { λ _ e. e ≡ stop.Memory };

    fn from(_: AllocError) -> Stop {
        Stop::Memory
    }
}

impl<T: Drop> From<AllocFailed<T>> for Stop {
    ghost from_gives = { λ _ e. e ≡ stop.Memory };

    fn from(_: AllocFailed<T>) -> Stop {
        Stop::Memory
    }
}
