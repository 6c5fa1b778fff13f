//! Why a step has no outcome: it is refused, it strays, or memory was refused.
ghost use Rattle.std.specs.Prelude.{◌≡◌};
ghost use Rattle.tpcc_model.specs.Staging.{within};

use requests::reply::RequestRefusal;
use std::alloc::{AllocError, AllocFailed};
use tpcc_rows::memory::Memory;
use worker_rows::Strayed;

#[derive(Clone, Copy)]
pub(crate) enum Fault {
    Refused(RequestRefusal),
    Strayed,
    Memory,
}

/// What is to be within its limits.
pub(crate) fn limited<T>(found: Option<T>) -> Result<T, RequestRefusal>
    ensures { result ≡ within found }
{
    found.ok_or(RequestRefusal::LimitReached)
}

impl From<RequestRefusal> for Fault {
    ghost use Rattle.transactions.specs.Faults.{IsRefused};

    ghost from_gives = { IsRefused };

    fn from(refusal: RequestRefusal) -> Fault {
        Fault::Refused(refusal)
    }
}

impl From<Strayed> for Fault {
    ghost use Rattle.transactions.specs.Faults.{IsStrayed};

    ghost from_gives = { IsStrayed };

    fn from(_: Strayed) -> Fault {
        Fault::Strayed
    }
}

impl From<Memory> for Fault {
    ghost use Rattle.transactions.specs.Faults.{IsMemory};

    ghost from_gives = { IsMemory };

    fn from(_: Memory) -> Fault {
        Fault::Memory
    }
}

impl From<AllocError> for Fault {
    ghost use Rattle.transactions.specs.Faults.{IsMemory};

    ghost from_gives = { IsMemory };

    fn from(_: AllocError) -> Fault {
        Fault::Memory
    }
}

impl<T: Drop> From<AllocFailed<T>> for Fault {
    ghost use Rattle.transactions.specs.Faults.{IsMemory};

    ghost from_gives = { IsMemory };

    fn from(_: AllocFailed<T>) -> Fault {
        Fault::Memory
    }
}
