//! Why a record can't be read.
ghost use Rattle.std.specs.Prelude.{◌≡◌};
ghost use Rattle.image_records.specs.declared.record_fault.RecordFault.TheVariants as record_fault;

use records::fault::FaultKind;
use std::alloc::{AllocError, AllocFailed};
use tpcc_rows::memory::Memory;

/// Why a record can't be read: what is wrong with it, or that an allocation failed.
#[derive(Clone, Copy)]
pub enum RecordFault {
    OfKind(FaultKind),
    Memory,
}

impl From<FaultKind> for RecordFault {
    ghost from_gives = { λ e fault. fault ≡ record_fault.OfKind e };

    fn from(kind: FaultKind) -> RecordFault {
        RecordFault::OfKind(kind)
    }
}

impl From<Memory> for RecordFault {
    ghost from_gives = { λ _ fault. fault ≡ record_fault.Memory };

    fn from(_: Memory) -> RecordFault {
        RecordFault::Memory
    }
}

impl From<AllocError> for RecordFault {
    ghost from_gives = { λ _ fault. fault ≡ record_fault.Memory };

    fn from(_: AllocError) -> RecordFault {
        RecordFault::Memory
    }
}

impl<T: Drop> From<AllocFailed<T>> for RecordFault {
    ghost from_gives = { λ _ fault. fault ≡ record_fault.Memory };

    fn from(_: AllocFailed<T>) -> RecordFault {
        RecordFault::Memory
    }
}
