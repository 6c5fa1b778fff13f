//! Why a run that stores its last state fails, and the line that reports it.
ghost use Rattle.std.specs.Prelude.{◌≡◌, ◌++◌, OnErr, OnOk};
ghost use Rattle.runner.specs.FaultText.{store_code_of, store_name_of, stored_fault_text};

use crate::fault::RunFault;
use crate::lines::stored_line;
use thiserror::Error;
use tpcc_rows::memory::Memory;

/// Why the image of a run's last state wasn't written, or not completely.
#[derive(Clone, Copy, Debug, PartialEq, Eq, Error)]
pub enum StoreFault {
    /// The image couldn't be written.
    #[error("the image couldn't be written")]
    Write,
    /// An allocation failed while the image was made.
    #[error("memory was refused for the image")]
    Memory,
}

impl StoreFault {
    /// The number that the fault is reported by.
    pub fn code(self) -> u8
        ensures { result ≡ store_code_of self }
    {
        match self {
            StoreFault::Write => 1,
            StoreFault::Memory => 2,
        }
    }

    /// The name that the fault is reported by.
    pub fn name(self) -> &'static str
        ensures { result.now ≡ store_name_of self }
    {
        match self {
            StoreFault::Write => "Write",
            StoreFault::Memory => "Memory",
        }
    }
}

/// Why a run that stores its last state fails.
#[derive(Clone, Copy, Debug, PartialEq, Eq, Error)]
pub enum StoredRunFault {
    /// The run ended early. The image of its last state was written, unless its output failed or there was no state yet.
    #[error("{0}")]
    Run(RunFault),
    /// The run completed, but the image of its last state wasn't written completely.
    #[error("the stored state: {0}")]
    Store(StoreFault),
    /// The run ended early, and the image of its last state wasn't written completely either.
    #[error("{0}; the stored state: {1}")]
    Both(RunFault, StoreFault),
}

/// Appends the line or lines that report a fault. If an allocation fails, nothing is appended.
pub fn stored_fault_line(fault: &StoredRunFault, out: &mut Vec<u8>) -> Result<(), Memory>
    ensures ok { OnOk result (out.new.items ≡ out.old.items ++ stored_fault_text fault.now) }
    ensures err { OnErr result (out.new.items ≡ out.old.items) }
{
    out.extend_from_slice(stored_line(fault).as_slice())?;
    Ok(())
}
