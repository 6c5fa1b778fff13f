//! Why a run ends early, and the line that reports it.
ghost use Rattle.std.specs.Prelude.{◌≡◌, ◌++◌, OnOk, OnErr};
ghost use Rattle.runner.specs.FaultText.{code_of, condition_of, fault_text, name_of, part_of, place_of};

use crate::lines::run_line;
use executor::Refusal;
use image_records::LoadError;
use records::fault::ReadError;
use thiserror::Error;
use tpcc_rows::memory::Memory;

/// Why a run ends early.
#[derive(Clone, Copy, Debug, PartialEq, Eq, Error)]
pub enum RunFault {
    /// The image can't be loaded.
    #[error("the image: {0}")]
    Load(LoadError),
    /// The batches can't be read, or no further.
    #[error("the batches: {0}")]
    Read(ReadError),
    /// A batch was refused.
    #[error("the run: {0}")]
    Exec(Refusal),
    /// The output couldn't be written.
    #[error("the output couldn't be written")]
    Write,
    /// An allocation failed while a batch's text was made.
    #[error("memory was refused for the output")]
    Memory,
}

impl RunFault {
    /// The part at fault: `image`, `batches`, `run` or `output`.
    pub fn part(self) -> &'static str
        ensures { result.now ≡ part_of self }
    {
        match self {
            RunFault::Load(_) => "image",
            RunFault::Read(_) => "batches",
            RunFault::Exec(_) => "run",
            RunFault::Write | RunFault::Memory => "output",
        }
    }

    /// The number that the fault is reported by.
    pub fn code(self) -> u8
        ensures { result ≡ code_of self }
    {
        match self {
            RunFault::Load(error) => error.code(),
            RunFault::Read(error) => error.code(),
            RunFault::Exec(refusal) => refusal.code(),
            RunFault::Write => 1,
            RunFault::Memory => 2,
        }
    }

    /// The name that the fault is reported by.
    pub fn name(self) -> &'static str
        ensures { result.now ≡ name_of self }
    {
        match self {
            RunFault::Load(error) => error.name(),
            RunFault::Read(error) => error.name(),
            RunFault::Exec(refusal) => refusal.name(),
            RunFault::Write => "Write",
            RunFault::Memory => "Memory",
        }
    }

    /// The number of the bad record, if the fault is a record's.
    pub fn record(self) -> Option<u64>
        ensures { result ≡ place_of self }
    {
        match self {
            RunFault::Load(error) => error.record(),
            RunFault::Read(error) => error.record(),
            RunFault::Exec(_) | RunFault::Write | RunFault::Memory => None,
        }
    }

    /// The number of the consistency condition that doesn't hold, if that is the fault.
    pub fn condition(self) -> Option<u8>
        ensures { result ≡ condition_of self }
    {
        match self {
            RunFault::Load(LoadError::Inconsistent(condition)) => Some(condition),
            _ => None,
        }
    }
}

/// Appends the line that reports a fault: `eve-tpcc: <part>: <code> <Name>`, then `(<k>)` if consistency condition k doesn't
/// hold, or ` at record <n>` if the fault is a record's, and a line feed. If an allocation fails, nothing is appended.
pub fn fault_line(fault: &RunFault, out: &mut Vec<u8>) -> Result<(), Memory>
    ensures ok { OnOk result (out.new.items ≡ out.old.items ++ fault_text fault.now) }
    ensures err { OnErr result (out.new.items ≡ out.old.items) }
{
    out.extend_from_slice(run_line(*fault).as_slice())?;
    Ok(())
}
