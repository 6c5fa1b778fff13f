//! The parsed command line, and why it is refused.
ghost use Rattle.std.specs.Prelude.{◌≡◌, [], IfErr, IfOk, IsSomeAnd, OnOk, map, string_bytes};
ghost use Rattle.clap.specs.Words.{fault_of, kind_of, subcommand_of};
ghost use Rattle.command_line.specs.declared.line.LineFault.TheVariants.{Unread};
ghost use Rattle.command_line.specs.CommandLine.{IsFaultOf, IsLineOf, IsWithinBounds, fault_by};
ghost use Rattle.command_line.specs.CommandLine.{program_app, status_of};

use crate::matches::{line_in, matches_of};
use clap::Error;
use clap::error::ErrorKind;
use std::alloc::{AllocError, Global};
use tickets::Workers;

/// The parsed command line.
#[derive(Debug, Drop)]
pub enum Line {
    /// Executes the batches of a file on the database of an image.
    Run {
        /// The path of the image.
        image: String,
        /// The path of the batches.
        batches: String,
        /// The number of workers; 1 by default.
        workers: Workers,
        /// The path of a file to write the image of the last state to.
        store: Option<String>,
        /// The stamp of the image's state, `SEQ,NEXT,TOKEN`; by default the state is one before any batch.
        from: Option<String>,
        /// Whether to print the stamp of the last state.
        at: bool,
        /// Whether to print statistics.
        stats: bool,
    },
    /// Checks the image of a database.
    Check {
        /// The path of the image.
        image: String,
    },
    /// Generates a database.
    Make {
        /// The number of warehouses.
        warehouses: u8,
        /// The number of customers in each district.
        customers: u16,
        /// The number of items.
        items: u32,
    },
    /// Answers commands on the database of an image.
    Serve {
        /// The path of the image.
        image: String,
        /// The number of workers; 1 by default.
        workers: Workers,
        /// The stamp of the image's state, `SEQ,NEXT,TOKEN`; by default the state is one before any batch.
        from: Option<String>,
        /// Whether to print statistics.
        stats: bool,
    },
}

/// Why the command line is refused.
#[derive(Debug, Drop)]
pub enum LineFault {
    /// `clap` refused the words, or they ask for help or the version. The error prints itself.
    Refused(Error),
    /// Memory ran out; or `clap` accepted the words but has no value for an argument, which isn't known to happen.
    Unread,
}

impl From<AllocError> for LineFault {
    ghost from_gives = { λ _ fault. fault ≡ Unread };

    fn from(_error: AllocError) -> LineFault {
        LineFault::Unread
    }
}

impl From<Error> for LineFault {
    ghost from_gives = { λ error fault. fault ≡ fault_by (kind_of error) error };

    fn from(error: Error) -> LineFault {
        match error.kind() {
            ErrorKind::OutOfMemory => LineFault::Unread,
            _ => LineFault::Refused(error),
        }
    }
}

/// Parses the words of a command line, the program's name first. When memory runs out isn't specified, so `Unread` is possible
/// for any words.
pub fn line_of(alloc: Global, words: Vec<String>) -> Result<Line, LineFault>
    ensures line { IfOk result (λ line.
        IsSomeAnd (subcommand_of program_app (map string_bytes words.items)) (IsLineOf line)) }
    ensures bounds { IfOk result IsWithinBounds }
    ensures accepted { OnOk result (fault_of program_app (map string_bytes words.items) ≡ []) }
    ensures refused { IfErr result (IsFaultOf (fault_of program_app
        (map string_bytes words.items))) }
{
    let matches = matches_of(alloc, words.as_slice())?;
    line_in(alloc, &matches).ok_or(LineFault::Unread)
}

/// The exit status: 0 for a request for help or the version, else 2.
pub fn line_status(fault: &LineFault) -> u8
    ensures { result ≡ status_of fault.now }
{
    match fault {
        LineFault::Refused(error) => match error.kind() {
            ErrorKind::DisplayHelp | ErrorKind::DisplayVersion => 0,
            _ => 2,
        },
        LineFault::Unread => 2,
    }
}
