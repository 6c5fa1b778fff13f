//! Input files as the command line names them: `-` is standard input, read where its descriptor stands.

use std::fs::OpenFile;
use std::rt::Files;
use std::{fs, io};

/// The name of standard input.
const STANDARD_INPUT: &str = "-";

/// Whether a name stands for standard input.
pub fn is_standard_input(name: &str) -> bool {
    name == STANDARD_INPUT
}

/// Opens the file at `path` for reading. A directory, which could be opened but not read, is refused.
pub fn open_input<R: Files>(rt: &R, path: &str) -> io::Result<R::File> {
    let file = fs::open(rt, path)?;
    if file.metadata()?.is_dir() {
        return Err(io::Error::from(io::ErrorKind::IsADirectory));
    }
    Ok(file)
}

/// Takes the descriptors of standard streams that are closed, so that no file opened later gets them, whose bytes would then be read
/// as input or overwritten by messages. Writing to one of these fails, as to a closed one.
pub fn hold_closed<R: Files>(rt: &R) -> [Option<R::File>; 3] {
    [
        fs::open(rt, "/dev/null").ok(),
        fs::open(rt, "/dev/null").ok(),
        fs::open(rt, "/dev/null").ok(),
    ]
}
