//! The file for the image of a run's last state.
ghost use Rattle.std.specs.Prelude.{◌≡◌, IfOk, Some};

use records::io::{Counting, Failed, Sink};
use std::fs::{OpenFile, OpenOptions};
use std::io;
use std::io::Write;
use std::rt::Files;
use telling::Telling;

/// A file that keeps its contents until the first push truncates it. So it may be the image that the run started from, and a run
/// that stores nothing leaves it as it was.
#[derive(Drop)]
pub struct StoreFile<F> {
    file: Telling<Counting<F>>,
    is_emptied: bool,
}

/// A file to which nothing has been written yet.
fn store_in<F>(file: F) -> StoreFile<F>
    ensures { result.file.inner.failures ≡ 0 }
{
    StoreFile {
        file: Telling::new(Counting::new(file)),
        is_emptied: false,
    }
}

/// Opens the file at `path` for writing, creating it if there is none.
pub fn open_store<R: Files>(rt: &R, path: &str) -> io::Result<StoreFile<R::File>>
    ensures { IfOk result (λ store. store.file.inner.failures ≡ 0) }
{
    let file = OpenOptions::new().write(true).create(true).open(rt, path)?;
    Ok(store_in(file))
}

impl<F: OpenFile> StoreFile<F> {
    /// Truncates the file at the first call. One of length 0, such as a pipe or a device, is left alone.
    fn empty(&self) -> io::Result<()> {
        let file = &self.file.inner.inner;
        if !self.is_emptied && file.metadata()?.len() > 0 {
            file.set_len(0)?;
        }
        Ok(())
    }
}

impl<F: Write + OpenFile + Drop> Sink for StoreFile<F> {
    ghost taken = { λ s. Some s.file.told.numbers };

    ghost failed = { λ s. s.file.inner.failures };

    fn push(&mut self, bytes: &[u8]) -> Result<usize, Failed> {
        if self.empty().is_err() {
            self.file.inner.failures += 1;
            return Err(Failed);
        }
        self.is_emptied = true;
        self.file.push(bytes)
    }

    fn flush(&mut self) -> Result<(), Failed> {
        self.file.flush()
    }

    fn failures(&self) -> u64 {
        self.file.failures()
    }
}
