//! Sources and sinks of bytes, with failures counted.
ghost use Rattle.std.specs.Prelude.{◌≡◌, ℕ, ◌+◌, ◌<◌, ◌≤◌, ◌^◌, List, Option, length, take, is_ok, if◌then◌else◌, IfOk, OnErr};
ghost use Rattle.std.specs.Io.KnownBytes.{Appends, Consumes, IsAtEnd, Keeps};

use std::io::{Read, Write};

/// A call failed, and moved no bytes.
#[derive(Clone, Copy, Debug, PartialEq, Eq)]
pub struct Failed;

/// A source of bytes.
pub trait Source {
    // The remaining bytes, if known.
    ghost left: { Self → Option (List ℕ) };

    // The number of failed calls.
    ghost failed: { Self → ℕ };

    /// Reads the next bytes into the front of `into`. For a nonempty slice, 0 means the end.
    fn pull(&mut self, into: &mut [u8]) -> Result<usize, Failed>
        requires { failed self.old < 2 ^ 63 }
        ensures within { IfOk result (λ n. n ≤ length into.new) }
        ensures bytes { IfOk result (λ n. Consumes (left self.old) (left self.new) (take n into.new)) }
        ensures end { IfOk result (λ n. n ≡ 0 → 0 < length into.new → IsAtEnd (left self.new)) }
        ensures err { OnErr result (Keeps (left self.old) (left self.new)) }
        ensures count { failed self.new ≡ failed self.old + (if is_ok result then 0 else 1) };

    /// The number of failed calls.
    fn failures(&self) -> u64
        ensures { result ≡ failed self.now };
}

/// A sink of bytes.
pub trait Sink {
    // The bytes taken, if known.
    ghost taken: { Self → Option (List ℕ) };

    // The number of failed calls.
    ghost failed: { Self → ℕ };

    /// Takes a prefix, of at least one byte unless the slice is empty.
    fn push(&mut self, bytes: &[u8]) -> Result<usize, Failed>
        requires { failed self.old < 2 ^ 63 }
        ensures within { IfOk result (λ n. n ≤ length bytes.now) }
        ensures some { IfOk result (λ n. 0 < length bytes.now → 0 < n) }
        ensures bytes { IfOk result (λ n. Appends (taken self.old) (taken self.new) (take n bytes.now)) }
        ensures err { OnErr result (Keeps (taken self.old) (taken self.new)) }
        ensures count { failed self.new ≡ failed self.old + (if is_ok result then 0 else 1) };

    /// Flushes what was taken.
    fn flush(&mut self) -> Result<(), Failed>
        requires { failed self.old < 2 ^ 63 }
        ensures bytes { Keeps (taken self.old) (taken self.new) }
        ensures count { failed self.new ≡ failed self.old + (if is_ok result then 0 else 1) };

    /// The number of failed calls.
    fn failures(&self) -> u64
        ensures { result ≡ failed self.now };
}

/// A reader or writer as a source or sink. Each error is a failure, even an interruption, and so is a write that takes no
/// bytes.
#[derive(Drop)]
pub struct Counting<T> {
    pub inner: T,
    pub failures: u64,
}

impl<T> Counting<T> {
    /// Without failures so far.
    pub fn new(inner: T) -> Counting<T>
        ensures inner { result.inner ≡ inner }
        ensures count { result.failures ≡ 0 }
    {
        Counting { inner, failures: 0 }
    }

    /// Counts a failure.
    fn failure(&mut self) -> Failed
        requires { self.old.failures + 1 < 2 ^ 64 }
        ensures { self.new ≡ record self.old { failures = self.old.failures + 1 } }
    {
        self.failures += 1;
        Failed
    }
}

impl<T: Read + Drop> Source for Counting<T> {
    ghost left = { λ s. T.remaining s.inner };

    ghost failed = { λ s. s.failures };

    fn pull(&mut self, into: &mut [u8]) -> Result<usize, Failed> {
        match self.inner.read(into) {
            Ok(count) => Ok(count),
            Err(_) => Err(self.failure()),
        }
    }

    fn failures(&self) -> u64 {
        self.failures
    }
}

impl<T: Write + Drop> Sink for Counting<T> {
    ghost taken = { λ s. T.contents s.inner };

    ghost failed = { λ s. s.failures };

    fn push(&mut self, bytes: &[u8]) -> Result<usize, Failed> {
        match self.inner.write(bytes) {
            Ok(count) if count > 0 || bytes.is_empty() => Ok(count),
            _ => Err(self.failure()),
        }
    }

    fn flush(&mut self) -> Result<(), Failed> {
        match self.inner.flush() {
            Ok(()) => Ok(()),
            Err(_) => Err(self.failure()),
        }
    }

    fn failures(&self) -> u64 {
        self.failures
    }
}
