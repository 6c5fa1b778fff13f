//! In-memory sources and sinks that move a few bytes a call.
ghost use Rattle.std.specs.Prelude.{◌≡◌, ◌<◌, [], Some};

use crate::io::{Failed, Sink, Source};
use std::alloc::Global;

/// A source over a slice that gives at most `step` bytes a call and never fails.
#[derive(Drop)]
pub struct BytesSource<'a> {
    pub left: &'a [u8],
    pub step: usize,
    ghost goes_on: { 0 < step },
}

impl<'a> BytesSource<'a> {
    pub fn new(left: &'a [u8], step: usize) -> BytesSource<'a>
        requires { 0 < step }
        ensures left { result.left.now ≡ left.now }
        ensures step { result.step ≡ step }
    {
        BytesSource { left, step }
    }
}

impl<'a> Source for BytesSource<'a> {
    ghost left = { λ s. Some s.left.now };

    ghost failed = { λ _. 0 };

    fn pull(&mut self, into: &mut [u8]) -> Result<usize, Failed> {
        let count = self.left.len().min(into.len()).min(self.step);
        let (front, rest) = self.left.split_at(count);
        into[..count].copy_from_slice(front);
        self.left = rest;
        Ok(count)
    }

    fn failures(&self) -> u64 {
        0
    }
}

/// A sink over a `Vec` that takes at most `step` bytes a call, and fails if an allocation does.
#[derive(Drop)]
pub struct BytesSink {
    pub bytes: Vec<u8>,
    pub step: usize,
    pub failures: u64,
    ghost goes_on: { 0 < step },
}

impl BytesSink {
    /// An empty sink.
    pub fn new(alloc: Global, step: usize) -> BytesSink
        requires { 0 < step }
        ensures bytes { result.bytes.items ≡ [] }
        ensures step { result.step ≡ step }
        ensures count { result.failures ≡ 0 }
    {
        BytesSink {
            bytes: Vec::new(alloc),
            step,
            failures: 0,
        }
    }
}

impl Sink for BytesSink {
    ghost taken = { λ s. Some s.bytes.items };

    ghost failed = { λ s. s.failures };

    fn push(&mut self, bytes: &[u8]) -> Result<usize, Failed> {
        let count = bytes.len().min(self.step);
        if self.bytes.extend_from_slice(&bytes[..count]).is_err() {
            self.failures += 1;
            return Err(Failed);
        }
        Ok(count)
    }

    fn flush(&mut self) -> Result<(), Failed> {
        Ok(())
    }

    fn failures(&self) -> u64 {
        self.failures
    }
}
