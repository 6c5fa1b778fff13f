//! A source or sink that fails at a chosen call.
ghost use Rattle.std.specs.Prelude.{◌≡◌, ◌==◌, ◌+◌, ◌-◌, ◌<◌, ◌^◌};

use crate::io::{Failed, Sink, Source};

/// Fails call number `at`, counted from 0, and each call that `inner` fails.
#[derive(Drop)]
pub struct FailAt<T> {
    pub inner: T,
    pub at: u64,
    pub calls: u64,
    pub failures: u64,
}

impl<T> FailAt<T> {
    /// Before the first call.
    pub fn new(inner: T, at: u64) -> FailAt<T>
        ensures inner { result.inner ≡ inner }
        ensures at { result.at ≡ at }
        ensures calls { result.calls ≡ 0 }
        ensures count { result.failures ≡ 0 }
    {
        FailAt {
            inner,
            at,
            calls: 0,
            failures: 0,
        }
    }

    /// Whether the current call is the one to fail.
    fn fails(&mut self) -> bool
        ensures same { self.new ≡ record self.old { calls = self.new.calls } }
        ensures value { result ≡ (self.old.calls == self.old.at) }
        ensures count { self.old.calls < 2 ^ 64 - 1 → self.new.calls ≡ self.old.calls + 1 }
    {
        let call = self.calls;
        self.calls = call.saturating_add(1);
        call == self.at
    }

    /// Counts a failure.
    fn failure(&mut self) -> Failed
        requires { self.old.failures + 1 < 2 ^ 64 }
        ensures { self.new ≡ record self.old { failures = self.old.failures + 1 } }
    {
        self.failures += 1;
        Failed
    }
}

impl<S: Source + Drop> Source for FailAt<S> {
    ghost left = { λ s. S.left s.inner };

    ghost failed = { λ s. s.failures };

    fn pull(&mut self, into: &mut [u8]) -> Result<usize, Failed> {
        if !self.fails() && self.inner.failures() < 1 << 63 {
            if let Ok(count) = self.inner.pull(into) {
                return Ok(count);
            }
        }
        Err(self.failure())
    }

    fn failures(&self) -> u64 {
        self.failures
    }
}

impl<S: Sink + Drop> Sink for FailAt<S> {
    ghost taken = { λ s. S.taken s.inner };

    ghost failed = { λ s. s.failures };

    fn push(&mut self, bytes: &[u8]) -> Result<usize, Failed> {
        if !self.fails() && self.inner.failures() < 1 << 63 {
            if let Ok(count) = self.inner.push(bytes) {
                return Ok(count);
            }
        }
        Err(self.failure())
    }

    fn flush(&mut self) -> Result<(), Failed> {
        if !self.fails() && self.inner.failures() < 1 << 63 {
            if let Ok(()) = self.inner.flush() {
                return Ok(());
            }
        }
        Err(self.failure())
    }

    fn failures(&self) -> u64 {
        self.failures
    }
}
