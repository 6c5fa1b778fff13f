//! Traces of sources and sinks, for contracts to name. No contract can say which bytes a file has; yet with these one says that a
//! run's text is that of the bytes which its files gave, and was written to the last byte.
ghost use Rattle.std.specs.Prelude.{◌≡◌, ℕ, ◌+◌, ◌<◌, ◌≤◌, ◌^◌, ◌==◌, ◌++◌, Bool, List, [], Option, Some, length, take, is_ok, if◌then◌else◌, false, IfOk, OnErr};
ghost use Rattle.std.specs.Io.KnownBytes.{Consumes, IsAtEnd, Keeps};

use boxcar::tag::{Names, Tag};
use records::io::{Failed, Sink, Source};

/// A source of bytes that traces what it gave.
pub trait TellingSource {
    // The remaining bytes, if known.
    ghost left: { Self → Option (List ℕ) };

    // The bytes given so far.
    ghost given: { Self → List ℕ };

    // Whether the last successful call found the end.
    ghost ended: { Self → Bool };

    // The number of failed calls.
    ghost failed: { Self → ℕ };

    /// Reads the next bytes into the front of `into`. For a nonempty slice, 0 means the end.
    fn pull(&mut self, into: &mut [u8]) -> Result<usize, Failed>
        requires { failed self.old < 2 ^ 63 }
        ensures within { IfOk result (λ n. n ≤ length into.new) }
        ensures bytes { IfOk result (λ n. Consumes (left self.old) (left self.new) (take n into.new)) }
        ensures told { IfOk result (λ n. given self.new ≡ given self.old ++ take n into.new) }
        ensures end { IfOk result (λ n. n ≡ 0 → 0 < length into.new → IsAtEnd (left self.new)) }
        ensures over { IfOk result (λ n. 0 < length into.new → ended self.new ≡ (n == 0)) }
        ensures err { OnErr result (Keeps (left self.old) (left self.new)) }
        ensures none { OnErr result (given self.new ≡ given self.old) }
        ensures count { failed self.new ≡ failed self.old + (if is_ok result then 0 else 1) };
}

/// The trace so far, and what this call gives or takes.
#[derive(Drop)]
struct Step<'a> {
    before: &'a Tag,
    piece: &'a [u8],
}

struct Joined;

impl<'a> Names<Step<'a>> for Joined {
    ghost numbers = { λ step. step.before.now.numbers ++ step.piece.now };
}

/// A source or sink with a ghost trace of what it gave or took.
#[derive(Drop)]
pub struct Telling<S> {
    pub inner: S,
    pub told: Tag,
    is_over: bool,
}

impl<S> Telling<S> {
    /// With an empty trace.
    pub fn new(inner: S) -> Telling<S>
        ensures inner { result.inner ≡ inner }
        ensures told { result.told.numbers ≡ [] }
        ensures over { result.is_over ≡ false }
    {
        Telling {
            inner,
            told: Tag::empty(),
            is_over: false,
        }
    }
}

/// The trace so far, with these bytes appended.
fn told_more(before: &Tag, piece: &[u8]) -> Tag
    ensures { result.numbers ≡ before.now.numbers ++ piece.now }
{
    Tag::of::<Step<'_>, Joined>(&Step { before, piece })
}

impl<S: Source + Drop> TellingSource for Telling<S> {
    ghost left = { λ s. S.left s.inner };

    ghost given = { λ s. s.told.numbers };

    ghost ended = { λ s. s.is_over };

    ghost failed = { λ s. S.failed s.inner };

    fn pull(&mut self, into: &mut [u8]) -> Result<usize, Failed> {
        let count = match self.inner.pull(into) {
            Ok(count) => count,
            Err(Failed) => return Err(Failed),
        };
        self.told = told_more(&self.told, &into[..count]);
        self.is_over = count == 0;
        Ok(count)
    }
}

impl<S: Sink + Drop> Sink for Telling<S> {
    ghost taken = { λ s. Some s.told.numbers };

    ghost failed = { λ s. S.failed s.inner };

    fn push(&mut self, bytes: &[u8]) -> Result<usize, Failed> {
        let count = match self.inner.push(bytes) {
            Ok(count) => count,
            Err(Failed) => return Err(Failed),
        };
        self.told = told_more(&self.told, &bytes[..count]);
        Ok(count)
    }

    fn flush(&mut self) -> Result<(), Failed> {
        self.inner.flush()
    }

    fn failures(&self) -> u64 {
        self.inner.failures()
    }
}
