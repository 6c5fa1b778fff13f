//! Progress: a line on standard error about once a second.
ghost use Rattle.std.specs.Prelude.{◌≡◌};

use records::io::{Failed, Sink};
use std::io::IsTerminal;
use std::time::{Clock, Instant};
use telling::TellingSource;

/// Whether progress is shown.
#[derive(Clone, Copy)]
pub struct Shown {
    is_shown: bool,
}

impl Shown {
    /// Shown only on a terminal.
    pub fn on(errors: &impl IsTerminal) -> Shown {
        Shown {
            is_shown: errors.is_terminal(),
        }
    }
}

/// A count that is shown as it grows.
#[derive(Drop)]
struct Progress<'a, R> {
    rt: &'a R,
    /// What is counted.
    what: &'a str,
    count: u64,
    /// When the work began or the last line was shown; `None` if none is to be shown.
    since: Option<Instant>,
}

impl<'a, R: Eprint + Clock> Progress<'a, R> {
    fn new(rt: &'a R, what: &'a str, shown: Shown) -> Progress<'a, R> {
        let since = if shown.is_shown {
            Instant::now(rt).ok()
        } else {
            None
        };
        Progress {
            rt,
            what,
            count: 0,
            since,
        }
    }

    /// Whether a second has gone by.
    fn is_due(&self) -> bool {
        match &self.since {
            Some(since) => match since.elapsed(self.rt) {
                Ok(elapsed) => elapsed.as_secs() > 0,
                Err(_) => false,
            },
            None => false,
        }
    }

    /// Adds to the count, and shows it once a second has gone by.
    fn add(&mut self, more: u64) {
        self.count = self.count.saturating_add(more);
        if self.is_due() {
            let _ = eprintln!(self.rt; "eve-tpcc: {} {}", self.count, self.what);
            self.since = Instant::now(self.rt).ok();
        }
    }
}

/// A source or a sink whose bytes are counted.
#[derive(Drop)]
pub struct ShownBytes<'a, R, S> {
    inner: S,
    progress: Progress<'a, R>,
}

impl<R: Eprint + Clock, S: TellingSource + Drop> TellingSource for ShownBytes<'_, R, S> {
    ghost left = { λ s. S.left s.inner };

    ghost given = { λ s. S.given s.inner };

    ghost ended = { λ s. S.ended s.inner };

    ghost failed = { λ s. S.failed s.inner };

    fn pull(&mut self, into: &mut [u8]) -> Result<usize, Failed> {
        let count = self.inner.pull(into)?;
        self.progress.add(count as u64);
        Ok(count)
    }
}

impl<R: Eprint + Clock, S: Sink + Drop> Sink for ShownBytes<'_, R, S> {
    ghost taken = { λ s. S.taken s.inner };

    ghost failed = { λ s. S.failed s.inner };

    fn push(&mut self, bytes: &[u8]) -> Result<usize, Failed> {
        let count = self.inner.push(bytes)?;
        self.progress.add(count as u64);
        Ok(count)
    }

    fn flush(&mut self) -> Result<(), Failed> {
        self.inner.flush()
    }

    fn failures(&self) -> u64 {
        self.inner.failures()
    }
}

/// A source or a sink that shows how many bytes passed.
pub fn shown_bytes<'a, R: Eprint + Clock, S>(
    rt: &'a R,
    inner: S,
    what: &'a str,
    shown: Shown,
) -> ShownBytes<'a, R, S>
    ensures { result.inner ≡ inner }
{
    ShownBytes {
        inner,
        progress: Progress::new(rt, what, shown),
    }
}

/// A sink of replies, whose batches are counted.
#[derive(Drop)]
pub struct ShownBatches<'a, R, S> {
    inner: S,
    progress: Progress<'a, R>,
    /// Whether the next byte is the first of a record.
    is_first: bool,
}

/// A sink of replies that shows how many batches passed.
pub fn shown_batches<'a, R: Eprint + Clock, S>(
    rt: &'a R,
    inner: S,
    shown: Shown,
) -> ShownBatches<'a, R, S>
    ensures { result.inner ≡ inner }
{
    ShownBatches {
        inner,
        progress: Progress::new(rt, "batches done", shown),
        is_first: true,
    }
}

/// The number of batches that end in these bytes of replies: each has one record that begins with `b`.
fn batches_among(is_first: &mut bool, bytes: &[u8]) -> u64 {
    let mut batches = 0u64;
    for byte in bytes {
        if *is_first && *byte == b'b' {
            batches = batches.saturating_add(1);
        }
        *is_first = *byte == b'\n';
    }
    batches
}

impl<R: Eprint + Clock, S: Sink + Drop> Sink for ShownBatches<'_, R, S> {
    ghost taken = { λ s. S.taken s.inner };

    ghost failed = { λ s. S.failed s.inner };

    fn push(&mut self, bytes: &[u8]) -> Result<usize, Failed> {
        let taken = self.inner.push(bytes)?;
        let batches = batches_among(&mut self.is_first, &bytes[..taken]);
        self.progress.add(batches);
        Ok(taken)
    }

    fn flush(&mut self) -> Result<(), Failed> {
        self.inner.flush()
    }

    fn failures(&self) -> u64 {
        self.inner.failures()
    }
}
