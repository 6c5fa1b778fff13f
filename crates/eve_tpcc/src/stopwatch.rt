//! How long each part of a run or a session takes.
use std::time::{Duration, Instant};

/// A part of a run or a session.
#[derive(Clone, Copy)]
pub enum Part {
    Load,
    Read,
    Execute,
    Hash,
    Write,
    Store,
}

/// The time that each part took.
#[derive(Clone, Copy)]
pub struct Times {
    pub load: Duration,
    pub read: Duration,
    pub execute: Duration,
    pub hash: Duration,
    pub write: Duration,
    pub store: Duration,
}

impl Times {
    fn time_of(&mut self, part: Part) -> &mut Duration {
        match part {
            Part::Load => &mut self.load,
            Part::Read => &mut self.read,
            Part::Execute => &mut self.execute,
            Part::Hash => &mut self.hash,
            Part::Write => &mut self.write,
            Part::Store => &mut self.store,
        }
    }
}

/// Measures the time of each part.
#[derive(Drop)]
pub struct Stopwatch {
    part: Part,
    /// When the part began, if the clock could be read.
    since: Option<Instant>,
    times: Times,
}

impl Stopwatch {
    /// Nothing is measured yet.
    pub fn new() -> Stopwatch {
        Stopwatch {
            part: Part::Load,
            since: None,
            times: Times {
                load: Duration::ZERO,
                read: Duration::ZERO,
                execute: Duration::ZERO,
                hash: Duration::ZERO,
                write: Duration::ZERO,
                store: Duration::ZERO,
            },
        }
    }

    /// Ends the part, if one has begun.
    pub fn stop(&mut self, now: Option<Instant>) {
        if let (Some(since), Some(now)) = (self.since, now) {
            let time = self.times.time_of(self.part);
            *time = time.saturating_add(now.duration_since(since));
        }
        self.since = None;
    }

    /// Ends the part, if one has begun, and begins another.
    pub fn begin(&mut self, part: Part, now: Option<Instant>) {
        self.stop(now);
        self.part = part;
        self.since = now;
    }

    /// The times measured so far.
    pub fn times(&self) -> Times {
        self.times
    }
}
