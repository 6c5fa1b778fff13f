//! `--stats`: what a run or a session counts and times, printed at its end.
ghost use Rattle.std.specs.Prelude.{◌≡◌, false};

use crate::peak_memory::peak_memory;
use crate::stopwatch::{Part, Stopwatch};
use crate::summary::Summary;
use crate::tally::Tally;
use executor::Record;
use requests::request::Batch;
use rollback::Dirty;
use runner::{Observer, Phase};
use std::rt::Files;
use std::sync::atomic::{AtomicU64, Ordering};
use std::sync::{Mutex, MutexGuard};
use std::time::{Clock, Instant};
use tpcc_rows::codes::LEAVES;
use tpcc_rows::granule::Granule;
use workers::Gate;

/// What is counted and timed.
#[derive(Drop)]
struct Measured {
    tally: Tally,
    stopwatch: Stopwatch,
}

/// Observer that counts and times, if statistics are wanted.
#[derive(Drop)]
pub struct Statistics<'a, R> {
    rt: &'a R,
    is_wanted: bool,
    /// The number of strays, which several workers may see at the same time.
    strays: AtomicU64,
    /// What the thread that runs the batches measures, and the first stray.
    measured: Mutex<Measured>,
}

impl<'a, R: Clock> Statistics<'a, R> {
    /// Nothing is measured yet.
    pub fn new(rt: &'a R, is_wanted: bool) -> Statistics<'a, R> {
        Statistics {
            rt,
            is_wanted,
            strays: AtomicU64::new(0),
            measured: Mutex::new(Measured {
                tally: Tally::new(),
                stopwatch: Stopwatch::new(),
            }),
        }
    }

    /// What is measured, if statistics are wanted and no other thread has it at the moment.
    fn measured(&self) -> Option<MutexGuard<'_, Measured>> {
        if self.is_wanted {
            self.measured.try_lock()
        } else {
            None
        }
    }

    /// Ends a part, and begins another.
    fn begin(&self, part: Part) {
        if let Some(mut measured) = self.measured() {
            measured.stopwatch.begin(part, Instant::now(self.rt).ok());
        }
    }
}

/// The number of dirty leaves.
fn count_of(dirty: &Dirty) -> usize {
    let mut count = 0usize;
    for leaf in 0..LEAVES {
        if dirty.has(leaf) {
            count = count.saturating_add(1);
        }
    }
    count
}

impl<R: Clock + Sync> Gate for Statistics<'_, R> {
    fn enter(&self, _: usize) {}

    fn leave(&self, _: usize) {}

    /// Nothing is executed for the sake of statistics.
    fn is_told(&self) -> bool
        ensures { result ≡ false }
    {
        false
    }

    fn levels(&self, count: usize) {
        if let Some(mut measured) = self.measured() {
            measured.tally.count_levels(count);
        }
    }

    fn strayed(&self, place: usize, granule: Option<Granule>) {
        self.strays.fetch_add(1, Ordering::SeqCst);
        if let Some(mut measured) = self.measured() {
            measured.tally.see_stray(place, granule);
        }
    }

    fn refreshes(&self, dirty: &Dirty) {
        self.begin(Part::Hash);
        if let Some(mut measured) = self.measured() {
            measured.tally.count_leaves(count_of(dirty));
        }
    }
}

impl<R: Clock + Sync> Observer for Statistics<'_, R> {
    fn begins(&self, phase: Phase) {
        let part = match phase {
            Phase::Load => Part::Load,
            Phase::Read => Part::Read,
            Phase::Execute => Part::Execute,
            Phase::Write => Part::Write,
            Phase::Store => Part::Store,
        };
        self.begin(part);
        if phase == Phase::Execute {
            if let Some(mut measured) = self.measured() {
                measured.tally.begin_batch();
            }
        }
    }

    fn executed(&self, batch: &Batch, record: &Record) {
        if let Some(mut measured) = self.measured() {
            measured.tally.count_batch(batch, record);
        }
    }
}

impl<R: Files + Eprint + AllocGlobal + Clock> Statistics<'_, R>
where
    R::File: Drop,
{
    /// The JSON object, if statistics are wanted and there is memory for it.
    fn text(&self) -> Option<String> {
        let mut measured = self.measured()?;
        measured.stopwatch.stop(Instant::now(self.rt).ok());
        let summary = Summary::new(
            self.rt.alloc(),
            &measured.tally,
            self.strays.load(Ordering::SeqCst),
            measured.stopwatch.times(),
            peak_memory(self.rt),
        );
        serde_json::to_string(self.rt.alloc(), &summary.ok()?).ok()
    }

    /// Prints the JSON object, if statistics are wanted and there is memory for it.
    pub fn print(&self) {
        if let Some(text) = self.text() {
            let _ = eprintln!(self.rt; "{text}");
        }
    }
}
