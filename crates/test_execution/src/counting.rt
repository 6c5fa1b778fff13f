//! The gate is told of each execution: once of each request of a batch that runs in parallel, twice where it is executed once
//! more. Each place is left before it is entered again.
use std::sync::atomic::{AtomicU64, Ordering};
use workers::Gate;

/// Counts the entries and the leaves, and the calls that are out of turn: a second entry of a place that wasn't left, and a
/// leave of a place that wasn't entered.
#[derive(Drop)]
pub struct CountingGate {
    entries: AtomicU64,
    leaves: AtomicU64,
    out_of_turn: AtomicU64,
    /// A bit for each place that was entered and not left.
    inside: AtomicU64,
}

/// The bit of a place; the batches here have fewer than 64 requests.
fn bit(place: usize) -> u64 {
    1u64 << (place % 64)
}

fn count_one(count: &AtomicU64) {
    count.fetch_add(1, Ordering::SeqCst);
}

impl Gate for CountingGate {
    fn enter(&self, place: usize) {
        count_one(&self.entries);
        let inside = self.inside.fetch_or(bit(place), Ordering::SeqCst);
        if inside & bit(place) != 0 {
            count_one(&self.out_of_turn);
        }
    }

    fn leave(&self, place: usize) {
        count_one(&self.leaves);
        let inside = self.inside.fetch_and(!bit(place), Ordering::SeqCst);
        if inside & bit(place) == 0 {
            count_one(&self.out_of_turn);
        }
    }
}

impl CountingGate {
    pub fn new() -> CountingGate {
        CountingGate {
            entries: AtomicU64::new(0),
            leaves: AtomicU64::new(0),
            out_of_turn: AtomicU64::new(0),
            inside: AtomicU64::new(0),
        }
    }

    /// Whether there were so many entries and leaves, and no call out of turn.
    pub fn has_counted(&self, count: u64) -> bool {
        self.entries.load(Ordering::SeqCst) == count
            && self.leaves.load(Ordering::SeqCst) == count
            && self.out_of_turn.load(Ordering::SeqCst) == 0
    }
}
