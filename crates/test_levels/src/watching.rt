//! The gate counts the levels that a batch is executed in.
use std::sync::atomic::{AtomicU64, Ordering};
use workers::Gate;

#[derive(Drop)]
pub struct LevelsGate {
    is_told: bool,
    levels: AtomicU64,
}

impl Gate for LevelsGate {
    fn enter(&self, _: usize) {}

    fn leave(&self, _: usize) {}

    fn is_told(&self) -> bool {
        self.is_told
    }

    fn levels(&self, count: usize) {
        self.levels.store(count as u64, Ordering::SeqCst);
    }
}

impl LevelsGate {
    pub fn new(is_told: bool) -> LevelsGate {
        LevelsGate {
            is_told,
            levels: AtomicU64::new(0),
        }
    }

    /// The number of levels; 0 where the batch wasn't executed in levels.
    pub fn count(&self) -> u64 {
        self.levels.load(Ordering::SeqCst)
    }
}
