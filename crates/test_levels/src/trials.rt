//! A database, and the batches that are tried on it one after the other.
use crate::batches::{Sort, batch};
use crate::comparing::{Both, execute_both};
use crate::dice::Dice;
use crate::seen::Seen;
use crate::watching::LevelsGate;
use executor::Executor;
use hashers::Host;
use made_database::make;
use requests::Batch;
use std::alloc::Global;
use std::thread::Threads;
use workers::{Gate, Runtime, Workers};

/// So many batches of a hundred are committed, so that the database doesn't grow far.
const COMMITS: u8 = 10;

/// The most workers of a batch.
const MOST_WORKERS: usize = 8;

#[derive(Drop)]
pub struct Trials {
    executor: Executor,
    dice: Dice,
    pub seen: Seen,
}

/// From two to eight workers, in turn.
fn workers_of(turn: u64) -> Option<Workers> {
    Workers::new(2 + (turn % 7) as usize)
}

impl Trials {
    /// A hundred warehouses without orders.
    pub fn open<R: Threads + Sync>(rt: &R, alloc: Global) -> Option<Trials> {
        let (catalog, store) = make(alloc, 100, 3, 5).ok()?;
        Some(Trials {
            executor: Executor::new(rt, alloc, catalog, store).ok()?,
            dice: Dice::new(2012),
            seen: Seen::NOTHING,
        })
    }

    /// Starts threads that help with hashing from now on.
    pub fn keep_threads<R: Host>(&mut self, rt: R, alloc: Global) {
        if let Some(workers) = Workers::new(MOST_WORKERS) {
            self.executor.keep_threads(rt, alloc, workers);
        }
    }

    /// Executes a batch in both ways, and counts it.
    fn execute<R: Threads + Sync>(
        &mut self,
        runtime: &Runtime<'_, R, LevelsGate>,
        batch: &Batch,
    ) -> Option<Both> {
        let is_levels_first = self.dice.comes(50);
        let both = execute_both(runtime, &mut self.executor, batch, is_levels_first)?;
        let requests = batch.requests.len() as u64;
        let path = both.in_levels.path;
        self.seen.add(requests, runtime.gate.count(), runtime.gate.is_told(), path);
        Some(both)
    }

    /// Commits the last batch, or rolls it back.
    fn settle(&mut self, before: u64) -> Option<()> {
        if self.dice.comes(COMMITS) {
            self.executor.commit().ok()?;
            return Some(());
        }
        self.executor.rollback_to(before).ok()
    }

    /// Whether the batch of a turn gives in levels what it gives in order. None where memory is refused.
    pub fn holds<R: Threads + Sync>(&mut self, rt: &R, alloc: Global, turn: u64) -> Option<bool> {
        let sort = Sort::of(turn);
        let batch = batch(alloc, &mut self.dice, sort, turn)?;
        let before = self.executor.sequence();
        let gate = LevelsGate::new(sort.is_told());
        let runtime = Runtime {
            rt,
            alloc,
            workers: workers_of(turn)?,
            gate: &gate,
        };
        let both = self.execute(&runtime, &batch)?;
        self.settle(before)?;
        Some(both.are_same(alloc)? && both.has_path_of(&batch))
    }
}
