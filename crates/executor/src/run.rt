//! Executes and commits batches one after the other.
ghost use Rattle.std.specs.Prelude.{◌≡◌, map};
ghost use Rattle.executor.specs.Headline.{Headline, completed};
ghost use Rattle.executor.specs.Runs.{IsRunOf, alone};
ghost use Rattle.executor.specs.States.{IsSoundState};

use crate::executor::Executor;
use crate::record::Record;
use crate::refusal::Refusal;
use requests::request::Batch;
use rollback::POINTS;
use std::thread::Threads;
use workers::{Gate, Runtime};

/// How a run ended: the records of the executed batches, and why the next one was refused; `None` after the last batch.
#[derive(Drop)]
pub struct RunEnd {
    pub records: Vec<Record>,
    pub stop: Option<Refusal>,
}

impl Executor {
    /// Executes batches until one is refused, committing every uncommitted batch after each. Space for all records is allocated
    /// first.
    pub fn run<R: Threads + Sync, G: Gate>(
        &mut self,
        runtime: &Runtime<'_, R, G>,
        batches: &[Batch],
    ) -> RunEnd
        ensures headline { Headline self.old.cards self.old.present batches.now (map completed result.records.items) self.new.present }
        ensures run { IsRunOf POINTS self.old self.new batches.now result }
        ensures sound { IsSoundState self.new.cards self.new.present }
    {
        self.keep_sound();
        let Ok(mut records) = Vec::with_capacity(runtime.alloc, batches.len()) else {
            return RunEnd {
                records: Vec::new(runtime.alloc),
                stop: Some(Refusal::Memory),
            };
        };
        for batch in batches {
            match self.execute(runtime, batch) {
                Ok(record) => records.push_reserved(record),
                Err(refusal) => {
                    return RunEnd {
                        records,
                        stop: Some(refusal),
                    };
                }
            }
            self.commit_all();
        }
        RunEnd {
            records,
            stop: None,
        }
    }

    /// Commits every uncommitted batch.
    fn commit_all(&mut self)
        ensures { self.new ≡ alone self.old }
    {
        while self.commit().is_ok() {}
    }
}
