//! Executes a batch in levels and in order, on the same state, and compares what both give.
use crate::watching::LevelsGate;
use executor::path::Path;
use executor::{Executor, Record};
use requests::{Batch, Verdict, write_reply};
use std::alloc::Global;
use std::thread::Threads;
use tpcc_rows::id::RequestNumber;
use workers::Runtime;

/// What a batch gave in levels, and in order.
#[derive(Drop)]
pub struct Both {
    pub in_levels: Record,
    pub in_order: Record,
}

fn in_order<R: Threads + Sync>(
    runtime: &Runtime<'_, R, LevelsGate>,
    executor: &mut Executor,
    batch: &Batch,
) -> Option<Record> {
    executor
        .execute_sequential(runtime.rt, runtime.alloc, batch)
        .ok()
}

/// Executes a batch in both ways, and leaves it uncommitted. None where memory is refused.
pub fn execute_both<R: Threads + Sync>(
    runtime: &Runtime<'_, R, LevelsGate>,
    executor: &mut Executor,
    batch: &Batch,
    is_levels_first: bool,
) -> Option<Both> {
    let before = executor.sequence();
    if is_levels_first {
        let in_levels = executor.execute(runtime, batch).ok()?;
        executor.rollback_to(before).ok()?;
        let in_order = in_order(runtime, executor, batch)?;
        Some(Both {
            in_levels,
            in_order,
        })
    } else {
        let in_order = in_order(runtime, executor, batch)?;
        executor.rollback_to(before).ok()?;
        let in_levels = executor.execute(runtime, batch).ok()?;
        Some(Both {
            in_levels,
            in_order,
        })
    }
}

/// The text of a record's replies.
fn replies_text(alloc: Global, record: &Record) -> Option<Vec<u8>> {
    let mut text = Vec::new(alloc);
    let mut number = record.first;
    for reply in &record.replies {
        write_reply(alloc, RequestNumber::new(number)?, reply, &mut text).ok()?;
        number = number.saturating_add(1);
    }
    Some(text)
}

impl Both {
    /// Whether replies, numbers and token are the same. None where memory is refused.
    pub fn are_same(&self, alloc: Global) -> Option<bool> {
        let (one, other) = (&self.in_levels, &self.in_order);
        let text = replies_text(alloc, one)?;
        let other_text = replies_text(alloc, other)?;
        Some(
            text == other_text
                && (one.sequence, one.first) == (other.sequence, other.first)
                && one.token == other.token,
        )
    }

    /// Whether the path says that the batch was executed again by its verdict if and only if the verdict asks for it.
    pub fn has_path_of(&self, batch: &Batch) -> bool {
        match self.in_levels.path {
            Path::Parallel | Path::Reran => batch.verdict == Verdict::Commit,
            Path::Verdict => batch.verdict == Verdict::Rerun,
            Path::Sequential => false,
        }
    }
}
