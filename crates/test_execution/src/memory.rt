//! Refused memory: with any one growth refused, a run of three batches answers that memory was refused, or its three records;
//! then the state is that after the last batch that was executed, and the batches that are left have the records that they
//! would have had at once.
use crate::calls::{are_same, execute, run};
use executor::{Executor, Refusal};
use requests::request::Batch;
use std::alloc::Global;
use std::thread::Threads;
use workers::NoGate;

/// Executes and commits so many batches, one request after the other.
fn follow<R: Threads + Sync>(
    rt: &R,
    alloc: Global,
    executor: &mut Executor,
    batches: &[Batch],
    count: usize,
) -> Option<()> {
    for batch in batches.iter().take(count) {
        executor.execute_sequential(rt, alloc, batch).ok()?;
        executor.commit().ok()?;
    }
    Some(())
}

/// Whether both are between the same two batches, with none uncommitted.
fn are_equal(executor: &mut Executor, other: &Executor) -> bool {
    executor.commit() == Err(Refusal::NoSuchPoint)
        && executor.sequence() == other.sequence()
        && executor.next_number() == other.next_number()
        && executor.token() == other.token()
}

/// Whether the batches after so many have the same records in both. None where memory is refused once more.
fn are_resumed<R: Threads + Sync>(
    rt: &R,
    alloc: Global,
    executor: &mut Executor,
    other: &mut Executor,
    batches: &[Batch],
    count: usize,
) -> Option<bool> {
    let mut all = true;
    for batch in batches.iter().skip(count) {
        let record = execute(rt, alloc, executor, batch, 2, &NoGate).ok()?;
        let wanted = execute(rt, alloc, other, batch, 2, &NoGate).ok()?;
        all = are_same(alloc, &record, &wanted)? && all;
    }
    Some(all)
}

/// Whether a run stops for want of memory alone, and the state is that which is reached one request after the other; and
/// whether the batches that are left then do what they do at once. None where memory is refused elsewhere.
pub fn is_whole_or_refused<R: Threads + Sync>(
    rt: &R,
    alloc: Global,
    executor: &mut Executor,
    other: &mut Executor,
    batches: &[Batch],
) -> Option<bool> {
    let (count, stop) = run(rt, alloc, executor, batches)?;
    let stops = match stop {
        None => count == batches.len(),
        Some(refusal) => refusal == Refusal::Memory && count < batches.len(),
    };
    follow(rt, alloc, other, batches, count)?;
    Some(
        stops
            && are_equal(executor, other)
            && are_resumed(rt, alloc, executor, other, batches, count)?,
    )
}
