//! The loop of a run: reads, executes, commits and writes batch after batch.
ghost use Rattle.std.specs.Prelude.{◌≡◌, ◌+◌, ◌<◌, ◌≤◌, ◌^◌, [], length, IfErr, IfOk, None, OnOk, if◌then◌else◌};
ghost use Rattle.std.specs.Io.KnownBytes.{Appends};
ghost use denote.Param.Send.{IsSync};
ghost use Rattle.executor.specs.Chains.{committed, extended};
ghost use Rattle.executor.specs.States.{IsSoundState};
ghost use Rattle.requests.specs.Batches.{batches};
ghost use Rattle.runner.specs.ReadingAhead.{IsNext, IsServed};
ghost use Rattle.runner.specs.Runs.{Completes, IsOfBatches, LeavesBatch, Ran, is_write, chain_on};
ghost use Rattle.runner.specs.Text.{batch_text};
ghost use Rattle.runner.specs.WholeRuns.{LeavesChain};

use crate::fault::RunFault;
use crate::observer::{Observer, Phase};
use crate::text::batch_text;
use executor::{Executor, MOST_REQUESTS};
use records::fault::ReadError;
use records::io::Sink;
use records::slurp::push_all;
use requests::batch_reader::BatchReader;
use requests::request::Batch;
use std::num::NonZeroUsize;
use std::thread::{Threads, available_parallelism, join_mut};
use workers::Runtime;

/// Executes and commits a batch after committed ones, and writes its replies and its record. If there is no memory for that text,
/// the batch is rolled back.
fn serve_batch<R: Threads + Sync, S: Sink, G: Observer>(
    runtime: &Runtime<'_, R, G>,
    executor: &mut Executor,
    batch: &Batch,
    sink: &mut S,
) -> Result<(), RunFault>
    requires alone { executor.old.earlier ≡ [] }
    requires low { 1 ≤ executor.old.present.next }
    requires few { length batch.now.requests ≤ MOST_REQUESTS }
    requires count { S.failed sink.old < 2 ^ 63 }
    ensures completed { OnOk result (Completes executor.old.cards executor.old.present batch.now) }
    ensures chain { OnOk result (executor.new ≡ committed (extended executor.old batch.now)) }
    ensures text { OnOk result (Appends (S.taken sink.old) (S.taken sink.new) (batch_text executor.old.cards executor.old.present batch.now)) }
    ensures err { IfErr result (λ e. LeavesBatch e executor.old executor.new batch.now (S.taken sink.old) (S.taken sink.new)) }
    ensures failures { S.failed sink.new ≡ S.failed sink.old + (if is_write result then 1 else 0) }
{
    let before = executor.sequence();
    runtime.gate.begins(Phase::Execute);
    let record = match executor.execute(runtime, batch) {
        Ok(record) => record,
        Err(refusal) => return Err(RunFault::Exec(refusal)),
    };
    runtime.gate.executed(batch, &record);
    runtime.gate.begins(Phase::Write);
    let Ok(text) = batch_text(runtime.alloc, &record) else {
        executor.rollback_to(before).unwrap();
        return Err(RunFault::Memory);
    };
    executor.commit().unwrap();
    if push_all(sink, text.as_slice()).is_err() {
        return Err(RunFault::Write);
    }
    Ok(())
}

/// Minimum number of requests of a batch during which reading the next one on a thread of its own pays.
const FEWEST_BESIDE: usize = 256;

/// Whether reading the next batch on a thread of its own pays.
fn pays_beside<R: Threads, G>(runtime: &Runtime<'_, R, G>, batch: &Batch) -> bool {
    runtime.workers.count() > 1
        && batch.requests.len() >= FEWEST_BESIDE
        && available_parallelism(runtime.rt).map_or(1, NonZeroUsize::get) > 1
}

/// Serves a batch, and reads the next one: meanwhile, on a new thread if one can be started, where that pays, else afterwards.
fn serve_and_read<R: Threads + Sync, S: Sink, G: Observer>(
    runtime: &Runtime<'_, R, G>,
    executor: &mut Executor,
    batch: &Batch,
    sink: &mut S,
    reader: &mut BatchReader<'_>,
) -> Result<Result<Option<Batch>, ReadError>, RunFault>
    requires alone { executor.old.earlier ≡ [] }
    requires low { 1 ≤ executor.old.present.next }
    requires few { length batch.now.requests ≤ MOST_REQUESTS }
    requires count { S.failed sink.old < 2 ^ 63 }
    ensures next { IfOk result (IsNext reader.old.left reader.new.left) }
    ensures served { IsServed executor.old executor.new batch.now (S.taken sink.old) (S.taken sink.new) result }
    ensures failures { S.failed sink.new ≡ S.failed sink.old + (if is_write result then 1 else 0) }
{
    if !pays_beside(runtime, batch) {
        serve_batch(runtime, executor, batch, sink)?;
        runtime.gate.begins(Phase::Read);
        return Ok(reader.next_batch(runtime.alloc));
    }
    let alloc = runtime.alloc;
    let mut read = || -> Result<Option<Batch>, ReadError>
        ensures { IsNext reader.entry.now.left reader.exit.now.left result }
    { reader.next_batch(alloc) };
    let mut serve = || -> Result<(), RunFault>
        requires { IsSync R.row × (executor.now.earlier ≡ []) × (1 ≤ executor.now.present.next) × (length batch.now.requests ≤ MOST_REQUESTS)
            × (S.failed sink.now < 2 ^ 63) }
        ensures { IsServed executor.entry.now executor.exit.now batch.entry.now (S.taken sink.entry.now) (S.taken sink.exit.now) result
            × (S.failed sink.exit.now ≡ S.failed sink.entry.now + (if is_write result then 1 else 0)) }
    { serve_batch(runtime, executor, batch, sink) };
    let (next, served) = join_mut(runtime.rt, &mut read, &mut serve);
    served?;
    Ok(next)
}

/// Parses, executes, commits and writes the batches of a text. Returns the number of batches.
pub(crate) fn run_batches<R: Threads + Sync, S: Sink, G: Observer>(
    runtime: &Runtime<'_, R, G>,
    executor: &mut Executor,
    text: &[u8],
    sink: &mut S,
) -> Result<u64, RunFault>
    requires alone { executor.old.earlier ≡ [] }
    requires sound { IsSoundState executor.old.cards executor.old.present }
    requires low { 1 ≤ executor.old.present.next }
    requires count { S.failed sink.old < 2 ^ 63 }
    ensures ok { IfOk result (Ran executor.old.cards executor.old.present (batches text.now) (S.taken sink.old) (S.taken sink.new)) }
    ensures chain { OnOk result (executor.new ≡ chain_on executor.old.cards executor.old.present (batches text.now).0) }
    ensures err { IfErr result (λ e. LeavesChain e executor.old.cards executor.old.present text.now (S.taken sink.old) (S.taken sink.new) executor.new) }
    ensures kinds { IfErr result IsOfBatches }
    ensures failures { S.failed sink.new ≡ S.failed sink.old + (if is_write result then 1 else 0) }
{
    let mut reader = match BatchReader::new(runtime.alloc, text) {
        Ok(reader) => reader,
        Err(error) => return Err(RunFault::Read(error)),
    };
    runtime.gate.begins(Phase::Read);
    let mut next = reader.next_batch(runtime.alloc);
    let mut done: u64 = 0;
    'batches: loop {
        let batch = match next {
            Ok(Some(batch)) => batch,
            Ok(None) => break,
            Err(error) => return Err(RunFault::Read(error)),
        };
        next = match serve_and_read(runtime, executor, &batch, sink, &mut reader) {
            Ok(next) => next,
            Err(fault) => return Err(fault),
        };
        done += 1;
    }
    runtime.gate.begins(Phase::Write);
    if sink.flush().is_err() {
        return Err(RunFault::Write);
    }
    Ok(done)
}
