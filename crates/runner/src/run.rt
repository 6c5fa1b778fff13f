//! `run`: executes the batches of a text on the database of an image.
ghost use Rattle.std.specs.Prelude.{◌≡◌, ◌+◌, ◌<◌, ◌≤◌, ◌^◌, [], true, IfErr, IfOk, OnOk, if◌then◌else◌};
ghost use Rattle.executor.specs.States.{IsSoundState};
ghost use Rattle.runner.specs.Runs.{IsOfBatches, is_write};
ghost use Rattle.runner.specs.WholeRuns.{IsOfDatabase, LeavesChain, LeavesRun, RanFrom, RanWhole, is_batches_read, is_image_read, chain_after};
ghost use Rattle.telling.specs.Told.{OfSource};

use crate::fault::RunFault;
use crate::observer::{Observer, Phase};
use crate::opening::load_told;
use crate::reading::read_batches;
use crate::serving::run_batches;
use executor::Executor;
use hashers::Host;
use records::io::Sink;
use telling::TellingSource;
use workers::Runtime;

/// Starts helper threads, and runs the batches of a text from the executor's present state on.
pub(crate) fn run_given<R: Host, S: Sink, G: Observer>(
    runtime: &Runtime<'_, R, G>,
    executor: &mut Executor,
    text: Vec<u8>,
    sink: &mut S,
) -> Result<u64, RunFault>
    requires alone { executor.old.earlier ≡ [] }
    requires sound { IsSoundState executor.old.cards executor.old.present }
    requires low { 1 ≤ executor.old.present.next }
    requires sink { S.failed sink.old < 2 ^ 63 }
    ensures ok { IfOk result (RanFrom executor.old.cards executor.old.present text.items (S.taken sink.old) (S.taken sink.new)) }
    ensures chain { OnOk result (executor.new ≡ chain_after executor.old.cards executor.old.present text.items) }
    ensures err { IfErr result (λ e.
        LeavesChain e executor.old.cards executor.old.present text.items (S.taken sink.old) (S.taken sink.new) executor.new) }
    ensures kinds { IfErr result IsOfBatches }
    ensures failures { S.failed sink.new ≡ S.failed sink.old + (if is_write result then 1 else 0) }
{
    executor.keep_threads(*runtime.rt, runtime.alloc, runtime.workers);
    run_batches(runtime, executor, text.as_slice(), sink)
}

/// Reads all bytes of the batches; then starts helper threads, and parses, executes, commits and writes batch after batch, from the
/// present state of the caller's executor on. Returns the number of batches.
pub fn run_on<R: Host, B: TellingSource, S: Sink, G: Observer>(
    runtime: &Runtime<'_, R, G>,
    executor: &mut Executor,
    batches: &mut B,
    sink: &mut S,
) -> Result<u64, RunFault>
    requires alone { executor.old.earlier ≡ [] }
    requires sound { IsSoundState executor.old.cards executor.old.present }
    requires low { 1 ≤ executor.old.present.next }
    requires batches { B.failed batches.old < 2 ^ 63 }
    requires sink { S.failed sink.old < 2 ^ 63 }
    ensures ok { IfOk result (λ count. OfSource (B.left batches.old) (B.given batches.old) (B.given batches.new) (λ batch_bytes.
        RanFrom executor.old.cards executor.old.present batch_bytes (S.taken sink.old) (S.taken sink.new) count)) }
    ensures chain { OnOk result (OfSource (B.left batches.old) (B.given batches.old) (B.given batches.new) (λ batch_bytes.
        executor.new ≡ chain_after executor.old.cards executor.old.present batch_bytes)) }
    ensures over { OnOk result (B.ended batches.new ≡ true) }
    ensures err { IfErr result (λ e. OfSource (B.left batches.old) (B.given batches.old) (B.given batches.new) (λ batch_bytes.
        LeavesChain e executor.old.cards executor.old.present batch_bytes (S.taken sink.old) (S.taken sink.new) executor.new)) }
    ensures kinds { IfErr result IsOfDatabase }
    ensures batches_failures { B.failed batches.new ≡ B.failed batches.old + (if is_batches_read result then 1 else 0) }
    ensures sink_failures { S.failed sink.new ≡ S.failed sink.old + (if is_write result then 1 else 0) }
{
    runtime.gate.begins(Phase::Read);
    let text = match read_batches(runtime.alloc, batches) {
        Ok(text) => text,
        Err(error) => return Err(RunFault::Read(error)),
    };
    run_given(runtime, executor, text, sink)
}

/// Loads an image, reads all bytes of the batches, and then parses, executes, commits and writes batch after batch. Returns the
/// number of batches. The output is the same for every number of workers and every observer.
pub fn run_text<R: Host, I: TellingSource, B: TellingSource, S: Sink, G: Observer>(
    runtime: &Runtime<'_, R, G>,
    image: &mut I,
    batches: &mut B,
    sink: &mut S,
) -> Result<u64, RunFault>
    requires image { I.failed image.old < 2 ^ 63 }
    requires batches { B.failed batches.old < 2 ^ 63 }
    requires sink { S.failed sink.old < 2 ^ 63 }
    ensures ok { IfOk result (λ count. OfSource (I.left image.old) (I.given image.old) (I.given image.new) (λ image_bytes.
        OfSource (B.left batches.old) (B.given batches.old) (B.given batches.new) (λ batch_bytes.
        RanWhole image_bytes batch_bytes (S.taken sink.old) (S.taken sink.new) count))) }
    ensures over { OnOk result ((I.ended image.new ≡ true) × (B.ended batches.new ≡ true)) }
    ensures err { IfErr result (λ e. OfSource (I.left image.old) (I.given image.old) (I.given image.new) (λ image_bytes.
        OfSource (B.left batches.old) (B.given batches.old) (B.given batches.new) (λ batch_bytes.
        LeavesRun e image_bytes batch_bytes (S.taken sink.old) (S.taken sink.new)))) }

    // A stream is reported as failed exactly if it failed.
    ensures image_failures { I.failed image.new ≡ I.failed image.old + (if is_image_read result then 1 else 0) }
    ensures batches_failures { B.failed batches.new ≡ B.failed batches.old + (if is_batches_read result then 1 else 0) }
    ensures sink_failures { S.failed sink.new ≡ S.failed sink.old + (if is_write result then 1 else 0) }
{
    runtime.gate.begins(Phase::Load);
    let mut executor = match load_told(runtime.rt, runtime.alloc, image) {
        Ok(executor) => executor,
        Err(fault) => return Err(fault),
    };
    run_on(runtime, &mut executor, batches, sink)
}
