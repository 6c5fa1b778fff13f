//! `run --store`: a run that writes the image of its last state at the end.
ghost use Rattle.std.specs.Prelude.{◌≡◌, ◌+◌, ◌<◌, ◌≤◌, ◌^◌, [], false, true, IfErr, IfOk, OnOk, if◌then◌else◌};
ghost use Rattle.std.specs.Io.KnownBytes.{Appends};
ghost use Rattle.executor.specs.States.{IsSoundState};
ghost use Rattle.runner.specs.Runs.{is_write};
ghost use Rattle.runner.specs.StoredRuns.{IsOfStoredDatabase, LeavesStore, LeavesStoredRun, LeavesStoredState, StoredBehind, StoredFrom, StoredWhole};
ghost use Rattle.runner.specs.StoredRuns.{in_run, in_store, is_of_tables, is_store_write, state_image};
ghost use Rattle.runner.specs.WholeRuns.{IsOfDatabase, is_batches_read, is_image_read, chain_after};
ghost use Rattle.telling.specs.Told.{OfSource};

use crate::fault::RunFault;
use crate::observer::{Observer, Phase};
use crate::opening::load_told;
use crate::reading::read_batches;
use crate::run::run_given;
use crate::store_fault::{StoreFault, StoredRunFault};
use executor::Executor;
use hashers::Host;
use records::io::Sink;
use records::slurp::push_all;
use std::alloc::Global;
use stored_image::store_image;
use telling::TellingSource;
use tpcc_rows::memory::Memory;
use workers::Runtime;

/// The image of the executor's present state.
fn image_of(alloc: Global, executor: &Executor) -> Result<Vec<u8>, Memory>
    ensures { IfOk result (λ text. text.items ≡ state_image executor.now.cards executor.now.present) }
{
    let mut text = Vec::new(alloc);
    store_image(alloc, executor.catalog(), executor.store(), &mut text)?;
    Ok(text)
}

/// Writes the image of the executor's present state.
fn store_state<K: Sink>(
    alloc: Global,
    executor: &Executor,
    tables: &mut K,
) -> Result<(), StoreFault>
    requires { K.failed tables.old < 2 ^ 63 }
    ensures ok { OnOk result
        (Appends (K.taken tables.old) (K.taken tables.new) (state_image executor.now.cards executor.now.present)) }
    ensures err { IfErr result (λ e. LeavesStore e
        (state_image executor.now.cards executor.now.present) (K.taken tables.old) (K.taken tables.new)) }
    ensures failures { K.failed tables.new ≡ K.failed tables.old + (if is_store_write result then 1 else 0) }
{
    let Ok(text) = image_of(alloc, executor) else {
        return Err(StoreFault::Memory);
    };
    if push_all(tables, text.as_slice()).is_err() {
        return Err(StoreFault::Write);
    }
    if tables.flush().is_err() {
        return Err(StoreFault::Write);
    }
    Ok(())
}

/// Writes the image of the state that a run left when it ended early; not if the output failed, since it is then unknown how
/// much of the text got through.
fn store_behind<K: Sink>(
    alloc: Global,
    executor: &Executor,
    fault: RunFault,
    tables: &mut K,
) -> StoredRunFault
    requires kind { IsOfDatabase fault }
    requires tables { K.failed tables.old < 2 ^ 63 }
    ensures kind { IsOfStoredDatabase result }
    ensures stored { StoredBehind fault result
        (state_image executor.now.cards executor.now.present) (K.taken tables.old) (K.taken tables.new) }
    ensures failures { K.failed tables.new ≡ K.failed tables.old + (if is_of_tables result then 1 else 0) }
{
    if let RunFault::Write = fault {
        return StoredRunFault::Run(fault);
    }
    match store_state(alloc, executor, tables) {
        Ok(()) => StoredRunFault::Run(fault),
        Err(store) => StoredRunFault::Both(fault, store),
    }
}

/// Runs the batches of a text from the executor's present state on, and then writes the image of the last state whose token was
/// written.
fn store_given<R: Host, S: Sink, K: Sink, G: Observer>(
    runtime: &Runtime<'_, R, G>,
    executor: &mut Executor,
    text: Vec<u8>,
    sink: &mut S,
    tables: &mut K,
) -> Result<u64, StoredRunFault>
    requires alone { executor.old.earlier ≡ [] }
    requires sound { IsSoundState executor.old.cards executor.old.present }
    requires low { 1 ≤ executor.old.present.next }
    requires sink { S.failed sink.old < 2 ^ 63 }
    requires tables { K.failed tables.old < 2 ^ 63 }
    ensures ok { IfOk result (StoredFrom executor.old.cards executor.old.present text.items
        (S.taken sink.old) (S.taken sink.new) (K.taken tables.old) (K.taken tables.new)) }
    ensures chain { OnOk result (executor.new ≡ chain_after executor.old.cards executor.old.present text.items) }
    ensures err { IfErr result (λ e. LeavesStoredState e executor.old.cards executor.old.present text.items
        (S.taken sink.old) (S.taken sink.new) (K.taken tables.old) (K.taken tables.new)) }
    ensures kinds { IfErr result IsOfStoredDatabase }
    ensures none_read { in_run is_batches_read result ≡ false }
    ensures sink_failures { S.failed sink.new ≡ S.failed sink.old + (if in_run is_write result then 1 else 0) }
    ensures tables_failures { K.failed tables.new ≡ K.failed tables.old + (if in_store result then 1 else 0) }
{
    let ran = run_given(runtime, executor, text, sink);
    runtime.gate.begins(Phase::Store);
    match ran {
        Ok(count) => match store_state(runtime.alloc, executor, tables) {
            Ok(()) => Ok(count),
            Err(fault) => Err(StoredRunFault::Store(fault)),
        },
        Err(fault) => Err(store_behind(runtime.alloc, executor, fault, tables)),
    }
}

/// Runs batches as `run_on` does, and then writes the image of the state whose token was written last, now the executor's
/// present one.
pub fn run_and_store_on<R: Host, B: TellingSource, S: Sink, K: Sink, G: Observer>(
    runtime: &Runtime<'_, R, G>,
    executor: &mut Executor,
    batches: &mut B,
    sink: &mut S,
    tables: &mut K,
) -> Result<u64, StoredRunFault>
    requires alone { executor.old.earlier ≡ [] }
    requires sound { IsSoundState executor.old.cards executor.old.present }
    requires low { 1 ≤ executor.old.present.next }
    requires batches { B.failed batches.old < 2 ^ 63 }
    requires sink { S.failed sink.old < 2 ^ 63 }
    requires tables { K.failed tables.old < 2 ^ 63 }
    ensures ok { IfOk result (λ count. OfSource (B.left batches.old) (B.given batches.old) (B.given batches.new) (λ batch_bytes.
        StoredFrom executor.old.cards executor.old.present batch_bytes
        (S.taken sink.old) (S.taken sink.new) (K.taken tables.old) (K.taken tables.new) count)) }
    ensures chain { OnOk result (OfSource (B.left batches.old) (B.given batches.old) (B.given batches.new) (λ batch_bytes.
        executor.new ≡ chain_after executor.old.cards executor.old.present batch_bytes)) }
    ensures over { OnOk result (B.ended batches.new ≡ true) }
    ensures err { IfErr result (λ e. OfSource (B.left batches.old) (B.given batches.old) (B.given batches.new) (λ batch_bytes.
        LeavesStoredState e executor.old.cards executor.old.present batch_bytes
        (S.taken sink.old) (S.taken sink.new) (K.taken tables.old) (K.taken tables.new))) }
    ensures kinds { IfErr result IsOfStoredDatabase }
    ensures batches_failures { B.failed batches.new ≡ B.failed batches.old + (if in_run is_batches_read result then 1 else 0) }
    ensures sink_failures { S.failed sink.new ≡ S.failed sink.old + (if in_run is_write result then 1 else 0) }
    ensures tables_failures { K.failed tables.new ≡ K.failed tables.old + (if in_store result then 1 else 0) }
{
    runtime.gate.begins(Phase::Read);
    match read_batches(runtime.alloc, batches) {
        Ok(text) => store_given(runtime, executor, text, sink, tables),
        Err(error) => {
            runtime.gate.begins(Phase::Store);
            Err(store_behind(runtime.alloc, executor, RunFault::Read(error), tables))
        }
    }
}

/// Runs batches as `run_text` does, and then writes the image of the last state whose token was written, for a later run to
/// resume from. It is written even if the run ends early, unless its output failed or there was no state yet.
pub fn run_and_store<R: Host, I: TellingSource, B: TellingSource, S: Sink, K: Sink, G: Observer>(
    runtime: &Runtime<'_, R, G>,
    image: &mut I,
    batches: &mut B,
    sink: &mut S,
    tables: &mut K,
) -> Result<u64, StoredRunFault>
    requires image { I.failed image.old < 2 ^ 63 }
    requires batches { B.failed batches.old < 2 ^ 63 }
    requires sink { S.failed sink.old < 2 ^ 63 }
    requires tables { K.failed tables.old < 2 ^ 63 }
    ensures ok { IfOk result (λ count. OfSource (I.left image.old) (I.given image.old) (I.given image.new) (λ image_bytes.
        OfSource (B.left batches.old) (B.given batches.old) (B.given batches.new) (λ batch_bytes.
        StoredWhole image_bytes batch_bytes (S.taken sink.old) (S.taken sink.new) (K.taken tables.old) (K.taken tables.new) count))) }
    ensures over { OnOk result ((I.ended image.new ≡ true) × (B.ended batches.new ≡ true)) }
    ensures err { IfErr result (λ e. OfSource (I.left image.old) (I.given image.old) (I.given image.new) (λ image_bytes.
        OfSource (B.left batches.old) (B.given batches.old) (B.given batches.new) (λ batch_bytes.
        LeavesStoredRun e image_bytes batch_bytes (S.taken sink.old) (S.taken sink.new) (K.taken tables.old) (K.taken tables.new)))) }

    // A stream is reported as failed exactly if it failed.
    ensures image_failures { I.failed image.new ≡ I.failed image.old + (if in_run is_image_read result then 1 else 0) }
    ensures batches_failures { B.failed batches.new ≡ B.failed batches.old + (if in_run is_batches_read result then 1 else 0) }
    ensures sink_failures { S.failed sink.new ≡ S.failed sink.old + (if in_run is_write result then 1 else 0) }
    ensures tables_failures { K.failed tables.new ≡ K.failed tables.old + (if in_store result then 1 else 0) }
{
    runtime.gate.begins(Phase::Load);
    let mut executor = match load_told(runtime.rt, runtime.alloc, image) {
        Ok(executor) => executor,
        Err(fault) => return Err(StoredRunFault::Run(fault)),
    };
    run_and_store_on(runtime, &mut executor, batches, sink, tables)
}
