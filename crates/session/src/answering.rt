//! The answer to each command.
ghost use Rattle.std.specs.Prelude.{◌≡◌, ◌≤◌, IfOk};
ghost use Rattle.executor.specs.Stamps.{stamp_of};
ghost use Rattle.runner.specs.StampText.{at_text};
ghost use Rattle.executor.specs.States.{IsSoundState};
ghost use Rattle.session.specs.Answers.{Answers, AnswersBatch, AnswersCommand, AnswersCommit, AnswersImage, AnswersRollback};
ghost use Rattle.session.specs.AnswerText.{image_answer};

use crate::answer_text::{commit_text, fault_text, image_head, refused_text, told_text};
use commands::{Command, Control, Heard};
use executor::{Executor, Refusal};
use requests::request::Batch;
use runner::stamp_text::stamp_line;
use runner::text::batch_text;
use runner::{Observer, Phase};
use std::alloc::Global;
use std::thread::Threads;
use stored_image::store_image;
use tpcc_rows::memory::Memory;
use workers::Runtime;

/// Executes a batch, and answers with its replies and record, or with the refusal.
fn answer_batch<R: Threads + Sync, G: Observer>(
    runtime: &Runtime<'_, R, G>,
    executor: &mut Executor,
    batch: &Batch,
) -> Result<Vec<u8>, Memory>
    requires { 1 ≤ executor.old.present.next }
    ensures text { IfOk result (λ text. AnswersBatch batch.now executor.old executor.new text.items) }
    ensures sound { IsSoundState executor.new.cards executor.new.present }
{
    runtime.gate.begins(Phase::Execute);
    let executed = executor.execute(runtime, batch);
    runtime.gate.begins(Phase::Write);
    match executed {
        Ok(record) => {
            runtime.gate.executed(batch, &record);
            batch_text(runtime.alloc, &record)
        }
        Err(refusal) => refused_text(runtime.alloc, refusal),
    }
}

/// Commits the oldest uncommitted batch.
fn answer_commit(alloc: Global, executor: &mut Executor) -> Result<Vec<u8>, Memory>
    requires { IsSoundState executor.old.cards executor.old.present }
    ensures text { IfOk result (λ text. AnswersCommit executor.old executor.new text.items) }
    ensures sound { IsSoundState executor.new.cards executor.new.present }
{
    match executor.commit() {
        Ok(sequence) => commit_text(alloc, sequence),
        Err(refusal) => refused_text(alloc, refusal),
    }
}

/// Rolls back to the state after a batch.
fn answer_rollback(alloc: Global, executor: &mut Executor, sequence: u64) -> Result<Vec<u8>, Memory>
    ensures text { IfOk result (λ text. AnswersRollback sequence executor.old executor.new text.items) }
    ensures sound { IsSoundState executor.new.cards executor.new.present }
{
    match executor.rollback_to(sequence) {
        Ok(()) => told_text(alloc, b"rollback", executor.sequence(), &executor.token()),
        Err(refusal) => refused_text(alloc, refusal),
    }
}

/// The image of the present state, preceded by its record.
fn image_answer(alloc: Global, executor: &Executor) -> Result<Vec<u8>, Memory>
    ensures { IfOk result (λ text. text.items ≡ image_answer executor.now.cards executor.now.present) }
{
    let mut image = Vec::new(alloc);
    store_image(alloc, executor.catalog(), executor.store(), &mut image)?;
    let mut text = image_head(alloc, executor.sequence(), image.len())?;
    text.extend_from_slice(image.as_slice())?;
    Ok(text)
}

/// Answers with the present state's image, or refuses if there is no memory for it.
fn answer_image(alloc: Global, executor: &Executor) -> Result<Vec<u8>, Memory>
    ensures { IfOk result (λ text. AnswersImage executor.now executor.now text.items) }
{
    match image_answer(alloc, executor) {
        Ok(text) => Ok(text),
        Err(_) => refused_text(alloc, Refusal::Memory),
    }
}

/// The stamp of the present state.
fn at_text(alloc: Global, executor: &Executor) -> Result<Vec<u8>, Memory>
    ensures { IfOk result (λ text. text.items ≡ at_text (stamp_of executor.now.present)) }
{
    let mut text = Vec::new(alloc);
    text.extend_from_slice(stamp_line(&executor.stamp()).as_slice())?;
    Ok(text)
}

/// Carries out a command or refuses it, and returns the answer.
fn answer_command<R: Threads + Sync, G: Observer>(
    runtime: &Runtime<'_, R, G>,
    executor: &mut Executor,
    command: &Command,
) -> Result<Vec<u8>, Memory>
    requires low { 1 ≤ executor.old.present.next }
    requires sound { IsSoundState executor.old.cards executor.old.present }
    ensures text { IfOk result (λ text. AnswersCommand command.now executor.old executor.new text.items) }
    ensures sound { IsSoundState executor.new.cards executor.new.present }
{
    let alloc = runtime.alloc;
    match command {
        Command::Batch(batch) => answer_batch(runtime, executor, batch),
        Command::Control(Control::Commit) => answer_commit(alloc, executor),
        Command::Control(Control::RollbackTo(sequence)) => {
            answer_rollback(alloc, executor, *sequence)
        }
        Command::Control(Control::State) => {
            told_text(alloc, b"state", executor.sequence(), &executor.token())
        }
        Command::Control(Control::Image) => answer_image(alloc, executor),
        Command::Control(Control::At) => at_text(alloc, executor),
    }
}

/// Answers a command or a fault. If there is no memory for the answer, the command may have been carried out.
pub(crate) fn answer<R: Threads + Sync, G: Observer>(
    runtime: &Runtime<'_, R, G>,
    executor: &mut Executor,
    heard: &Heard,
) -> Result<Vec<u8>, Memory>
    requires low { 1 ≤ executor.old.present.next }
    requires sound { IsSoundState executor.old.cards executor.old.present }
    ensures text { IfOk result (λ text. Answers heard.now executor.old executor.new text.items) }
    ensures sound { IsSoundState executor.new.cards executor.new.present }
{
    match heard {
        Heard::Command(command) => answer_command(runtime, executor, command),
        Heard::Fault(fault) => fault_text(runtime.alloc, *fault),
    }
}
