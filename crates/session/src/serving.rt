//! The loop of a session: reads a command, answers it and flushes the answer.
ghost use Rattle.std.specs.Prelude.{◌≡◌, ◌+◌, ◌<◌, ◌≤◌, ◌^◌, [], false, None, IfErr, IfOk, IfSome, OnErr, OnOk, if◌then◌else◌, is_ok, option_map};
ghost use Rattle.std.specs.Io.KnownBytes.{Appends};
ghost use Rattle.commands.specs.Commands.{commands};
ghost use Rattle.commands.specs.Reader.{heard_from};
ghost use Rattle.commands.specs.declared.record_reader.TheConstants.{LAST_RECORD};
ghost use Rattle.executor.specs.States.{IsSoundState};
ghost use Rattle.records.specs.Io.{AppendsFront};
ghost use Rattle.runner.specs.Runs.{is_write};
ghost use Rattle.runner.specs.WholeRuns.{is_batches_read, is_image_read};
ghost use Rattle.session.specs.Sessions.{IsAnswered, IsOfSession, LeavesAnswer, LeavesSession, LeavesWhole, Served, ServedWhole};

use crate::answering::answer;
use commands::{CommandReader, Heard};
use executor::Executor;
use hashers::Host;
use records::io::{Failed, Sink, Source};
use records::slurp::push_all;
use runner::{Observer, Phase, RunFault, load_executor};
use std::thread::Threads;
use workers::Runtime;

/// Writes and flushes an answer.
fn send<S: Sink>(sink: &mut S, text: &[u8]) -> Result<(), Failed>
    requires { S.failed sink.old < 2 ^ 63 }
    ensures ok { OnOk result (Appends (S.taken sink.old) (S.taken sink.new) text.now) }
    ensures err { OnErr result (AppendsFront (S.taken sink.old) (S.taken sink.new) text.now) }
    ensures count { S.failed sink.new ≡ S.failed sink.old + (if is_ok result then 0 else 1) }
{
    push_all(sink, text)?;
    sink.flush()
}

/// Answers a command or a fault, and writes the answer.
fn respond<R: Threads + Sync, S: Sink, G: Observer>(
    runtime: &Runtime<'_, R, G>,
    executor: &mut Executor,
    heard: &Heard,
    sink: &mut S,
) -> Result<(), RunFault>
    requires low { 1 ≤ executor.old.present.next }
    requires sound { IsSoundState executor.old.cards executor.old.present }
    requires count { S.failed sink.old < 2 ^ 63 }
    ensures ok { OnOk result (IsAnswered heard.now executor.old executor.new (S.taken sink.old) (S.taken sink.new)) }
    ensures err { IfErr result (λ e. LeavesAnswer e heard.now executor.old (S.taken sink.old) (S.taken sink.new)) }
    ensures no_read { is_batches_read result ≡ false }
    ensures failures { S.failed sink.new ≡ S.failed sink.old + (if is_write result then 1 else 0) }
{
    runtime.gate.begins(Phase::Write);
    let Ok(text) = answer(runtime, executor, heard) else {
        return Err(RunFault::Memory);
    };
    if send(sink, text.as_slice()).is_err() {
        return Err(RunFault::Write);
    }
    Ok(())
}

/// Reads commands, and answers each before it reads the next.
fn serve_commands<R: Threads + Sync, C: Source, S: Sink, G: Observer>(
    runtime: &Runtime<'_, R, G>,
    executor: &mut Executor,
    reader: &mut CommandReader,
    input: &mut C,
    sink: &mut S,
) -> Result<(), RunFault>
    requires alone { executor.old.earlier ≡ [] }
    requires low { 1 ≤ executor.old.present.next }
    requires sound { IsSoundState executor.old.cards executor.old.present }
    requires room { reader.old.read ≤ LAST_RECORD }
    requires going { reader.old.stopped ≡ None }
    requires input { C.failed input.old < 2 ^ 63 }
    requires sink { S.failed sink.old < 2 ^ 63 }
    ensures ok { OnOk result (IfSome (heard_from reader.old (C.left input.old)) (λ hearing.
        Served executor.old hearing (S.taken sink.old) (S.taken sink.new))) }
    ensures err { IfErr result (λ e. IfSome (heard_from reader.old (C.left input.old)) (λ hearing.
        LeavesSession e executor.old hearing (S.taken sink.old) (S.taken sink.new))) }
    ensures kinds { IfErr result IsOfSession }
    ensures input_failures { C.failed input.new ≡ C.failed input.old + (if is_batches_read result then 1 else 0) }
    ensures sink_failures { S.failed sink.new ≡ S.failed sink.old + (if is_write result then 1 else 0) }
{
    'commands: loop {
        runtime.gate.begins(Phase::Read);
        let heard = match reader.next_heard(runtime.alloc, input) {
            Ok(Some(heard)) => heard,
            Ok(None) => return Ok(()),
            Err(error) => return Err(RunFault::Read(error)),
        };
        if let Err(fault) = respond(runtime, executor, &heard, sink) {
            return Err(fault);
        }
    }
}

/// Starts helper threads. In a frame of its own, which is freed before the session begins.
#[inline(never)]
fn keep_threads<R: Host, G>(runtime: &Runtime<'_, R, G>, executor: &mut Executor)
    ensures { executor.new ≡ executor.old }
{
    executor.keep_threads(*runtime.rt, runtime.alloc, runtime.workers);
}

/// Starts helper threads, reads commands, and answers each from the present state of the caller's executor on, before it reads the
/// next. Its frame holds the reader, that of `serve` the executor.
#[inline(never)]
pub fn serve_on<R: Host, C: Source, S: Sink, G: Observer>(
    runtime: &Runtime<'_, R, G>,
    executor: &mut Executor,
    input: &mut C,
    sink: &mut S,
) -> Result<(), RunFault>
    requires alone { executor.old.earlier ≡ [] }
    requires low { 1 ≤ executor.old.present.next }
    requires sound { IsSoundState executor.old.cards executor.old.present }
    requires input { C.failed input.old < 2 ^ 63 }
    requires sink { S.failed sink.old < 2 ^ 63 }
    ensures ok { OnOk result (IfSome (option_map commands (C.left input.old)) (λ hearing.
        Served executor.old hearing (S.taken sink.old) (S.taken sink.new))) }
    ensures err { IfErr result (λ e. IfSome (option_map commands (C.left input.old)) (λ hearing.
        LeavesSession e executor.old hearing (S.taken sink.old) (S.taken sink.new))) }
    ensures kinds { IfErr result IsOfSession }
    ensures input_failures { C.failed input.new ≡ C.failed input.old + (if is_batches_read result then 1 else 0) }
    ensures sink_failures { S.failed sink.new ≡ S.failed sink.old + (if is_write result then 1 else 0) }
{
    let mut reader = CommandReader::new(runtime.alloc);
    keep_threads(runtime, executor);
    serve_commands(runtime, executor, &mut reader, input, sink)
}

/// Loads an image, and then reads commands, and answers each before it reads the next. A bad record is answered with its fault, and
/// changes nothing; the records after it are skipped up to the next that names a command. The output is the same for every number of
/// workers and every observer, and however the input is split into reads.
#[inline(never)]
pub fn serve<R: Host, I: Source, C: Source, S: Sink, G: Observer>(
    runtime: &Runtime<'_, R, G>,
    image: &mut I,
    input: &mut C,
    sink: &mut S,
) -> Result<(), RunFault>
    requires image { I.failed image.old < 2 ^ 63 }
    requires input { C.failed input.old < 2 ^ 63 }
    requires sink { S.failed sink.old < 2 ^ 63 }
    ensures ok { OnOk result (IfSome (I.left image.old) (λ image_bytes. IfSome (C.left input.old) (λ command_bytes.
        ServedWhole image_bytes command_bytes (S.taken sink.old) (S.taken sink.new)))) }
    ensures err { IfErr result (λ e. IfSome (I.left image.old) (λ image_bytes. IfSome (C.left input.old) (λ command_bytes.
        LeavesWhole e image_bytes command_bytes (S.taken sink.old) (S.taken sink.new)))) }

    // A stream is reported as failed exactly if it failed.
    ensures image_failures { I.failed image.new ≡ I.failed image.old + (if is_image_read result then 1 else 0) }
    ensures input_failures { C.failed input.new ≡ C.failed input.old + (if is_batches_read result then 1 else 0) }
    ensures sink_failures { S.failed sink.new ≡ S.failed sink.old + (if is_write result then 1 else 0) }
{
    // The executor stays where it was made: moved, it would be on the stack twice.
    runtime.gate.begins(Phase::Load);
    let mut loaded = load_executor(runtime.rt, runtime.alloc, image);
    match &mut loaded {
        Ok(executor) => serve_on(runtime, executor, input, sink),
        Err(fault) => Err(*fault),
    }
}
