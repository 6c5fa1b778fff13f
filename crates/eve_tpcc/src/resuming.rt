//! `--from` and `--at`: resuming at the stamp of an image's state, and printing that of the last state.
ghost use Rattle.std.specs.Prelude.{◌≡◌, ◌≤◌, [], IfOk, IfSome};
ghost use Rattle.executor.specs.Stamps.{IsWithinLimits};
ghost use Rattle.executor.specs.States.{IsSoundState};

use crate::streams::{batches_source, image_source, reply_sink};
use crate::{cannot_create, report};
use executor::{Executor, NumbersTaken, Stamp};
use hashers::Host;
use progress::progress::Shown;
use progress::store_file::{StoreFile, open_store};
use records::io::Counting;
use runner::stamp_text::{stamp_line, stamp_of};
use runner::{
    Observer, Phase, ResumedFault, RunFault, StoredRunFault, load_told, run_and_store_on, run_from,
};
use session::serve_on;
use std::io::{Input, Read};
use std::process::ExitCode;
use std::rt::Files;
use std::time::Clock;
use std::{io, str};
use telling::Telling;
use workers::Runtime;

/// Parses the word of `--from`, if there is one; a malformed word is reported.
pub fn stamp_from(rt: &impl Eprint, word: Option<&str>) -> Result<Option<Stamp>, ExitCode>
    ensures { IfOk result (λ from. IfSome from IsWithinLimits) }
{
    let Some(word) = word else {
        return Ok(None);
    };
    match stamp_of(word) {
        Some(stamp) => Ok(Some(stamp)),
        None => {
            let _ = eprintln!(rt;
                "eve-tpcc: command line: --from {word}: not SEQ,NEXT,TOKEN of a state"
            );
            Err(ExitCode::from(2))
        }
    }
}

/// Reports that a request in the history has the stamp's next number or a greater one.
fn refuse(rt: &impl Eprint, taken: NumbersTaken) -> ExitCode {
    let _ = eprintln!(rt; "eve-tpcc: command line: --from: {taken}");
    ExitCode::from(2)
}

/// Gives the executor's state the stamp, if there is one.
fn resume(rt: &impl Eprint, executor: &mut Executor, from: &Option<Stamp>) -> Result<(), ExitCode>
    requires alone { executor.old.earlier ≡ [] }
    requires sound { IsSoundState executor.old.cards executor.old.present }
    requires low { 1 ≤ executor.old.present.next }
    requires within { IfSome from.now IsWithinLimits }
    ensures alone { executor.new.earlier ≡ [] }
    ensures sound { IsSoundState executor.new.cards executor.new.present }
    ensures low { 1 ≤ executor.new.present.next }
{
    let Some(stamp) = from else {
        return Ok(());
    };
    match executor.resume(stamp) {
        Ok(()) => Ok(()),
        Err(taken) => Err(refuse(rt, taken)),
    }
}

/// Prints a stamp.
fn tell(rt: &impl Eprint, stamp: &Stamp) {
    if let Ok(text) = str::from_utf8(stamp_line(stamp).as_slice()) {
        let _ = eprint!(rt; "{text}");
    }
}

/// The options of a run.
#[derive(Clone, Copy)]
pub struct RunOptions<'a> {
    pub image: &'a str,
    pub batches: &'a str,
    pub store: Option<&'a str>,
    /// Whether to print the stamp of the last state.
    pub at: bool,
    /// Whether to show progress.
    pub shown: Shown,
}

/// Runs batches from the executor's present state on, and stores the last state in a file.
#[inline(never)]
fn run_and_store_batches<
    R: Files + Print + Eprint + AllocGlobal + Clock + Host,
    B: Read + Drop,
    G: Observer,
>(
    runtime: &Runtime<'_, R, G>,
    executor: &mut Executor,
    batches: B,
    store: &mut StoreFile<R::File>,
    shown: Shown,
) -> Result<u64, StoredRunFault>
where
    R::File: Drop,
    requires alone { executor.old.earlier ≡ [] }
    requires sound { IsSoundState executor.old.cards executor.old.present }
    requires low { 1 ≤ executor.old.present.next }
    requires store { store.old.file.inner.failures ≡ 0 }
{
    let rt = runtime.rt;
    let mut batches = batches_source(rt, batches, shown);
    let mut output = reply_sink(rt, io::writer(rt), shown);
    run_and_store_on(runtime, executor, &mut batches, &mut output, store)
}

/// Whether a run left its executor at the state whose token and image were written.
fn is_left_whole(ran: &Result<u64, StoredRunFault>) -> bool {
    match ran {
        Ok(_) => true,
        Err(StoredRunFault::Run(fault)) => *fault != RunFault::Write,
        Err(_) => false,
    }
}

/// Runs batches on a loaded executor, and prints the last state's stamp if asked.
fn run_loaded<R: Files + Print + Eprint + AllocGlobal + Clock + Host, B: Read + Drop, G: Observer>(
    runtime: &Runtime<'_, R, G>,
    executor: &mut Executor,
    batches: B,
    store: &mut StoreFile<R::File>,
    options: &RunOptions<'_>,
    from: &Option<Stamp>,
) -> ExitCode
where
    R::File: Drop,
    requires alone { executor.old.earlier ≡ [] }
    requires sound { IsSoundState executor.old.cards executor.old.present }
    requires low { 1 ≤ executor.old.present.next }
    requires within { IfSome from.now IsWithinLimits }
    requires store { store.old.file.inner.failures ≡ 0 }
{
    let rt = runtime.rt;
    if let Err(status) = resume(rt, executor, from) {
        return status;
    }
    let ran = run_and_store_batches(runtime, executor, batches, store, options.shown);
    if options.at && is_left_whole(&ran) {
        tell(rt, &executor.stamp());
    }
    match ran {
        Ok(_) => ExitCode::SUCCESS,
        Err(fault) => report(rt, &fault),
    }
}

/// Runs batches on the database of an image from a stamp on, if there is one, and prints the last state's stamp if asked.
#[inline(never)]
pub fn run_unstored<
    R: Print + Eprint + AllocGlobal + Clock + Host,
    I: Read + Drop,
    B: Read + Drop,
    G: Observer,
>(
    runtime: &Runtime<'_, R, G>,
    image: I,
    batches: B,
    options: &RunOptions<'_>,
    from: &Option<Stamp>,
) -> ExitCode
    requires { IfSome from.now IsWithinLimits }
{
    let rt = runtime.rt;
    let mut image = image_source(rt, image, options.shown);
    let mut batches = batches_source(rt, batches, options.shown);
    let mut output = reply_sink(rt, io::writer(rt), options.shown);
    let resumed = run_from(runtime, &mut image, *from, &mut batches, &mut output);
    if let (true, Some(stamp)) = (options.at, resumed.at) {
        tell(rt, &stamp);
    }
    match resumed.ran {
        Ok(_) => ExitCode::SUCCESS,
        Err(ResumedFault::Taken(taken)) => refuse(rt, taken),
        Err(ResumedFault::Unopened(fault) | ResumedFault::Ended(fault)) => {
            report(rt, &StoredRunFault::Run(fault))
        }
    }
}

/// Runs batches on the database of an image, whose state has the given stamp, and stores the last state in the file at `path`; without a
/// stamp the first state is one before any batch.
#[inline(never)]
pub fn run_resumed<
    R: Files + Print + Eprint + AllocGlobal + Clock + Host,
    I: Read + Drop,
    B: Read + Drop,
    G: Observer,
>(
    runtime: &Runtime<'_, R, G>,
    image: I,
    batches: B,
    path: &str,
    options: &RunOptions<'_>,
    from: &Option<Stamp>,
) -> ExitCode
where
    R::File: Drop,
    requires { IfSome from.now IsWithinLimits }
{
    let rt = runtime.rt;
    let mut store = match open_store(rt, path) {
        Ok(store) => store,
        Err(error) => return cannot_create(rt, path, &error),
    };
    let mut image = image_source(rt, image, options.shown);
    runtime.gate.begins(Phase::Load);
    let mut loaded = load_told(rt, runtime.alloc, &mut image);
    match &mut loaded {
        Ok(executor) => run_loaded(runtime, executor, batches, &mut store, options, from),
        Err(fault) => report(rt, &StoredRunFault::Run(*fault)),
    }
}

/// Answers commands on a loaded executor.
fn serve_loaded<R: Input + Print + Eprint + AllocGlobal + Host, G: Observer>(
    runtime: &Runtime<'_, R, G>,
    executor: &mut Executor,
    from: &Option<Stamp>,
) -> ExitCode
    requires alone { executor.old.earlier ≡ [] }
    requires sound { IsSoundState executor.old.cards executor.old.present }
    requires low { 1 ≤ executor.old.present.next }
    requires within { IfSome from.now IsWithinLimits }
{
    let rt = runtime.rt;
    if let Err(status) = resume(rt, executor, from) {
        return status;
    }
    let mut input = Counting::new(rt.reader());
    let mut output = Telling::new(Counting::new(io::writer(rt)));
    match serve_on(runtime, executor, &mut input, &mut output) {
        Ok(()) => ExitCode::SUCCESS,
        Err(fault) => report(rt, &StoredRunFault::Run(fault)),
    }
}

/// Answers commands on the database of an image, whose state has the given stamp.
#[inline(never)]
pub fn serve_from<R: Files + Input + Print + Eprint + AllocGlobal + Host, G: Observer>(
    runtime: &Runtime<'_, R, G>,
    image: R::File,
    from: &Option<Stamp>,
) -> ExitCode
where
    R::File: Drop,
    requires { IfSome from.now IsWithinLimits }
{
    let rt = runtime.rt;
    let mut image_source = Telling::new(Counting::new(image));
    runtime.gate.begins(Phase::Load);
    let mut loaded = load_told(rt, runtime.alloc, &mut image_source);
    match &mut loaded {
        Ok(executor) => serve_loaded(runtime, executor, from),
        Err(fault) => report(rt, &StoredRunFault::Run(*fault)),
    }
}
