//! The program `eve-tpcc`: executes batches on the database of an image, and writes the replies. A thin layer that parses the
//! command line, opens files, and prints what the crates below return.
#![tactic(auto)]

ghost use Rattle.std.specs.Prelude.{IfSome};
ghost use Rattle.command_line.specs.CommandLine.{IsWithinBounds};
ghost use Rattle.executor.specs.Stamps.{IsWithinLimits};
ghost use Rattle.tpcc_rows.specs.Limits.{IsBetween};

mod inputs;
mod peak_memory;
mod resuming;
mod statistics;
mod stopwatch;
mod streams;
mod summary;
mod tally;

use crate::inputs::{hold_closed, is_standard_input, open_input};
use crate::resuming::{RunOptions, run_resumed, run_unstored, serve_from, stamp_from};
use crate::statistics::Statistics;
use crate::streams::{batches_source, image_sink, image_source, reply_sink};
use command_line::{Line, LineFault, WordsFault, line_of, line_status, words_of};
use executor::Stamp;
use hashers::Host;
use progress::progress::Shown;
use progress::store_file::open_store;
use records::io::Counting;
use runner::{Observer, StoredRunFault, check_text, make_text, run_and_store, stored_line};
use session::serve;
use std::io::{Input, Read};
use std::process::ExitCode;
use std::rt::Files;
use std::thread::Threads;
use std::time::Clock;
use std::{io, str};
use telling::Telling;
use workers::{Runtime, Workers};

/// What a command line may need of the runtime.
trait System: Files + Input + Print + Eprint + AllocGlobal + Clock + Host {}

impl<R: Files + Input + Print + Eprint + AllocGlobal + Clock + Host> System for R {}

fn cannot_open(rt: &impl Eprint, path: &str, error: &io::Error) -> ExitCode {
    let _ = eprintln!(rt; "eve-tpcc: cannot open {path}: {error}");
    ExitCode::FAILURE
}

fn cannot_create(rt: &impl Eprint, path: &str, error: &io::Error) -> ExitCode {
    let _ = eprintln!(rt; "eve-tpcc: cannot create {path}: {error}");
    ExitCode::FAILURE
}

/// Prints the line of a fault. Allocates nothing.
fn report(rt: &impl Eprint, fault: &StoredRunFault) -> ExitCode {
    if let Ok(text) = str::from_utf8(stored_line(fault).as_slice()) {
        let _ = eprint!(rt; "{text}");
    }
    ExitCode::FAILURE
}

/// Runs batches, and writes the image of the last state to the file at `path`.
#[inline(never)]
fn run_stored<
    R: Files + Print + Eprint + AllocGlobal + Clock + Host,
    I: Read + Drop,
    B: Read + Drop,
    G: Observer,
>(runtime: &Runtime<'_, R, G>, image: I, batches: B, path: &str, shown: Shown) -> ExitCode
where
    R::File: Drop,
{
    let rt = runtime.rt;
    let mut tables = match open_store(rt, path) {
        Ok(tables) => tables,
        Err(error) => return cannot_create(rt, path, &error),
    };
    let mut image = image_source(rt, image, shown);
    let mut batches = batches_source(rt, batches, shown);
    let mut output = reply_sink(rt, io::writer(rt), shown);
    let ran = run_and_store(runtime, &mut image, &mut batches, &mut output, &mut tables);
    match ran {
        Ok(_) => ExitCode::SUCCESS,
        Err(fault) => report(rt, &fault),
    }
}

/// Checks an image.
#[inline(never)]
fn check<R: Print + Eprint + AllocGlobal + Clock + Threads + Sync, I: Read + Drop>(
    rt: &R,
    image: I,
    shown: Shown,
) -> ExitCode {
    let mut image = image_source(rt, image, shown);
    let mut output = Telling::new(Counting::new(io::writer(rt)));
    match check_text(rt, rt.alloc(), &mut image, &mut output) {
        Ok(()) => ExitCode::SUCCESS,
        Err(fault) => report(rt, &StoredRunFault::Run(fault)),
    }
}

/// Checks the image of a name.
fn check_line<R: Files + Input + Print + Eprint + AllocGlobal + Clock + Threads + Sync>(
    rt: &R,
    image: &str,
    shown: Shown,
) -> ExitCode
where
    R::File: Drop,
{
    if is_standard_input(image) {
        return check(rt, rt.reader(), shown);
    }
    match open_input(rt, image) {
        Ok(file) => check(rt, file, shown),
        Err(error) => cannot_open(rt, image, &error),
    }
}

#[inline(never)]
fn make<R: Print + Eprint + AllocGlobal + Clock>(
    rt: &R,
    warehouses: u8,
    customers: u16,
    items: u32,
    shown: Shown,
) -> ExitCode
    requires warehouses { IsBetween 1 100 warehouses }
    requires customers { IsBetween 1 3000 customers }
    requires items { IsBetween 1 100000 items }
{
    let mut output = image_sink(rt, io::writer(rt), shown);
    match make_text(rt.alloc(), warehouses, customers, items, &mut output) {
        Ok(()) => ExitCode::SUCCESS,
        Err(fault) => report(rt, &StoredRunFault::Run(fault)),
    }
}

/// Answers commands on the database of an image.
#[inline(never)]
fn serve_commands<R: Files + Input + Print + Eprint + AllocGlobal + Host, G: Observer>(
    runtime: &Runtime<'_, R, G>,
    image: R::File,
) -> ExitCode
where
    R::File: Drop,
{
    let rt = runtime.rt;
    let mut image = Counting::new(image);
    let mut input = Counting::new(rt.reader());
    let mut output = Telling::new(Counting::new(io::writer(rt)));
    match serve(runtime, &mut image, &mut input, &mut output) {
        Ok(()) => ExitCode::SUCCESS,
        Err(fault) => report(rt, &StoredRunFault::Run(fault)),
    }
}

/// Reports why the words of the command line can't be read.
fn words_unread(rt: &impl Eprint, fault: WordsFault) -> ExitCode {
    let _ = eprintln!(rt; "eve-tpcc: command line: {fault}");
    ExitCode::from(2)
}

/// Reports why the command line is refused, or prints help; it is a failure if that can't be printed.
fn explain<R: Print + Eprint>(rt: &R, fault: &LineFault) -> ExitCode {
    let status = line_status(fault);
    match fault {
        LineFault::Refused(error) => {
            if error.print(rt).is_err() && status == 0 {
                return ExitCode::FAILURE;
            }
        }
        LineFault::Unread => {
            let _ = eprintln!(rt; "eve-tpcc: command line: {}", WordsFault::Memory);
        }
    }
    ExitCode::from(status)
}

/// Reports that standard input is named twice, or already has the commands.
fn input_taken(rt: &impl Eprint) -> ExitCode {
    let _ = eprintln!(rt; "eve-tpcc: command line: standard input is taken already");
    ExitCode::from(2)
}

fn text_of(text: &Option<String>) -> Option<&str> {
    match text {
        Some(text) => Some(text.as_str()),
        None => None,
    }
}

/// Runs batches with these options from a stamp on, if there is one.
fn run_with<
    R: Files + Print + Eprint + AllocGlobal + Clock + Host,
    I: Read + Drop,
    B: Read + Drop,
    G: Observer,
>(
    runtime: &Runtime<'_, R, G>,
    image: I,
    batches: B,
    options: &RunOptions<'_>,
    from: &Option<Stamp>,
) -> ExitCode
where
    R::File: Drop,
    requires { IfSome from.now IsWithinLimits }
{
    match (options.store, from, options.at) {
        (Some(path), None, false) => run_stored(runtime, image, batches, path, options.shown),
        (Some(path), _, _) => run_resumed(runtime, image, batches, path, options, from),
        (None, _, _) => run_unstored(runtime, image, batches, options, from),
    }
}

/// Runs the batches of a name on the database of an image.
fn run_on_image<R: System, I: Read + Drop, G: Observer>(
    runtime: &Runtime<'_, R, G>,
    image: I,
    options: &RunOptions<'_>,
    from: &Option<Stamp>,
) -> ExitCode
where
    R::File: Drop,
    requires { IfSome from.now IsWithinLimits }
{
    let rt = runtime.rt;
    if is_standard_input(options.batches) {
        return run_with(runtime, image, rt.reader(), options, from);
    }
    match open_input(rt, options.batches) {
        Ok(batches) => run_with(runtime, image, batches, options, from),
        Err(error) => cannot_open(rt, options.batches, &error),
    }
}

/// Runs the batches of a name on the database of the image of a name.
fn run_named<R: System, G: Observer>(
    runtime: &Runtime<'_, R, G>,
    options: &RunOptions<'_>,
    from: &Option<Stamp>,
) -> ExitCode
where
    R::File: Drop,
    requires { IfSome from.now IsWithinLimits }
{
    let rt = runtime.rt;
    if is_standard_input(options.image) {
        return run_on_image(runtime, rt.reader(), options, from);
    }
    match open_input(rt, options.image) {
        Ok(image) => run_on_image(runtime, image, options, from),
        Err(error) => cannot_open(rt, options.image, &error),
    }
}

/// Runs batches on the database of an image, and then prints statistics if wanted. One of the two files may be standard input.
fn run_line<R: System>(
    rt: &R,
    options: &RunOptions<'_>,
    workers: Workers,
    from: Option<&str>,
    stats: bool,
) -> ExitCode
where
    R::File: Drop,
{
    if is_standard_input(options.image) && is_standard_input(options.batches) {
        return input_taken(rt);
    }
    let from = match stamp_from(rt, from) {
        Ok(from) => from,
        Err(status) => return status,
    };
    let statistics = Statistics::new(rt, stats);
    let runtime = Runtime {
        rt,
        alloc: rt.alloc(),
        workers,
        gate: &statistics,
    };
    let status = run_named(&runtime, options, &from);
    statistics.print();
    status
}

/// Answers commands on the database of an image from a stamp on, if there is one.
fn serve_with<R: Files + Input + Print + Eprint + AllocGlobal + Host, G: Observer>(
    runtime: &Runtime<'_, R, G>,
    image: &str,
    from: &Option<Stamp>,
) -> ExitCode
where
    R::File: Drop,
    requires { IfSome from.now IsWithinLimits }
{
    let rt = runtime.rt;
    let file = match open_input(rt, image) {
        Ok(file) => file,
        Err(error) => return cannot_open(rt, image, &error),
    };
    match from {
        None => serve_commands(runtime, file),
        Some(_) => serve_from(runtime, file, from),
    }
}

/// Answers commands on the database of an image, and then prints statistics if wanted. The image can't be standard input, which
/// has the commands.
fn serve_line<R: Files + Input + Print + Eprint + AllocGlobal + Clock + Host>(
    rt: &R,
    image: &str,
    workers: Workers,
    from: Option<&str>,
    stats: bool,
) -> ExitCode
where
    R::File: Drop,
{
    if is_standard_input(image) {
        return input_taken(rt);
    }
    let from = match stamp_from(rt, from) {
        Ok(from) => from,
        Err(status) => return status,
    };
    let statistics = Statistics::new(rt, stats);
    let runtime = Runtime {
        rt,
        alloc: rt.alloc(),
        workers,
        gate: &statistics,
    };
    let status = serve_with(&runtime, image, &from);
    statistics.print();
    status
}

/// Does what a command line asks.
fn perform<R: System>(rt: &R, line: &Line, shown: Shown) -> ExitCode
where
    R::File: Drop,
    requires { IsWithinBounds line.now }
{
    match line {
        Line::Run {
            image,
            batches,
            workers,
            store,
            from,
            at,
            stats,
        } => {
            let options = RunOptions {
                image: image.as_str(),
                batches: batches.as_str(),
                store: text_of(store),
                at: *at,
                shown,
            };
            run_line(rt, &options, *workers, text_of(from), *stats)
        }
        Line::Check { image } => check_line(rt, image.as_str(), shown),
        Line::Make {
            warehouses,
            customers,
            items,
        } => make(rt, *warehouses, *customers, *items, shown),
        Line::Serve {
            image,
            workers,
            from,
            stats,
        } => serve_line(rt, image.as_str(), *workers, text_of(from), *stats),
    }
}

fn main(rt: HostRuntime) -> ExitCode {
    let _held = hold_closed(&rt);
    let shown = Shown::on(&rt.stderr());
    let words = match words_of(&rt, rt.alloc()) {
        Ok(words) => words,
        Err(fault) => return words_unread(&rt, fault),
    };
    match line_of(rt.alloc(), words) {
        Ok(line) => perform(&rt, &line, shown),
        Err(fault) => explain(&rt, &fault),
    }
}
