//! The command line's grammar for `clap`: a function for each argument and each subcommand.
ghost use Rattle.std.specs.Prelude.{◌≡◌, ◌≤◌, IfOk, pos};
ghost use Rattle.clap.specs.Words.{new_app};
ghost use Rattle.clap.specs.declared.builder.value_parser.ValueParser.TheVariants.{Signed};
ghost use Rattle.command_line.specs.CommandLine.{IsArgument, IsCommand, Joins, at_rule, bare_app, check_app, from_rule, make_app};
ghost use Rattle.command_line.specs.CommandLine.{number_rule, program_app, ranged_rule, required_rule, run_app};
ghost use Rattle.command_line.specs.CommandLine.{serve_app, stats_rule, store_rule, workers_rule};

use crate::help::{CHECK, MAKE, PROGRAM, RUN, SERVE};
use clap::builder::ValueParser;
use clap::{Arg, ArgAction, Command, value_parser};
use std::alloc::{AllocError, Global};

/// The version of the program.
const VERSION: &str = "1.0.0";

/// Help text of an image argument.
const IMAGE: &str = "The file of the database's image, or - for standard input";

/// The same where standard input has the commands.
const SERVED_IMAGE: &str = "The file of the database's image";

/// Help text of the batches.
const BATCHES: &str = "The file of the batches, or - for standard input";

/// A parser of the numbers from 1 to `most`.
fn up_to<'a>(most: u32) -> ValueParser<'a>
    requires { 1 ≤ most }
    ensures { result ≡ Signed (pos 1) (pos most) }
{
    value_parser!(u32).range(1..=i64::from(most))
}

/// A required positional argument.
fn required<'a>(alloc: Global, id: &'a str, help: &'a str) -> Arg<'a>
    ensures { IsArgument (required_rule id.entry.now) result }
{
    Arg::new(alloc, id).required(true).help(help)
}

/// An argument that takes a number from 1 to `most`.
fn ranged<'a>(alloc: Global, id: &'a str, most: u32, help: &'a str) -> Arg<'a>
    requires { 1 ≤ most }
    ensures { IsArgument (ranged_rule id.entry.now 1 most) result }
{
    Arg::new(alloc, id).value_parser(up_to(most)).help(help)
}

/// A required positional argument that takes a number from 1 to `most`.
fn number<'a>(alloc: Global, id: &'a str, most: u32, help: &'a str) -> Arg<'a>
    requires { 1 ≤ most }
    ensures { IsArgument (number_rule id.entry.now 1 most) result }
{
    ranged(alloc, id, most, help).required(true)
}

fn workers<'a>(alloc: Global) -> Arg<'a>
    ensures { IsArgument workers_rule result }
{
    ranged(alloc, "workers", 64, "The number of workers, 1 to 64")
        .long("workers")
        .value_name("N")
        .default_value("1")
}

fn store<'a>(alloc: Global) -> Arg<'a>
    ensures { IsArgument store_rule result }
{
    Arg::new(alloc, "store")
        .long("store")
        .value_name("FILE")
        .help("A file to write the database's image to, as the batches leave it")
}

fn from<'a>(alloc: Global) -> Arg<'a>
    ensures { IsArgument from_rule result }
{
    Arg::new(alloc, "from")
        .long("from")
        .value_name("SEQ,NEXT,TOKEN")
        .help("The stamp to resume at, as --at or the command A prints it")
}

fn at<'a>(alloc: Global) -> Arg<'a>
    ensures { IsArgument at_rule result }
{
    Arg::new(alloc, "at")
        .long("at")
        .action(ArgAction::SetTrue)
        .help("Prints the stamp of the last state on standard error: at,SEQ,NEXT,TOKEN")
}

fn stats<'a>(alloc: Global) -> Arg<'a>
    ensures { IsArgument stats_rule result }
{
    Arg::new(alloc, "stats")
        .long("stats")
        .action(ArgAction::SetTrue)
        .help("Prints statistics on standard error at the end: a JSON object on one line")
}

/// A subcommand, with its help.
fn described<'a>(alloc: Global, name: &'a str, about: &'a str, end: &'a str) -> Command<'a>
    ensures { IsCommand (new_app name.entry.now) result }
{
    Command::new(alloc, name).about(about).after_help(end)
}

fn run<'a>(alloc: Global) -> Result<Command<'a>, AllocError>
    ensures { IfOk result (IsCommand run_app) }
{
    described(
        alloc,
        "run",
        "Executes the batches of a file on the database of an image",
        RUN,
    )
    .arg(required(alloc, "IMAGE", IMAGE))?
    .arg(required(alloc, "BATCHES", BATCHES))?
    .arg(workers(alloc))?
    .arg(store(alloc))?
    .arg(from(alloc))?
    .arg(at(alloc))?
    .arg(stats(alloc))
}

fn check<'a>(alloc: Global) -> Result<Command<'a>, AllocError>
    ensures { IfOk result (IsCommand check_app) }
{
    described(alloc, "check", "Checks the image of a database", CHECK).arg(required(
        alloc, "IMAGE", IMAGE,
    ))
}

fn make<'a>(alloc: Global) -> Result<Command<'a>, AllocError>
    ensures { IfOk result (IsCommand make_app) }
{
    described(alloc, "make", "Writes the image of a new database", MAKE)
        .arg(number(alloc, "W", 100, "The number of warehouses, 1 to 100"))?
        .arg(number(
            alloc,
            "C",
            3_000,
            "The number of customers of a district, 1 to 3000",
        ))?
        .arg(number(alloc, "I", 100_000, "The number of items, 1 to 100000"))
}

fn serve<'a>(alloc: Global) -> Result<Command<'a>, AllocError>
    ensures { IfOk result (IsCommand serve_app) }
{
    described(
        alloc,
        "serve",
        "Answers commands from standard input, one by one, on the database of an image",
        SERVE,
    )
    .arg(required(alloc, "IMAGE", SERVED_IMAGE))?
    .arg(workers(alloc))?
    .arg(from(alloc))?
    .arg(stats(alloc))
}

/// The program without its subcommands. Usage shows its name as given here, whatever the first word is.
fn bare<'a>(alloc: Global) -> Result<Command<'a>, AllocError>
    ensures { IfOk result (IsCommand bare_app) }
{
    let command = described(
        alloc,
        "eve-tpcc",
        "Executes batches of TPC-C requests",
        PROGRAM,
    )
    .bin_name("eve-tpcc")?
    .version(VERSION)
    .subcommand_required(true);
    Ok(command)
}

/// A command with another subcommand, if no allocation failed.
fn joined<'a>(
    command: Result<Command<'a>, AllocError>,
    subcommand: Result<Command<'a>, AllocError>,
) -> Result<Command<'a>, AllocError>
    ensures { Joins command.entry subcommand.entry result }
{
    let subcommand = subcommand?;
    command?.subcommand(subcommand)
}

/// The grammar of the whole command line.
pub fn program<'a>(alloc: Global) -> Result<Command<'a>, AllocError>
    ensures { IfOk result (IsCommand program_app) }
{
    let with_run = joined(bare(alloc), run(alloc));
    let with_check = joined(with_run, check(alloc));
    let with_make = joined(with_check, make(alloc));
    joined(with_make, serve(alloc))
}
