//! From `clap`'s matches to the parsed command line.
ghost use Rattle.std.specs.Prelude.{◌≡◌, [], IfErr, IfOk, IfSome, IsSomeAnd, OnOk, codes, map, option_map};
ghost use Rattle.std.specs.Prelude.{string_bytes};
ghost use Rattle.std.specs.Int.{IsInRange};
ghost use Rattle.clap.specs.Words.{fault_of, first_of, subcommand_of, subcommand_rows_of};
ghost use Rattle.command_line.specs.CommandLine.{HasFlag, HasNumber, HasOption, HasText, IsFaultOf, IsLineOf};
ghost use Rattle.command_line.specs.CommandLine.{IsWithinBounds, program_app, rows_in};

use crate::command::program;
use crate::line::{Line, LineFault};
use clap::ArgMatches;
use std::alloc::{AllocError, Global};
use tickets::Workers;

/// Has `clap` match the words.
pub fn matches_of<'a>(alloc: Global, words: &'a [String]) -> Result<ArgMatches<'a>, LineFault>
    ensures subcommand { IfOk result (λ matches.
        subcommand_rows_of matches ≡ subcommand_of program_app (map string_bytes words.entry.now)) }
    ensures accepted { OnOk result (fault_of program_app (map string_bytes words.entry.now) ≡ []) }
    ensures refused { IfErr result (IsFaultOf (fault_of program_app
        (map string_bytes words.entry.now))) }
{
    Ok(program(alloc)?.try_get_matches_from(words)?)
}

/// The value of an argument, if any.
fn value_of<'a>(matches: &ArgMatches<'a>, id: &str) -> Option<&'a str>
    ensures { option_map (λ value. value.now) result ≡ first_of id.now (rows_in matches.now) }
{
    matches.get_str(id)
}

/// The text of an argument.
fn text_of(alloc: Global, matches: &ArgMatches, id: &str) -> Option<String>
    ensures { IfSome result (HasText (rows_in matches.now) id.now) }
{
    String::from_str(alloc, value_of(matches, id)?).ok()
}

/// The text of an optional argument.
fn option_of(alloc: Global, matches: &ArgMatches, id: &str) -> Result<Option<String>, AllocError>
    ensures { IfOk result (HasOption (rows_in matches.now) id.now) }
{
    let Some(value) = value_of(matches, id) else {
        return Ok(None);
    };
    Ok(Some(String::from_str(alloc, value)?))
}

/// Whether a flag was given.
fn flag_of(matches: &ArgMatches, id: &str) -> Option<bool>
    ensures { IfSome result (HasFlag (rows_in matches.now) id.now) }
{
    match value_of(matches, id)? {
        "true" => Some(true),
        "false" => Some(false),
        _ => None,
    }
}

/// The number from `least` to `most` that an argument spells.
fn number_of(matches: &ArgMatches, id: &str, least: u32, most: u32) -> Option<u32>
    ensures number { IfSome result (HasNumber (rows_in matches.now) id.now) }
    ensures bounds { IfSome result (IsInRange least most) }
{
    let number: u32 = value_of(matches, id)?.parse().ok()?;
    if least <= number && number <= most {
        Some(number)
    } else {
        None
    }
}

fn run_in(alloc: Global, matches: &ArgMatches) -> Option<Line>
    ensures line { IfSome result (λ line. IsLineOf line (codes "run", rows_in matches.now)) }
    ensures bounds { IfSome result IsWithinBounds }
{
    let workers = number_of(matches, "workers", 1, 64)?;
    Some(Line::Run {
        image: text_of(alloc, matches, "IMAGE")?,
        batches: text_of(alloc, matches, "BATCHES")?,
        workers: Workers::new(workers as usize)?,
        store: option_of(alloc, matches, "store").ok()?,
        from: option_of(alloc, matches, "from").ok()?,
        at: flag_of(matches, "at")?,
        stats: flag_of(matches, "stats")?,
    })
}

fn check_in(alloc: Global, matches: &ArgMatches) -> Option<Line>
    ensures line { IfSome result (λ line. IsLineOf line (codes "check", rows_in matches.now)) }
    ensures bounds { IfSome result IsWithinBounds }
{
    let image = text_of(alloc, matches, "IMAGE")?;
    Some(Line::Check { image })
}

fn make_in(matches: &ArgMatches) -> Option<Line>
    ensures line { IfSome result (λ line. IsLineOf line (codes "make", rows_in matches.now)) }
    ensures bounds { IfSome result IsWithinBounds }
{
    Some(Line::Make {
        warehouses: number_of(matches, "W", 1, 100)? as u8,
        customers: number_of(matches, "C", 1, 3_000)? as u16,
        items: number_of(matches, "I", 1, 100_000)?,
    })
}

fn serve_in(alloc: Global, matches: &ArgMatches) -> Option<Line>
    ensures line { IfSome result (λ line. IsLineOf line (codes "serve", rows_in matches.now)) }
    ensures bounds { IfSome result IsWithinBounds }
{
    let workers = number_of(matches, "workers", 1, 64)?;
    Some(Line::Serve {
        image: text_of(alloc, matches, "IMAGE")?,
        workers: Workers::new(workers as usize)?,
        from: option_of(alloc, matches, "from").ok()?,
        stats: flag_of(matches, "stats")?,
    })
}

/// The parsed line of the matched subcommand; `None` if memory runs out, or if `clap` has no value for one of its arguments.
pub fn line_in(alloc: Global, matches: &ArgMatches) -> Option<Line>
    ensures line { IfSome result (λ line.
        IsSomeAnd (subcommand_rows_of matches.now) (IsLineOf line)) }
    ensures bounds { IfSome result IsWithinBounds }
{
    match matches.subcommand()? {
        ("run", run) => run_in(alloc, run),
        ("check", check) => check_in(alloc, check),
        ("make", make) => make_in(make),
        ("serve", serve) => serve_in(alloc, serve),
        _ => None,
    }
}
