//! Ten thousand batches that look random are executed in levels, by two to eight workers, and in order, on the same state: replies
//! and tokens, which cover the tables, are the same. From the middle on, threads help with hashing. At the first batch that differs
//! the program says which, and ends with status 1. Standard error has the numbers of batches that took each path.
#![tactic(auto)]

mod batches;
mod comparing;
mod dice;
mod requesting;
mod seen;
mod trials;
mod watching;

use crate::trials::Trials;
use hashers::Host;
use std::process::ExitCode;

/// The number of batches.
const TURNS: u64 = 10_000;

/// The first turn whose batch differs, or isn't executed.
fn first_fault<R: Host + AllocGlobal>(rt: &R, trials: &mut Trials) -> Option<u64> {
    for turn in 0..TURNS {
        if turn == TURNS / 2 {
            trials.keep_threads(*rt, rt.alloc());
        }
        if trials.holds(rt, rt.alloc(), turn) != Some(true) {
            return Some(turn);
        }
    }
    None
}

fn main(rt: HostRuntime) -> ExitCode {
    let Some(mut trials) = Trials::open(&rt, rt.alloc()) else {
        return ExitCode::FAILURE;
    };
    if let Some(turn) = first_fault(&rt, &mut trials) {
        let _ = println!(rt; "batch {turn} differs, or isn't executed");
        return ExitCode::FAILURE;
    }
    let seen = trials.seen;
    seen.print(&rt);
    let _ = println!(rt;
        "{} batches in levels: replies and tokens as in order",
        seen.in_levels()
    );
    let _ = println!(rt; "all paths: {}", seen.has_all_paths());
    let _ = println!(rt;
        "levels of several workers, with a gate that listens and without: {}",
        seen.has_shared_levels()
    );
    ExitCode::SUCCESS
}
