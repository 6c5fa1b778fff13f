//! What no run of the program shows of the execution of batches: which requests are executed at one time, how often the gate
//! is told, which refusal comes first, what states can be gone back to, and what is left where memory is refused. A line each
//! tells whether it holds. Where memory is refused to what is tried, its line is left out, and the status is 1.
//!
//! What is tried stands in the file `cases` of `data`, but for desks, which come last. Its parts begin with `#`. A part with a
//! title behind it is tried, call by call; the others are batches and an image, which calls name. Behind `->` stands what a call
//! must answer: one number or two, or a refusal.
//!
//! | Call | What it does | Answer |
//! |---|---|---|
//! | `make C I` | opens the made database of one warehouse with C customers in each district and I items | |
//! | `load IMAGE` | opens the database of an image | |
//! | `execute W BATCH` | executes a batch on W workers, or one request after the other where W is 0; `NAME*N` is a batch with deliveries behind it until there are N requests | its number, and that of its first request |
//! | `count W BATCH` | the same, with a gate that counts | likewise |
//! | `run BATCH ..` | runs batches on two workers | how many are executed, and the code of the refusal that ends it |
//! | `commit` | commits a batch | its number |
//! | `back N` | goes back to the state of batch N | the numbers of the last batch and of the next request |
//! | `state` | | likewise |
//! | `token K` | the token of the state is that of record K of the part's records | |
//! | `told N` | the gate was told of N entries and leaves, each in turn | |
//! | `parallel K` | record K is one of a batch of which no request strayed | |
//! | `reran K` | record K is one of a batch of which a request strayed | |
//! | `replies K N TEXT` | the replies of record K, but for the first N, have this text, with `;` in the place of line ends | |
//! | `same K L` | records K and L say the same | |
//! | `paid N` | of the first eight payments those up to number N have a row | |
//! | `meet BATCH` | places 0 and 1 of the batch are executed at the same time | |
//! | `whole BATCH ..` | a run is whole or refused, on the last two databases that were opened | |
#![tactic(auto)]

mod calls;
mod counting;
mod desks;
mod files;
mod meeting;
mod memory;
mod parts;
mod player;

use crate::desks::are_right;
use crate::files::read;
use crate::player::is_shown;
use std::process::ExitCode;
use std::str;
use std::thread::Threads;

/// Tries what a part says, and prints whether it holds. Tells whether there is an answer.
fn show<R: Print + AllocGlobal + Threads + Sync>(rt: &R, text: &str, part: &str) -> bool {
    let Some((title, calls)) = part.split_once('\n') else {
        return true;
    };
    let answer = is_shown(rt, rt.alloc(), text, calls);
    if let Some(answer) = answer {
        let _ = println!(rt; "{title}: {answer}");
    }
    answer.is_some()
}

/// Tries what each part with a title says. Tells whether each has an answer.
fn show_all<R: Print + AllocGlobal + Threads + Sync>(rt: &R, text: &str) -> bool {
    let mut all = true;
    for part in text.split('#') {
        if let Some(part) = part.strip_prefix(' ') {
            all = show(rt, text, part) && all;
        }
    }
    all
}

/// Prints whether desks are right. Tells whether there is an answer.
fn show_desks<R: Print + AllocGlobal>(rt: &R) -> bool {
    let answer = are_right(rt.alloc());
    if let Some(answer) = answer {
        let _ = println!(rt; "what one seat of a desk raises the others see: {answer}");
    }
    answer.is_some()
}

fn main(rt: HostRuntime) -> ExitCode {
    let Some(bytes) = read(&rt, "cases") else {
        return ExitCode::FAILURE;
    };
    let Ok(text) = str::from_utf8(bytes.as_slice()) else {
        return ExitCode::FAILURE;
    };
    let all = show_all(&rt, text);
    if show_desks(&rt) && all {
        ExitCode::SUCCESS
    } else {
        ExitCode::FAILURE
    }
}
