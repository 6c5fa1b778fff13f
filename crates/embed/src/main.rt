//! How a program embeds the stage. It loads the database of an image, and executes two batches on it; it looks at their replies and
//! paths, commits the first, and takes the second back, of which a request is refused.
#![tactic(auto)]

ghost use Rattle.std.specs.Prelude.{◌≡◌, [], IfOk, OnErr, if◌then◌else◌};
ghost use Rattle.executor.specs.Chains.{committed, extended};

use executor::{Executor, Record, Refusal};
use requests::{Batch, BatchReader, Counting, Reply};
use runner::load_executor;
use std::fs;
use std::io::Result as Printed;
use std::process::ExitCode;
use std::rt::Files;
use std::thread::Threads;
use workers::{Gate, NoGate, Runtime, Workers};

/// Two payments and a delivery. Batches can be made of values, too.
const FIRST: &str = "B,100,commit,3\nP,1,1,1,1,I,3,500\nP,1,2,1,2,L,NAME5,900\nD,1,7\n";

/// A payment of a customer who isn't there.
const SECOND: &str = "B,101,commit,1\nP,1,1,1,1,I,8,500\n";

fn is_granted(reply: &Reply) -> bool {
    match reply {
        Reply::Refused { .. } => false,
        _ => true,
    }
}

/// Executes a batch, and commits it where each request is granted; else the batch is taken back. Tells which, beside what it did.
fn keep_granted<R: Threads + Sync, G: Gate>(
    runtime: &Runtime<'_, R, G>,
    executor: &mut Executor,
    batch: &Batch,
) -> Result<(Record, bool), Refusal>
    requires alone { executor.old.earlier ≡ [] }
    ensures alone { executor.new.earlier ≡ [] }
    ensures kept { IfOk result (λ done. executor.new ≡ (if done.1 then committed (extended executor.old batch.now) else executor.old)) }
    ensures err { OnErr result (executor.new ≡ executor.old) }
{
    let before = executor.sequence();
    let record = executor.execute(runtime, batch)?;
    let is_kept = record.replies.iter().all(is_granted);
    if is_kept {
        executor.commit().unwrap();
    } else {
        executor.rollback_to(before).unwrap();
    }
    Ok((record, is_kept))
}

/// Prints what a batch did.
fn show<R: Print>(rt: &R, record: &Record, is_kept: bool) -> Printed<()> {
    for reply in &record.replies {
        match reply {
            Reply::Payment(paid) => println!(rt; "paid; the balance is {}", paid.balance.amount())?,
            Reply::Refused { .. } => println!(rt; "refused")?,
            _ => println!(rt; "granted")?,
        }
    }
    let end = if is_kept { "committed" } else { "taken back" };
    println!(rt; "batch {}: {:?}, {end}", record.sequence, record.path)
}

/// Executes the batch of a text. None where it can't be read, where it isn't executed, or where a print fails.
fn execute_text<R: Print + Threads + Sync, G: Gate>(
    runtime: &Runtime<'_, R, G>,
    executor: &mut Executor,
    text: &str,
) -> Option<()>
    requires alone { executor.old.earlier ≡ [] }
    ensures alone { executor.new.earlier ≡ [] }
{
    let mut reader = BatchReader::new(runtime.alloc, text.as_bytes()).ok()?;
    let batch = reader.next_batch(runtime.alloc).ok()??;
    let (record, is_kept) = keep_granted(runtime, executor, &batch).ok()?;
    show(runtime.rt, &record, is_kept).ok()
}

/// Loads the image of this path, and executes both batches.
fn execute_both<R: Files + Print + AllocGlobal + Threads + Sync>(rt: &R, path: &str) -> Option<()>
where
    R::File: Drop,
{
    let mut source = Counting::new(fs::open(rt, path).ok()?);
    let mut executor = load_executor(rt, rt.alloc(), &mut source).ok()?;
    let runtime = Runtime {
        rt,
        alloc: rt.alloc(),
        workers: Workers::new(4)?,
        gate: &NoGate,
    };
    execute_text(&runtime, &mut executor, FIRST)?;
    execute_text(&runtime, &mut executor, SECOND)
}

fn main(rt: HostRuntime) -> ExitCode {
    match execute_both(&rt, "small.csv") {
        Some(()) => ExitCode::SUCCESS,
        None => ExitCode::FAILURE,
    }
}
