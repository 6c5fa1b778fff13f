//! Calls of an executor, and what their records say.
use executor::{Executor, Record, Refusal};
use requests::request::Batch;
use requests::write_reply;
use std::alloc::Global;
use std::thread::Threads;
use tpcc_rows::id::RequestNumber;
use tpcc_rows::key::RowKey;
use workers::{Gate, NoGate, Runtime, Workers};

/// Executes a batch on so many workers, or one request after the other where there is none.
pub fn execute<R: Threads + Sync, G: Gate>(
    rt: &R,
    alloc: Global,
    executor: &mut Executor,
    batch: &Batch,
    count: usize,
    gate: &G,
) -> Result<Record, Refusal> {
    match Workers::new(count) {
        Some(workers) => {
            let runtime = Runtime {
                rt,
                alloc,
                workers,
                gate,
            };
            executor.execute(&runtime, batch)
        }
        None => executor.execute_sequential(rt, alloc, batch),
    }
}

/// How many batches of a run on two workers are executed, and why the next one isn't.
pub fn run<R: Threads + Sync>(
    rt: &R,
    alloc: Global,
    executor: &mut Executor,
    batches: &[Batch],
) -> Option<(usize, Option<Refusal>)> {
    let runtime = Runtime {
        rt,
        alloc,
        workers: Workers::new(2)?,
        gate: &NoGate,
    };
    let end = executor.run(&runtime, batches);
    Some((end.records.len(), end.stop))
}

/// Appends the text of a record's replies, but for so many that come first.
fn push_replies(alloc: Global, record: &Record, skipped: u64, text: &mut Vec<u8>) -> Option<()> {
    let mut place = 0u64;
    for reply in &record.replies {
        if place >= skipped {
            let number = RequestNumber::new(record.first.saturating_add(place))?;
            write_reply(alloc, number, reply, text).ok()?;
        }
        place = place.saturating_add(1);
    }
    Some(())
}

/// Whether a text is the wanted one, in which `;` stands for a line end.
fn is_text(text: &[u8], wanted: &[u8]) -> bool {
    let mut all = text.len() == wanted.len();
    for (byte, other) in text.iter().zip(wanted) {
        all = all && (byte == other || (*byte == b'\n' && *other == b';'));
    }
    all
}

/// Whether a record's replies, but for so many that come first, have this text.
pub fn says(alloc: Global, record: &Record, skipped: u64, wanted: &str) -> Option<bool> {
    let mut text = Vec::new(alloc);
    push_replies(alloc, record, skipped, &mut text)?;
    Some(is_text(&text, wanted.as_bytes()))
}

/// Whether two records say the same.
pub fn are_same(alloc: Global, record: &Record, other: &Record) -> Option<bool> {
    let mut text = Vec::new(alloc);
    let mut other_text = Vec::new(alloc);
    push_replies(alloc, record, 0, &mut text)?;
    push_replies(alloc, other, 0, &mut other_text)?;
    Some(
        (record.sequence, record.first) == (other.sequence, other.first)
            && text == other_text
            && record.token == other.token
            && record.path == other.path,
    )
}

/// Whether of the requests 1 to 8 those up to this number, and no others, have a row of the history.
pub fn has_paid_up_to(executor: &Executor, last: u64) -> Option<bool> {
    let mut all = true;
    for paid in 1..9u64 {
        let number = RequestNumber::new(paid)?;
        let has_row = executor.store().get(&RowKey::History { number }).is_some();
        all = has_row == (paid <= last) && all;
    }
    Some(all)
}
