//! Parts of the text of cases that calls name: batches, and images.
use executor::Executor;
use loader::load;
use made_database::make;
use requests::request::{Batch, Delivery, Request, Requests};
use requests::{BatchReader, BytesSource};
use std::alloc::Global;
use std::thread::Threads;
use tpcc_rows::id::WarehouseId;
use tpcc_rows::number::Carrier;

/// A number; one that nothing has where a text is none.
pub fn number_of(text: &str) -> u64 {
    text.parse().unwrap_or(u64::MAX)
}

/// The first word of a text, and the rest.
pub fn first_word(text: &str) -> (&str, &str) {
    text.split_once(' ').unwrap_or((text, ""))
}

/// What stands behind the name of a part.
fn part_named<'a>(text: &'a str, name: &str) -> Option<&'a str> {
    for part in text.split('#') {
        if let Some((own, rest)) = part.split_once('\n') {
            if own == name {
                return Some(rest);
            }
        }
    }
    None
}

/// A made database of one warehouse, with so many customers in each district and so many items, before any batch.
pub fn made<R: Threads + Sync>(
    rt: &R,
    alloc: Global,
    customers: u64,
    items: u64,
) -> Option<Executor> {
    if customers < 1 || 3000 < customers || items < 1 || 100_000 < items {
        return None;
    }
    let (catalog, store) = make(alloc, 1, customers as u16, items as u32).ok()?;
    Executor::new(rt, alloc, catalog, store).ok()
}

/// The database of an image, before any batch.
pub fn loaded<R: Threads + Sync>(
    rt: &R,
    alloc: Global,
    text: &str,
    name: &str,
) -> Option<Executor> {
    let image = part_named(text, name)?.as_bytes();
    let (catalog, store) = load(alloc, &mut BytesSource::new(image, 4096)).ok()?;
    Executor::new(rt, alloc, catalog, store).ok()
}

/// The first batch of a text.
fn batch_of(alloc: Global, text: &[u8]) -> Option<Batch> {
    match BatchReader::new(alloc, text) {
        Ok(mut reader) => reader.next_batch(alloc).unwrap_or(None),
        Err(_) => None,
    }
}

/// One delivery more.
fn push_delivery(requests: &mut Requests) -> Option<()> {
    let delivery = Delivery {
        warehouse: WarehouseId::new(1)?,
        carrier: Carrier::new(1)?,
    };
    requests.push(Request::Delivery(delivery)).ok()
}

/// Adds deliveries until there are so many requests.
fn fill(requests: &mut Requests, count: u64) -> Option<()> {
    for _ in requests.len() as u64..count {
        push_delivery(requests)?;
    }
    Some(())
}

/// The batch of a part, with deliveries behind it until there are as many requests as stand behind a star.
pub fn batch_named(alloc: Global, text: &str, word: &str) -> Option<Batch> {
    let (name, count) = word.split_once('*').unwrap_or((word, ""));
    let mut batch = batch_of(alloc, part_named(text, name)?.as_bytes())?;
    if count.is_empty() || fill(&mut batch.requests, number_of(count)).is_some() {
        Some(batch)
    } else {
        None
    }
}

/// Appends the batches of parts.
pub fn push_batches(
    alloc: Global,
    text: &str,
    words: &str,
    batches: &mut Vec<Batch>,
) -> Option<()> {
    for word in words.split_whitespace() {
        batches.push(batch_named(alloc, text, word)?).ok()?;
    }
    Some(())
}
