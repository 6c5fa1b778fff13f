//! Batches of requests, and commands of a session.
use crate::images::{NAMES, Size};
use crate::text::Text;
use std::alloc::{AllocError, Global};

/// Commas in front of a name are the caller's.
fn put_customer(text: &mut Text, size: Size, by_name: u64) -> Result<(), AllocError> {
    if text.draw.is_within(by_name) {
        let names = size.customers.clamp(1, NAMES);
        let name = text.draw.skewed(255, 0, names.wrapping_sub(1));
        text.put(b",L,NAME")?;
        text.digits(name)
    } else {
        let customer = text.draw.skewed(1_023, 1, size.customers);
        text.put(b",I")?;
        text.numbers(&[customer])
    }
}

fn put_new_order(text: &mut Text, w: u64, d: u64, size: Size) -> Result<(), AllocError> {
    let customer = text.draw.skewed(1_023, 1, size.customers);
    let lines = text.draw.between(5, 15);
    let is_refused = text.draw.is_within(1);
    text.put(b"N")?;
    text.numbers(&[w, d, customer])?;
    for line in 1..lines.saturating_add(1) {
        let item = if is_refused && line == lines {
            999_999
        } else {
            text.draw.skewed(8_191, 1, size.items)
        };
        let is_remote = text.draw.is_within(1);
        let supply = if is_remote {
            text.draw.between(1, size.warehouses)
        } else {
            w
        };
        let quantity = text.draw.between(1, 10);
        text.numbers(&[item, supply, quantity])?;
    }
    text.end()
}

fn put_payment(text: &mut Text, w: u64, d: u64, size: Size) -> Result<(), AllocError> {
    let (cw, cd) = if text.draw.is_within(15) {
        (
            text.draw.between(1, size.warehouses),
            text.draw.between(1, 10),
        )
    } else {
        (w, d)
    };
    text.put(b"P")?;
    text.numbers(&[w, d, cw, cd])?;
    put_customer(text, size, 60)?;
    let amount = text.draw.between(100, 500_000);
    text.numbers(&[amount])?;
    text.end()
}

fn put_order_status(text: &mut Text, w: u64, d: u64, size: Size) -> Result<(), AllocError> {
    text.put(b"O")?;
    text.numbers(&[w, d])?;
    put_customer(text, size, 60)?;
    text.end()
}

fn put_delivery(text: &mut Text, w: u64) -> Result<(), AllocError> {
    let carrier = text.draw.between(1, 10);
    text.put(b"D")?;
    text.numbers(&[w, carrier])?;
    text.end()
}

fn put_stock_level(text: &mut Text, w: u64, d: u64) -> Result<(), AllocError> {
    let threshold = text.draw.between(10, 20);
    text.put(b"S")?;
    text.numbers(&[w, d, threshold])?;
    text.end()
}

/// One of a hundred requests of which 45 are new orders, 43 payments, and 4 of each other kind (TPC-C clause 5.2.3).
fn put_mixed(text: &mut Text, w: u64, d: u64, size: Size) -> Result<(), AllocError> {
    match text.draw.between(1, 100) {
        1..46 => put_new_order(text, w, d, size),
        46..89 => put_payment(text, w, d, size),
        89..93 => put_order_status(text, w, d, size),
        93..97 => put_delivery(text, w),
        _ => put_stock_level(text, w, d),
    }
}

fn put_head(text: &mut Text, verdict: &[u8], count: u64) -> Result<(), AllocError> {
    let moment = text.records.wrapping_add(1_000);
    text.put(b"B")?;
    text.numbers(&[moment])?;
    text.put(verdict)?;
    text.numbers(&[count])?;
    text.end()
}

fn put_batch(text: &mut Text, verdict: &[u8], count: u64, size: Size) -> Result<(), AllocError> {
    put_head(text, verdict, count)?;
    for _ in 0..count {
        let w = text.draw.between(1, size.warehouses);
        let d = text.draw.between(1, 10);
        put_mixed(text, w, d, size)?;
    }
    Ok(())
}

/// So many batches of so many mixed requests each.
pub fn mixed(
    alloc: Global,
    seed: u32,
    size: Size,
    batches: u64,
    requests: u64,
) -> Result<Vec<u8>, AllocError> {
    let mut text = Text::new(alloc, seed)?;
    for _ in 0..batches {
        put_batch(&mut text, b",commit", requests, size)?;
    }
    Ok(text.bytes)
}

/// Commands: batches of so many payments, and of new orders that mostly share nothing, each committed.
pub fn small(
    alloc: Global,
    seed: u32,
    size: Size,
    batches: u64,
    payments: u64,
) -> Result<Vec<u8>, AllocError> {
    let mut text = Text::new(alloc, seed)?;
    for batch in 0..batches {
        let orders = 1 + batch % 16;
        put_head(&mut text, b",commit", payments)?;
        for _ in 0..payments {
            let w = text.draw.between(1, size.warehouses);
            let d = text.draw.between(1, 10);
            put_payment(&mut text, w, d, size)?;
        }
        text.put(b"C\n")?;
        put_head(&mut text, b",commit", orders)?;
        for _ in 0..orders {
            let w = text.draw.between(1, size.warehouses);
            let d = text.draw.between(1, 10);
            put_new_order(&mut text, w, d, size)?;
        }
        text.put(b"C\n")?;
    }
    Ok(text.bytes)
}

/// An order of fifteen lines.
fn put_long_order(text: &mut Text, size: Size) -> Result<(), AllocError> {
    let customer = text.draw.between(1, size.customers);
    text.put(b"N")?;
    text.numbers(&[1, 1, customer])?;
    for _ in 0..15 {
        let item = text.draw.between(1, size.items);
        text.numbers(&[item, 1, 5])?;
    }
    text.end()
}

/// Requests at one district: long orders, deliveries of orders of the same batch, payments of one customer of bad credit, and stock
/// levels over three hundred items.
fn put_crowd(text: &mut Text, count: u64, size: Size) -> Result<(), AllocError> {
    put_head(text, b",commit", count)?;
    for _ in 0..count {
        match text.draw.between(1, 10) {
            1..7 => put_long_order(text, size)?,
            7..9 => {
                let amount = text.draw.between(100, 500_000);
                text.put(b"P,1,1,1,1,I,10")?;
                text.numbers(&[amount])?;
                text.end()?;
            }
            9..10 => put_delivery(text, 1)?,
            _ => put_stock_level(text, 1, 1)?,
        }
    }
    Ok(())
}

/// Eight batches in flight, of which the last four go back and others come in their place; then all are committed.
fn put_flight(text: &mut Text, round: u64, count: u64, size: Size) -> Result<(), AllocError> {
    for turn in 0..8u64 {
        match turn % 4 {
            3 => put_crowd(text, count, size)?,
            1 => put_batch(text, b",rerun", count, size)?,
            _ => put_batch(text, b",commit", count, size)?,
        }
    }
    text.put(b"R")?;
    text.numbers(&[round.wrapping_mul(8).wrapping_add(4)])?;
    text.put(b"\n")?;
    for _ in 0..4 {
        put_batch(text, b",commit", count, size)?;
    }
    for _ in 0..8 {
        text.put(b"C\n")?;
    }
    Ok(())
}

/// Commands of such flights, and for the image at the end.
pub fn flights(
    alloc: Global,
    seed: u32,
    size: Size,
    rounds: u64,
    requests: u64,
) -> Result<Vec<u8>, AllocError> {
    let mut text = Text::new(alloc, seed)?;
    for round in 0..rounds {
        put_flight(&mut text, round, requests, size)?;
    }
    text.put(b"I\n")?;
    Ok(text.bytes)
}
