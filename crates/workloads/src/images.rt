//! Images of databases as TPC-C clause 4.3.3 fills them, or smaller.
use crate::text::Text;
use std::alloc::{AllocError, Global};

/// What an image has.
#[derive(Clone, Copy)]
pub struct Size {
    pub warehouses: u64,
    /// Customers of each district.
    pub customers: u64,
    /// The least length of a customer's data; the greatest is `LONGEST_DATA`.
    pub least_data: u64,
    pub items: u64,
    /// Orders of each district; three of ten are new.
    pub orders: u64,
}

/// The least length of a customer's data where a database is filled as the standard has it.
pub const STANDARD_DATA: u64 = 300;

/// The greatest length of a customer's data.
pub const LONGEST_DATA: u64 = 500;

/// How many last names there are.
pub const NAMES: u64 = 1_000;

/// What each district took in so far, in cents.
const YTD: u64 = 3_000_000;

fn put_warehouses(text: &mut Text, size: Size) -> Result<(), AllocError> {
    for w in 1..size.warehouses.saturating_add(1) {
        text.put(b"W")?;
        text.numbers(&[w])?;
        text.letters(6, 10)?;
        let tax = text.draw.between(0, 2_000);
        text.numbers(&[tax, 10 * YTD])?;
        text.end()?;
    }
    Ok(())
}

fn put_districts(text: &mut Text, w: u64, size: Size) -> Result<(), AllocError> {
    for d in 1..11 {
        text.put(b"D")?;
        text.numbers(&[w, d])?;
        text.letters(6, 10)?;
        let tax = text.draw.between(0, 2_000);
        text.numbers(&[tax, YTD, size.orders.saturating_add(1)])?;
        text.end()?;
    }
    Ok(())
}

fn put_customer(text: &mut Text, w: u64, d: u64, c: u64, size: Size) -> Result<(), AllocError> {
    let name = if c <= NAMES {
        c.saturating_sub(1)
    } else {
        text.draw.skewed(255, 0, NAMES - 1)
    };
    text.put(b"C")?;
    text.numbers(&[w, d, c])?;
    text.put(b",NAME")?;
    text.digits(name)?;
    text.put(b",OE")?;
    text.letters(8, 16)?;
    text.put(if c % 10 == 0 { b",BC" } else { b",GC" })?;
    let discount = text.draw.between(0, 5_000);
    text.numbers(&[discount])?;
    text.put(b",-1000,1000,1,0")?;
    text.letters(size.least_data, LONGEST_DATA)?;
    text.end()
}

fn put_customers(text: &mut Text, w: u64, size: Size) -> Result<(), AllocError> {
    for d in 1..11 {
        for c in 1..size.customers.saturating_add(1) {
            put_customer(text, w, d, c, size)?;
        }
    }
    Ok(())
}

fn put_items(text: &mut Text, size: Size) -> Result<(), AllocError> {
    for i in 1..size.items.saturating_add(1) {
        text.put(b"I")?;
        text.numbers(&[i])?;
        text.letters(14, 24)?;
        let price = text.draw.between(100, 10_000);
        text.numbers(&[price])?;
        text.letters(26, 50)?;
        text.end()?;
    }
    Ok(())
}

fn put_stocks(text: &mut Text, w: u64, size: Size) -> Result<(), AllocError> {
    for i in 1..size.items.saturating_add(1) {
        let quantity = text.draw.between(10, 100);
        text.put(b"S")?;
        text.numbers(&[w, i, quantity, 0, 0, 0])?;
        text.letters(26, 50)?;
        for _ in 0..10 {
            text.letters(24, 24)?;
        }
        text.end()?;
    }
    Ok(())
}

/// How many lines an order has; the same each time it is asked.
fn lines_of(d: u64, o: u64) -> u64 {
    5 + d.wrapping_mul(31).wrapping_add(o.wrapping_mul(17)) % 11
}

/// Whether an order is new.
fn is_new(o: u64, size: Size) -> bool {
    size.orders / 10 * 7 < o
}

fn put_order(text: &mut Text, w: u64, d: u64, o: u64, size: Size) -> Result<(), AllocError> {
    let customer = text.draw.between(1, size.customers);
    text.put(b"O")?;
    text.numbers(&[w, d, o, customer, 700])?;
    if is_new(o, size) {
        text.put(b",-")?;
    } else {
        let carrier = text.draw.between(1, 10);
        text.numbers(&[carrier])?;
    }
    text.numbers(&[lines_of(d, o), 1])?;
    text.end()
}

fn put_line(text: &mut Text, key: &[u64], is_new: bool, size: Size) -> Result<(), AllocError> {
    let item = text.draw.between(1, size.items);
    text.put(b"L")?;
    text.numbers(key)?;
    text.numbers(&[item])?;
    text.numbers(key.get(..1).unwrap_or(key))?;
    if is_new {
        let amount = text.draw.between(1, 999_999);
        text.put(b",-")?;
        text.numbers(&[5, amount])?;
    } else {
        text.numbers(&[700, 5, 0])?;
    }
    text.letters(24, 24)?;
    text.end()
}

fn put_lines(text: &mut Text, w: u64, d: u64, size: Size) -> Result<(), AllocError> {
    for o in 1..size.orders.saturating_add(1) {
        for number in 1..lines_of(d, o).saturating_add(1) {
            put_line(text, &[w, d, o, number], is_new(o, size), size)?;
        }
    }
    Ok(())
}

fn put_new_orders(text: &mut Text, w: u64, d: u64, size: Size) -> Result<(), AllocError> {
    for o in 1..size.orders.saturating_add(1) {
        if is_new(o, size) {
            text.put(b"N")?;
            text.numbers(&[w, d, o])?;
            text.end()?;
        }
    }
    Ok(())
}

fn put_orders(text: &mut Text, w: u64, size: Size) -> Result<(), AllocError> {
    for d in 1..11 {
        for o in 1..size.orders.saturating_add(1) {
            put_order(text, w, d, o, size)?;
        }
    }
    for d in 1..11 {
        put_new_orders(text, w, d, size)?;
    }
    for d in 1..11 {
        put_lines(text, w, d, size)?;
    }
    Ok(())
}

/// A payment for each order.
fn put_history(text: &mut Text, size: Size) -> Result<(), AllocError> {
    let rows = size
        .orders
        .saturating_mul(10)
        .saturating_mul(size.warehouses);
    for number in 1..rows.saturating_add(1) {
        let (w, d) = (number % size.warehouses.max(1) + 1, number % 10 + 1);
        let customer = text.draw.between(1, size.customers);
        text.put(b"H")?;
        text.numbers(&[number, customer, d, w, d, w, 700, 1_000])?;
        text.letters(12, 24)?;
        text.end()?;
    }
    Ok(())
}

/// An image of this size, its kinds in the order in which an image is stored.
pub fn image(alloc: Global, seed: u32, size: Size) -> Result<Vec<u8>, AllocError> {
    let mut text = Text::new(alloc, seed)?;
    let warehouses = size.warehouses.saturating_add(1);
    text.put(b"eve-tpcc,1\n")?;
    put_warehouses(&mut text, size)?;
    for w in 1..warehouses {
        put_districts(&mut text, w, size)?;
    }
    for w in 1..warehouses {
        put_customers(&mut text, w, size)?;
    }
    put_items(&mut text, size)?;
    for w in 1..warehouses {
        put_stocks(&mut text, w, size)?;
    }
    for w in 1..warehouses {
        put_orders(&mut text, w, size)?;
    }
    put_history(&mut text, size)?;
    let records = text.records;
    text.put(b"E")?;
    text.numbers(&[records])?;
    text.end()?;
    Ok(text.bytes)
}

/// The image with its records in reverse, but the first and the last.
pub fn reversed(alloc: Global, image: &[u8]) -> Result<Vec<u8>, AllocError> {
    let mut text = b"eve-tpcc,1\n".to_vec(alloc)?;
    let mut end = Vec::new(alloc);
    for line in image.rsplit(|byte| *byte == b'\n') {
        if line.starts_with(b"E,") {
            end.extend_from_slice(line)?;
        } else if !line.is_empty() && !line.starts_with(b"eve") {
            text.extend_from_slice(line)?;
            text.push(b'\n')?;
        }
    }
    text.extend_from_slice(end.as_slice())?;
    text.push(b'\n')?;
    Ok(text)
}
