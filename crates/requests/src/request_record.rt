//! The record of a request.
ghost use Rattle.std.specs.Prelude.{◌≡◌, ◌+◌, ◌<◌, ◌^◌};
ghost use Rattle.csv.specs.Records.{fields_of};
ghost use Rattle.tpcc_rows.specs.Limits.{IsBetween};
ghost use Rattle.requests.specs.BatchRecords.{request_at};
ghost use Rattle.requests.specs.RequestRecords.{choice_at, delivery_fields, has_lines, line_count, new_order_fields, order_status_fields, ordered_line_at, ordered_lines_at, payment_fields, stock_level_fields};

use crate::request::{
    CustomerChoice, Delivery, NewOrder, OrderStatus, OrderedLine, OrderedLines, Payment, Request,
    StockLevel,
};
use crate::request_fields::{ordered_quantity, payment_amount, requested_item, threshold};
use arrayvec::ArrayVec;
use csv::ByteRecord;
use records::fault::FaultKind;
use records::fields::{carrier, customer, district, has_text, text, warehouse};

/// The number of lines of a new order's record: three fields each, after the first four.
fn line_count(fields: &ByteRecord) -> usize
    ensures { result ≡ line_count (fields_of fields.now) }
{
    fields.len().saturating_sub(4) / 3
}

/// Whether a new order's record has a valid number of fields.
fn has_lines(fields: &ByteRecord) -> bool
    ensures { result ≡ has_lines (fields_of fields.now) }
{
    let count = line_count(fields);
    5 <= count && count <= 15 && fields.len() == 4 + 3 * count
}

/// Parses a line from this field on.
fn ordered_line(fields: &ByteRecord, i: usize) -> Result<OrderedLine, FaultKind>
    requires { i + 2 < 2 ^ 64 }
    ensures { result ≡ ordered_line_at (fields_of fields.now) i }
{
    Ok(OrderedLine {
        item: requested_item(fields, i)?,
        supply: warehouse(fields, i + 1)?,
        quantity: ordered_quantity(fields, i + 2)?,
    })
}

/// Parses this number of lines.
fn ordered_lines(fields: &ByteRecord, count: usize) -> Result<OrderedLines, FaultKind>
    requires { IsBetween 5 15 count }
    ensures { result ≡ ordered_lines_at (fields_of fields.now) 4 count }
{
    let mut lines = ArrayVec::<OrderedLine, 15>::new();
    for number in 0..count {
        lines.push(ordered_line(fields, 4 + 3 * number)?);
    }
    OrderedLines::new(lines.as_slice()).ok_or(FaultKind::WrongCount)
}

#[tactic(auto, unfolding(crate::specs::RequestRecords::new_order_fields))]
fn new_order(fields: &ByteRecord) -> Result<NewOrder, FaultKind>
    requires { IsBetween 5 15 (line_count (fields_of fields.now)) }
    ensures { result ≡ new_order_fields (fields_of fields.now) }
{
    Ok(NewOrder {
        warehouse: warehouse(fields, 1)?,
        district: district(fields, 2)?,
        customer: customer(fields, 3)?,
        lines: ordered_lines(fields, line_count(fields))?,
    })
}

/// Parses the choice of a customer: its form, and in the next field the choice.
fn customer_choice(fields: &ByteRecord, i: usize) -> Result<CustomerChoice, FaultKind>
    requires { i + 1 < 2 ^ 64 }
    ensures { result ≡ choice_at (fields_of fields.now) i }
{
    if has_text(fields, i, b"I") {
        return Ok(CustomerChoice::Number(customer(fields, i + 1)?));
    }
    if has_text(fields, i, b"L") {
        return Ok(CustomerChoice::LastName(text(fields, i + 1)?));
    }
    Err(FaultKind::BadField)
}

#[tactic(auto, unfolding(crate::specs::RequestRecords::payment_fields))]
fn payment(fields: &ByteRecord) -> Result<Payment, FaultKind>
    ensures { result ≡ payment_fields (fields_of fields.now) }
{
    Ok(Payment {
        warehouse: warehouse(fields, 1)?,
        district: district(fields, 2)?,
        customer_warehouse: warehouse(fields, 3)?,
        customer_district: district(fields, 4)?,
        customer: customer_choice(fields, 5)?,
        amount: payment_amount(fields, 7)?,
    })
}

#[tactic(auto, unfolding(crate::specs::RequestRecords::order_status_fields))]
fn order_status(fields: &ByteRecord) -> Result<OrderStatus, FaultKind>
    ensures { result ≡ order_status_fields (fields_of fields.now) }
{
    Ok(OrderStatus {
        warehouse: warehouse(fields, 1)?,
        district: district(fields, 2)?,
        customer: customer_choice(fields, 3)?,
    })
}

#[tactic(auto, unfolding(crate::specs::RequestRecords::delivery_fields))]
fn delivery(fields: &ByteRecord) -> Result<Delivery, FaultKind>
    ensures { result ≡ delivery_fields (fields_of fields.now) }
{
    Ok(Delivery {
        warehouse: warehouse(fields, 1)?,
        carrier: carrier(fields, 2)?,
    })
}

#[tactic(auto, unfolding(crate::specs::RequestRecords::stock_level_fields))]
fn stock_level(fields: &ByteRecord) -> Result<StockLevel, FaultKind>
    ensures { result ≡ stock_level_fields (fields_of fields.now) }
{
    Ok(StockLevel {
        warehouse: warehouse(fields, 1)?,
        district: district(fields, 2)?,
        threshold: threshold(fields, 3)?,
    })
}

/// Parses a record where a request is expected.
pub fn request(fields: &ByteRecord) -> Result<Request, FaultKind>
    ensures { result ≡ request_at (fields_of fields.now) }
{
    if has_text(fields, 0, b"N") {
        if !has_lines(fields) {
            return Err(FaultKind::WrongCount);
        }
        return Ok(Request::NewOrder(new_order(fields)?));
    }
    if has_text(fields, 0, b"P") {
        if fields.len() != 8 {
            return Err(FaultKind::WrongCount);
        }
        return Ok(Request::Payment(payment(fields)?));
    }
    if has_text(fields, 0, b"O") {
        if fields.len() != 5 {
            return Err(FaultKind::WrongCount);
        }
        return Ok(Request::OrderStatus(order_status(fields)?));
    }
    if has_text(fields, 0, b"D") {
        if fields.len() != 3 {
            return Err(FaultKind::WrongCount);
        }
        return Ok(Request::Delivery(delivery(fields)?));
    }
    if has_text(fields, 0, b"S") {
        if fields.len() != 4 {
            return Err(FaultKind::WrongCount);
        }
        return Ok(Request::StockLevel(stock_level(fields)?));
    }
    Err(FaultKind::UnknownKind)
}
