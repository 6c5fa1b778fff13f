//! Parses the fields of a record: numbers, money, texts, each with its limits.
ghost use Rattle.std.specs.Prelude.{◌≡◌, ◌<◌, ◌≤◌, ◌^◌, IfOk};
ghost use Rattle.std.specs.Char.{is_ascii_digit};
ghost use Rattle.std.specs.List.{list_all};
ghost use Rattle.csv.specs.Records.{field_at, fields_of};
ghost use Rattle.tpcc_rows.specs.Limits.{most_cents};
ghost use Rattle.tpcc_rows.specs.declared.id.TheConstants.{LAST_REQUEST};
ghost use Rattle.records.specs.Fields.{IsWithin, below_zero, is_numeral, is_text, number_at, number_in, number_or_null_at, signed_at, signed_in, text_at};

use crate::fault::FaultKind;
use csv::ByteRecord;
use tpcc_rows::id::{
    CustomerId, DistrictId, ItemId, LAST_REQUEST, LineNumber, OrderId, RequestNumber, WarehouseId,
};
use tpcc_rows::number::{
    Amount, Carrier, Cents, Count, LineQuantity, Moment, Price, Rate, StockQuantity,
};
use tpcc_rows::text::Text;

fn all_digits(field: &[u8]) -> bool
    ensures { result ≡ list_all is_ascii_digit field.now }
{
    field.iter().all(|byte| byte.is_ascii_digit())
}

/// Whether these bytes are a number: `0`, or digits without a leading `0`.
fn is_numeral(field: &[u8]) -> bool
    ensures { result ≡ is_numeral field.now }
{
    match field {
        [] => false,
        [b'0', rest @ ..] => rest.is_empty(),
        _ => all_digits(field),
    }
}

/// Parses a number from `low` to `high`.
pub fn number(field: &[u8], low: u64, high: u64) -> Result<u64, FaultKind>
    requires { high < 2 ^ 60 }
    ensures value { result ≡ number_in low high field.now }
    ensures range { IfOk result (λ n. (low ≤ n) × (n ≤ high)) }
{
    if !is_numeral(field) {
        return Err(FaultKind::BadField);
    }
    let mut number: u64 = 0;
    for byte in field {
        number = 10 * number + u64::from(*byte - b'0');
        if number > high {
            return Err(FaultKind::OutOfRange);
        }
    }
    if number < low {
        return Err(FaultKind::OutOfRange);
    }
    Ok(number)
}

/// Parses the field at this place as a number from `low` to `high`.
pub fn number_at(fields: &ByteRecord, i: usize, low: u64, high: u64) -> Result<u64, FaultKind>
    requires { high < 2 ^ 60 }
    ensures value { result ≡ number_at (fields_of fields.now) i low high }
    ensures range { IfOk result (λ n. (low ≤ n) × (n ≤ high)) }
{
    match fields.get(i) {
        Some(field) => number(field, low, high),
        None => Err(FaultKind::WrongCount),
    }
}

/// Parses a negative number, from the digits after its sign.
fn number_below_zero(digits: &[u8], most: u64) -> Result<i64, FaultKind>
    requires { most < 2 ^ 60 }
    ensures value { result ≡ below_zero most digits.now }
    ensures range { IfOk result (IsWithin most) }
{
    if digits == b"0".as_slice() {
        return Err(FaultKind::BadField);
    }
    let number = number(digits, 0, most)?;
    Ok(0 - number as i64)
}

/// Parses a number from `-most` to `most`.
pub fn signed(field: &[u8], most: u64) -> Result<i64, FaultKind>
    requires { most < 2 ^ 60 }
    ensures value { result ≡ signed_in most field.now }
    ensures range { IfOk result (IsWithin most) }
{
    match field {
        [] => Err(FaultKind::BadField),
        [b'-', digits @ ..] => number_below_zero(digits, most),
        _ => Ok(number(field, 0, most)? as i64),
    }
}

/// Parses the field at this place as a number from `-most` to `most`.
pub fn signed_at(fields: &ByteRecord, i: usize, most: u64) -> Result<i64, FaultKind>
    requires { most < 2 ^ 60 }
    ensures value { result ≡ signed_at (fields_of fields.now) i most }
    ensures range { IfOk result (IsWithin most) }
{
    match fields.get(i) {
        Some(field) => signed(field, most),
        None => Err(FaultKind::WrongCount),
    }
}

/// Whether the field at this place is this text.
pub fn has_text(fields: &ByteRecord, i: usize, text: &[u8]) -> bool
    ensures { result ≡ is_text text.now (field_at (fields_of fields.now) i) }
{
    match fields.get(i) {
        Some(field) => field == text,
        None => false,
    }
}

/// Parses the field at this place as a text.
pub fn text<const N: usize>(fields: &ByteRecord, i: usize) -> Result<Text<N>, FaultKind>
    ensures { result ≡ text_at (fields_of fields.now) i N }
{
    match fields.get(i) {
        Some(field) => Text::parse(field).ok_or(FaultKind::BadField),
        None => Err(FaultKind::WrongCount),
    }
}

/// W_ID.
pub fn warehouse(fields: &ByteRecord, i: usize) -> Result<WarehouseId, FaultKind>
    ensures { result ≡ number_at (fields_of fields.now) i 1 100 }
{
    let number = number_at(fields, i, 1, 100)? as u8;
    WarehouseId::new(number).ok_or(FaultKind::OutOfRange)
}

/// D_ID.
pub fn district(fields: &ByteRecord, i: usize) -> Result<DistrictId, FaultKind>
    ensures { result ≡ number_at (fields_of fields.now) i 1 10 }
{
    let number = number_at(fields, i, 1, 10)? as u8;
    DistrictId::new(number).ok_or(FaultKind::OutOfRange)
}

/// C_ID.
pub fn customer(fields: &ByteRecord, i: usize) -> Result<CustomerId, FaultKind>
    ensures { result ≡ number_at (fields_of fields.now) i 1 3000 }
{
    let number = number_at(fields, i, 1, 3_000)? as u16;
    CustomerId::new(number).ok_or(FaultKind::OutOfRange)
}

/// A request's number.
pub fn request_number(fields: &ByteRecord, i: usize) -> Result<RequestNumber, FaultKind>
    ensures { result ≡ number_at (fields_of fields.now) i 1 LAST_REQUEST }
{
    let number = number_at(fields, i, 1, LAST_REQUEST)?;
    RequestNumber::new(number).ok_or(FaultKind::OutOfRange)
}

/// A moment, in seconds.
pub fn moment(fields: &ByteRecord, i: usize) -> Result<Moment, FaultKind>
    ensures { result ≡ number_at (fields_of fields.now) i 0 999999999999 }
{
    let seconds = number_at(fields, i, 0, 999_999_999_999)?;
    Moment::new(seconds).ok_or(FaultKind::OutOfRange)
}

/// W_TAX, D_TAX or C_DISCOUNT.
pub fn rate(fields: &ByteRecord, i: usize) -> Result<Rate, FaultKind>
    ensures { result ≡ number_at (fields_of fields.now) i 0 9999 }
{
    let value = number_at(fields, i, 0, 9_999)? as u16;
    Rate::new(value).ok_or(FaultKind::OutOfRange)
}

/// W_YTD, D_YTD, C_BALANCE or C_YTD_PAYMENT.
pub fn cents(fields: &ByteRecord, i: usize) -> Result<Cents, FaultKind>
    ensures { result ≡ signed_at (fields_of fields.now) i most_cents }
{
    let amount = signed_at(fields, i, Cents::LIMIT as u64)?;
    Cents::new(amount).ok_or(FaultKind::OutOfRange)
}

/// S_QUANTITY.
pub fn stock_quantity(fields: &ByteRecord, i: usize) -> Result<StockQuantity, FaultKind>
    ensures { result ≡ signed_at (fields_of fields.now) i 9999 }
{
    let value = signed_at(fields, i, 9_999)? as i16;
    StockQuantity::new(value).ok_or(FaultKind::OutOfRange)
}

/// I_ID, of an item of a database.
pub fn item(fields: &ByteRecord, i: usize) -> Result<ItemId, FaultKind>
    ensures { result ≡ number_at (fields_of fields.now) i 1 100000 }
{
    let number = number_at(fields, i, 1, 100_000)? as u32;
    ItemId::new(number).ok_or(FaultKind::OutOfRange)
}

/// O_ID.
pub fn order(fields: &ByteRecord, i: usize) -> Result<OrderId, FaultKind>
    ensures { result ≡ number_at (fields_of fields.now) i 1 9999998 }
{
    let number = number_at(fields, i, 1, 9_999_998)? as u32;
    OrderId::new(number).ok_or(FaultKind::OutOfRange)
}

/// D_NEXT_O_ID.
pub fn next_order(fields: &ByteRecord, i: usize) -> Result<OrderId, FaultKind>
    ensures { result ≡ number_at (fields_of fields.now) i 1 9999999 }
{
    let number = number_at(fields, i, 1, 9_999_999)? as u32;
    OrderId::new(number).ok_or(FaultKind::OutOfRange)
}

/// OL_NUMBER or O_OL_CNT.
pub fn line_number(fields: &ByteRecord, i: usize) -> Result<LineNumber, FaultKind>
    ensures { result ≡ number_at (fields_of fields.now) i 1 15 }
{
    let number = number_at(fields, i, 1, 15)? as u8;
    LineNumber::new(number).ok_or(FaultKind::OutOfRange)
}

/// C_PAYMENT_CNT, C_DELIVERY_CNT, S_YTD, S_ORDER_CNT or S_REMOTE_CNT.
pub fn count(fields: &ByteRecord, i: usize) -> Result<Count, FaultKind>
    ensures { result ≡ number_at (fields_of fields.now) i 0 1000000000 }
{
    let value = number_at(fields, i, 0, 1_000_000_000)? as u32;
    Count::new(value).ok_or(FaultKind::OutOfRange)
}

/// OL_AMOUNT or H_AMOUNT.
pub fn amount(fields: &ByteRecord, i: usize) -> Result<Amount, FaultKind>
    ensures { result ≡ number_at (fields_of fields.now) i 0 999999 }
{
    let cents = number_at(fields, i, 0, 999_999)? as u32;
    Amount::new(cents).ok_or(FaultKind::OutOfRange)
}

/// I_PRICE.
pub fn price(fields: &ByteRecord, i: usize) -> Result<Price, FaultKind>
    ensures { result ≡ number_at (fields_of fields.now) i 0 99999 }
{
    let cents = number_at(fields, i, 0, 99_999)? as u32;
    Price::new(cents).ok_or(FaultKind::OutOfRange)
}

/// OL_QUANTITY.
pub fn line_quantity(fields: &ByteRecord, i: usize) -> Result<LineQuantity, FaultKind>
    ensures { result ≡ number_at (fields_of fields.now) i 0 99 }
{
    let value = number_at(fields, i, 0, 99)? as u8;
    LineQuantity::new(value).ok_or(FaultKind::OutOfRange)
}

/// O_CARRIER_ID where it isn't null.
pub fn carrier(fields: &ByteRecord, i: usize) -> Result<Carrier, FaultKind>
    ensures { result ≡ number_at (fields_of fields.now) i 1 10 }
{
    let number = number_at(fields, i, 1, 10)? as u8;
    Carrier::new(number).ok_or(FaultKind::OutOfRange)
}

/// O_CARRIER_ID; a dash is null.
pub fn carrier_or_null(fields: &ByteRecord, i: usize) -> Result<Option<Carrier>, FaultKind>
    ensures { result ≡ number_or_null_at (fields_of fields.now) i 1 10 }
{
    if has_text(fields, i, b"-") {
        return Ok(None);
    }
    Ok(Some(carrier(fields, i)?))
}

/// OL_DELIVERY_D; a dash is null.
pub fn moment_or_null(fields: &ByteRecord, i: usize) -> Result<Option<Moment>, FaultKind>
    ensures { result ≡ number_or_null_at (fields_of fields.now) i 0 999999999999 }
{
    if has_text(fields, i, b"-") {
        return Ok(None);
    }
    Ok(Some(moment(fields, i)?))
}
