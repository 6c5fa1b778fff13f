//! Parses the fields that only requests have.
ghost use Rattle.std.specs.Prelude.{◌≡◌};
ghost use Rattle.csv.specs.Records.{fields_of};
ghost use Rattle.records.specs.Fields.{number_at};

use crate::number::{OrderedQuantity, PaymentAmount, Threshold};
use csv::ByteRecord;
use records::fault::FaultKind;
use records::fields::number_at;
use tpcc_rows::id::ItemId;

/// I_ID as a new order names it: the database may have no such item.
pub fn requested_item(fields: &ByteRecord, i: usize) -> Result<ItemId, FaultKind>
    ensures { result ≡ number_at (fields_of fields.now) i 1 999999 }
{
    let number = number_at(fields, i, 1, 999_999)? as u32;
    ItemId::new(number).ok_or(FaultKind::OutOfRange)
}

/// The quantity of a new order's line.
pub fn ordered_quantity(fields: &ByteRecord, i: usize) -> Result<OrderedQuantity, FaultKind>
    ensures { result ≡ number_at (fields_of fields.now) i 1 10 }
{
    let value = number_at(fields, i, 1, 10)? as u8;
    OrderedQuantity::new(value).ok_or(FaultKind::OutOfRange)
}

/// The amount of a payment.
pub fn payment_amount(fields: &ByteRecord, i: usize) -> Result<PaymentAmount, FaultKind>
    ensures { result ≡ number_at (fields_of fields.now) i 100 500000 }
{
    let cents = number_at(fields, i, 100, 500_000)? as u32;
    PaymentAmount::new(cents).ok_or(FaultKind::OutOfRange)
}

/// The threshold of a stock level.
pub fn threshold(fields: &ByteRecord, i: usize) -> Result<Threshold, FaultKind>
    ensures { result ≡ number_at (fields_of fields.now) i 10 20 }
{
    let value = number_at(fields, i, 10, 20)? as u8;
    Threshold::new(value).ok_or(FaultKind::OutOfRange)
}
