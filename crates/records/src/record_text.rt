//! Builds records field by field, and formats them.
ghost use Rattle.std.specs.Prelude.{◌≡◌, ◌∷◌, [], OnOk, IfOk, decimal};
ghost use Rattle.std.specs.Fmt.{signed_decimal};
ghost use Rattle.csv.specs.Records.{fields_of, partial_of};
ghost use Rattle.records.specs.Spelling.{AddsFields, number_or_dash, text_of_record};

use csv::{ByteRecord, WriterBuilder};
use itoa::Buffer;
use std::alloc::Global;
use tpcc_rows::memory::Memory;

/// Adds a field.
pub fn push(fields: &mut ByteRecord, field: &[u8]) -> Result<(), Memory>
    requires { partial_of fields.old ≡ [] }
    ensures { OnOk result (AddsFields fields.old fields.new (field.now ∷ [])) }
{
    fields.push_field(field)?;
    Ok(())
}

/// Adds a number in decimal.
pub fn push_number(fields: &mut ByteRecord, number: u64) -> Result<(), Memory>
    requires { partial_of fields.old ≡ [] }
    ensures { OnOk result (AddsFields fields.old fields.new (decimal number ∷ [])) }
{
    push(fields, Buffer::new().format(number).as_bytes())
}

/// Adds a signed number.
pub fn push_signed(fields: &mut ByteRecord, number: i64) -> Result<(), Memory>
    requires { partial_of fields.old ≡ [] }
    ensures { OnOk result (AddsFields fields.old fields.new (signed_decimal number ∷ [])) }
{
    push(fields, Buffer::new().format(number).as_bytes())
}

/// Adds a number, or a dash for none.
pub fn push_number_or_dash(fields: &mut ByteRecord, number: Option<u64>) -> Result<(), Memory>
    requires { partial_of fields.old ≡ [] }
    ensures { OnOk result (AddsFields fields.old fields.new (number_or_dash number ∷ [])) }
{
    match number {
        Some(number) => push_number(fields, number),
        None => push(fields, b"-"),
    }
}

/// The text of a record with its line feed. Each record has a writer of its own, so numbers of fields may differ.
pub fn record_text(alloc: Global, fields: &ByteRecord) -> Result<Vec<u8>, Memory>
    ensures { IfOk result (λ v. v.items ≡ text_of_record (fields_of fields.now)) }
{
    let mut writer = WriterBuilder::new().from_writer(Vec::new(alloc));
    if writer.write_byte_record(fields).is_err() {
        return Err(Memory);
    }
    writer.into_inner().map_err(|_| Memory)
}
