//! Reads the records of a text.
ghost use Rattle.std.specs.Prelude.{◌≡◌, ◌∷◌, [], true, false, IfOk};
ghost use Rattle.csv.specs.Records.{fields_of};
ghost use Rattle.records.specs.Records.{IsGoing, records_in, records_left};

use csv::{ByteRecord, ErrorKind, Reader, ReaderBuilder};
use std::alloc::Global;
use tpcc_rows::memory::Memory;

/// A reader of records with any numbers of fields, without a header row.
pub fn records_of(alloc: Global, text: &[u8]) -> Reader<&[u8]>
    ensures going { IsGoing result }
    ensures all { records_left result ≡ records_in text.now }
{
    ReaderBuilder::new()
        .has_headers(false)
        .flexible(true)
        .from_reader(alloc, text)
}

/// Reads the next record, if there is one. A slice has no errors and a reader of any numbers of fields refuses none, so
/// only memory can run out.
pub fn next_record(reader: &mut Reader<&[u8]>, fields: &mut ByteRecord) -> Result<bool, Memory>
    requires { IsGoing reader.old }
    ensures found { IfOk result (λ found. found ≡ true
        → records_left reader.old ≡ fields_of fields.new ∷ records_left reader.new) }
    ensures going { IfOk result (λ found. found ≡ true → IsGoing reader.new) }
    ensures none { IfOk result (λ found. found ≡ false → records_left reader.old ≡ []) }
{
    match reader.read_byte_record(fields) {
        Ok(found) => Ok(found),
        Err(e) => match e.kind() {
            ErrorKind::Io(_) | ErrorKind::OutOfMemory => Err(Memory),
            _ => unreachable!(),
        },
    }
}
