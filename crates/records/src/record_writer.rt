//! Writes records.
ghost use Rattle.std.specs.Prelude.{◌≡◌, ◌++◌, [], IfOk, OnOk};
ghost use Rattle.csv.specs.Records.{fields_of};
ghost use Rattle.records.specs.Spelling.{text_of_record};
ghost use Rattle.records.specs.Writer.{IsWriting, written};

use csv::{ByteRecord, Writer, WriterBuilder};
use std::alloc::Global;
use tpcc_rows::memory::Memory;

/// A writer of records with any numbers of fields.
pub fn record_writer(alloc: Global) -> Writer<Vec<u8>>
    ensures writing { IsWriting result }
    ensures none { written result ≡ [] }
{
    WriterBuilder::new()
        .flexible(true)
        .from_writer(Vec::new(alloc))
}

/// Writes a record with its line feed. With a vector only memory can run out.
#[tactic(auto, using(crate::proofs::WriterLemmas::flexible_row))]
pub fn write_record(writer: &mut Writer<Vec<u8>>, fields: &ByteRecord) -> Result<(), Memory>
    requires { IsWriting writer.old }
    ensures writing { OnOk result (IsWriting writer.new) }
    ensures text { OnOk result (written writer.new
        ≡ written writer.old ++ text_of_record (fields_of fields.now)) }
{
    writer.write_byte_record(fields).map_err(|_| Memory)
}

/// The text of the records.
pub fn written_text(writer: Writer<Vec<u8>>) -> Result<Vec<u8>, Memory>
    requires { IsWriting writer }
    ensures { IfOk result (λ text. text.items ≡ written writer) }
{
    writer.into_inner().map_err(|_| Memory)
}
