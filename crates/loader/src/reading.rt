//! Reads the records of an image into tables.
ghost use Rattle.std.specs.Prelude.{◌≡◌, ◌+◌, ◌<◌, ◌≤◌, ◌^◌, [], length, Ok, IfOk, IfErr, OnOk};
ghost use Rattle.csv.specs.Records.{fields_of};
ghost use Rattle.records.specs.Records.{IsGoing, records_in, records_left};
ghost use Rattle.image_records.specs.Faults.{StopsBy};
ghost use Rattle.loader.specs.Image.{Rest, counts, ended, placed, read_all, read_from};
ghost use Rattle.image_records.specs.ImageRecords.{record_at};
ghost use Rattle.loader.specs.Gathered.{gathered_database};
ghost use Rattle.loader.specs.Tables.{no_tables};

use crate::gathered_tables::GatheredTables;
use catalog::builder::CatalogError;
use csv::{ByteRecord, Reader};
use image_records::fault::{LoadError, fault};
use image_records::image_record::image_record;
use image_records::record_fault::RecordFault;
use image_records::version::{Version, version_of};
use itoa::Buffer;
use records::fields::has_text;
use records::reading::{next_record, records_of};
use std::alloc::Global;

/// Whether the end record, which has this number, gives the number of records between the first record and itself.
fn counts(number: u64, fields: &ByteRecord) -> bool
    requires { 2 ≤ number }
    ensures { result ≡ counts number (fields_of fields.now) }
{
    if fields.len() != 2 {
        return false;
    }
    let mut buffer = Buffer::new();
    has_text(fields, 1, buffer.format(number - 2).as_bytes())
}

/// Adds the record with this number.
fn place(
    alloc: Global,
    version: Version,
    tables: &mut GatheredTables,
    number: u64,
    fields: &ByteRecord,
) -> Result<(), LoadError>
    ensures ok { OnOk result ((rest : Rest)
        → placed number (gathered_database tables.old) (record_at version (fields_of fields.now)) rest ≡ rest (gathered_database tables.new)) }
    ensures err { IfErr result (λ e. (rest : Rest)
        → StopsBy e (placed number (gathered_database tables.old) (record_at version (fields_of fields.now)) rest)) }
{
    let said = match image_record(alloc, version, fields) {
        Ok(said) => said,
        Err(RecordFault::OfKind(kind)) => return Err(fault(number, kind)),
        Err(RecordFault::Memory) => return Err(LoadError::Memory),
    };
    match tables.add(said) {
        Ok(()) => Ok(()),
        Err(CatalogError::Twice) => Err(LoadError::Duplicate(number)),
        Err(CatalogError::Memory) => Err(LoadError::Memory),
    }
}

/// Checks that nothing follows the end record. `number` is the next record's.
fn end(reader: &mut Reader<&[u8]>, fields: &mut ByteRecord, number: u64) -> Result<(), LoadError>
    requires { IsGoing reader.old }
    ensures ok { OnOk result (records_left reader.old ≡ []) }
    ensures err { IfErr result (λ e. (db : _) → StopsBy e (ended (records_left reader.old) number db)) }
{
    if next_record(reader, fields)? {
        return Err(LoadError::BadRecord(number));
    }
    Ok(())
}

/// Adds the records after the first, up to the end record.
#[tactic(auto, unfolding(crate::specs::Image::read_from))]
fn read_rest(
    alloc: Global,
    version: Version,
    reader: &mut Reader<&[u8]>,
    fields: &mut ByteRecord,
    tables: &mut GatheredTables,
) -> Result<(), LoadError>
    requires going { IsGoing reader.old }
    requires room { 2 + length (records_left reader.old) < 2 ^ 64 }
    ensures ok { OnOk result
        (read_from version (records_left reader.old) 2 (gathered_database tables.old) ≡ Ok (gathered_database tables.new)) }
    ensures err { IfErr result (λ e. StopsBy e (read_from version (records_left reader.old) 2 (gathered_database tables.old))) }
{
    let mut number = 2;
    while next_record(reader, fields)? {
        if has_text(fields, 0, b"E") {
            if !counts(number, fields) {
                return Err(LoadError::BadRecord(number));
            }
            return end(reader, fields, number + 1);
        }
        place(alloc, version, tables, number, fields)?;
        number += 1;
    }
    Err(LoadError::Truncated)
}

/// Adds all records.
#[tactic(auto, unfolding(crate::specs::Image::read_all))]
fn read_records(
    alloc: Global,
    reader: &mut Reader<&[u8]>,
    fields: &mut ByteRecord,
    tables: &mut GatheredTables,
) -> Result<(), LoadError>
    requires going { IsGoing reader.old }
    requires room { 1 + length (records_left reader.old) < 2 ^ 64 }
    requires none { gathered_database tables.old ≡ no_tables }
    ensures ok { OnOk result (read_all (records_left reader.old) ≡ Ok (gathered_database tables.new)) }
    ensures err { IfErr result (λ e. StopsBy e (read_all (records_left reader.old))) }
{
    if !next_record(reader, fields)? {
        return Err(LoadError::Truncated);
    }
    let Some(version) = version_of(fields) else {
        return Err(LoadError::BadRecord(1));
    };
    read_rest(alloc, version, reader, fields, tables)
}

/// The tables of a text, unchecked. Never inlined, so that its stack frame isn't added to that of the checks.
#[inline(never)]
pub(crate) fn read_tables(alloc: Global, text: &[u8]) -> Result<GatheredTables, LoadError>
    requires { length text.now < 2 ^ 32 }
    ensures ok { IfOk result (λ tables. read_all (records_in text.now) ≡ Ok (gathered_database tables)) }
    ensures err { IfErr result (λ e. StopsBy e (read_all (records_in text.now))) }
{
    let mut reader = records_of(alloc, text);
    let mut fields = ByteRecord::new(alloc);
    let mut tables = GatheredTables::new(alloc)?;
    read_records(alloc, &mut reader, &mut fields, &mut tables)?;
    Ok(tables)
}
