//! The first record of a command.
ghost use Rattle.std.specs.Prelude.{◌≡◌, IfOk};
ghost use Rattle.csv.specs.Records.{fields_of};
ghost use Rattle.commands.specs.CommandRecords.{IsShortOpening, alone_at, names_command, opening_at, rollback_at};

use crate::command::Control;
use csv::ByteRecord;
use records::fault::FaultKind;
use records::fields::{has_text, number_at};
use requests::batch_record::{BatchHead, batch_head};
use tpcc_rows::id::END_OF_NUMBERS;

/// The greatest number of a batch to roll back to.
const LAST_SEQUENCE: u64 = END_OF_NUMBERS - 1;

/// The first record of a command: it begins a batch, or is the whole command.
#[derive(Clone, Copy)]
pub(crate) enum Opening {
    Batch(BatchHead),
    Control(Control),
}

/// Parses the batch number, in the second of two fields.
fn rollback(fields: &ByteRecord) -> Result<Control, FaultKind>
    ensures { result ≡ rollback_at (fields_of fields.now) }
{
    if fields.len() != 2 {
        return Err(FaultKind::WrongCount);
    }
    Ok(Control::RollbackTo(number_at(fields, 1, 0, LAST_SEQUENCE)?))
}

/// Parses a command of one field.
fn alone(fields: &ByteRecord, control: Control) -> Result<Control, FaultKind>
    ensures { result ≡ alone_at (fields_of fields.now) control }
{
    if fields.len() != 1 {
        return Err(FaultKind::WrongCount);
    }
    Ok(control)
}

/// Parses the first record of a command.
pub(crate) fn opening_at(fields: &ByteRecord) -> Result<Opening, FaultKind>
    ensures value { result ≡ opening_at (fields_of fields.now) }
    ensures range { IfOk result IsShortOpening }
{
    if has_text(fields, 0, b"C") {
        return Ok(Opening::Control(alone(fields, Control::Commit)?));
    }
    if has_text(fields, 0, b"R") {
        return Ok(Opening::Control(rollback(fields)?));
    }
    if has_text(fields, 0, b"T") {
        return Ok(Opening::Control(alone(fields, Control::State)?));
    }
    if has_text(fields, 0, b"I") {
        return Ok(Opening::Control(alone(fields, Control::Image)?));
    }
    if has_text(fields, 0, b"A") {
        return Ok(Opening::Control(alone(fields, Control::At)?));
    }
    Ok(Opening::Batch(batch_head(fields)?))
}

/// Whether a record's first field is a command's.
pub(crate) fn names_command(fields: &ByteRecord) -> bool
    ensures { result ≡ names_command (fields_of fields.now) }
{
    if has_text(fields, 0, b"B") {
        return true;
    }
    if has_text(fields, 0, b"C") {
        return true;
    }
    if has_text(fields, 0, b"R") {
        return true;
    }
    if has_text(fields, 0, b"T") {
        return true;
    }
    if has_text(fields, 0, b"I") {
        return true;
    }
    has_text(fields, 0, b"A")
}
