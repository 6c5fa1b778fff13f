//! Reads a command, or a fault in its place, from a text's remaining records.
ghost use Rattle.std.specs.Prelude.{◌≡◌, ◌+◌, ◌<◌, ◌≤◌, ◌^◌, [], IfErr, IfNone, IfOk, IfSome, OnOk, OnSome, if◌then◌else◌, option_map};
ghost use Rattle.commands.specs.CommandRecords.{opening_at};
ghost use Rattle.commands.specs.Commands.{StopsBy, begun, commands_of, is_read, settled, with_front};
ghost use Rattle.commands.specs.Reader.{Turns, WhereKnown, following, gap, gap_after, hearing_of, rows_left};
ghost use Rattle.commands.specs.declared.record_reader.TheConstants.{LAST_RECORD, MOST_BYTES};
ghost use Rattle.csv.specs.Records.{fields_of};
ghost use Rattle.requests.specs.Batches.{clean};

use crate::command::{Command, Heard, RecordFault};
use crate::command_record::{Opening, names_command, opening_at};
use crate::record_reader::RecordReader;
use records::fault::ReadError;
use records::io::Source;
use requests::batch_record::BatchHead;
use requests::request::{Batch, Requests};
use requests::request_record::request;
use std::alloc::Global;

/// Reads the first record of a command: the next one, or after a fault the next that names a command. Returns the number of bytes
/// of the command read so far.
fn next_opening<S: Source>(
    records: &mut RecordReader,
    source: &mut S,
    is_behind: bool,
) -> Result<Option<u64>, ReadError>
    requires numbers { records.old.read ≤ LAST_RECORD }
    requires count { S.failed source.old < 2 ^ 63 }
    ensures opening { IfOk result (λ o. IfSome o (λ total.
        Turns (rows_left records.old (S.left source.old)) (rows_left records.new (S.left source.new))
        (λ old new. commands_of old records.old.read 0 (gap is_behind)
        ≡ begun records.new.read (opening_at (fields_of records.new.fields)) (following new records.new.read total)))) }
    ensures room { IfOk result (λ o. IfSome o (λ total. total ≤ MOST_BYTES)) }
    ensures further { IfOk result (λ o. OnSome o (records.old.read < records.new.read)) }
    ensures numbers { records.new.read ≤ LAST_RECORD }
    ensures end { IfOk result (λ o. IfNone o (WhereKnown (rows_left records.old (S.left source.old)) (λ old.
        commands_of old records.old.read 0 (gap is_behind) ≡ ([], clean)))) }
    ensures err { IfErr result (λ e. StopsBy e (hearing_of (rows_left records.old (S.left source.old)) records.old.read 0 (gap is_behind))) }
    ensures failures { S.failed source.new ≡ S.failed source.old + (if is_read result then 1 else 0) }
{
    'passing: loop {
        let Some(total) = records.next_record(source, 0)? else {
            return Ok(None);
        };
        if !is_behind {
            return Ok(Some(total));
        }
        if names_command(&records.fields) {
            return Ok(Some(total));
        }
    }
}

/// Reads the requests of a batch with this first record, of which this many bytes were read. If one is faulty, the batch is dropped.
fn read_batch<S: Source>(
    alloc: Global,
    records: &mut RecordReader,
    source: &mut S,
    head: BatchHead,
    spent: u64,
) -> Result<Heard, ReadError>
    requires numbers { records.old.read ≤ LAST_RECORD }
    requires short { head.count ≤ 1024 }
    requires room { spent ≤ MOST_BYTES }
    requires count { S.failed source.old < 2 ^ 63 }
    ensures heard { IfOk result (λ h. Turns (rows_left records.old (S.left source.old)) (rows_left records.new (S.left source.new))
        (λ old new. settled head [] (following old records.old.read spent) ≡ with_front h (commands_of new records.new.read 0 (gap_after h)))) }
    ensures numbers { records.new.read ≤ LAST_RECORD }
    ensures further { OnOk result (records.old.read ≤ records.new.read) }
    ensures err { IfErr result (λ e. StopsBy e (option_map (λ old. settled head [] (following old records.old.read spent))
        (rows_left records.old (S.left source.old)))) }
    ensures failures { S.failed source.new ≡ S.failed source.old + (if is_read result then 1 else 0) }
{
    let mut requests = Requests::new(alloc);
    let mut total = spent;
    for _ in 0..head.count {
        total = match records.next_record(source, total)? {
            Some(total) => total,
            None => return Err(ReadError::WrongCount(records.read + 1)),
        };
        match request(&records.fields) {
            Ok(request) => requests.push(request)?,
            Err(kind) => {
                return Ok(Heard::Fault(RecordFault {
                    number: records.read,
                    kind,
                }));
            }
        }
    }
    Ok(Heard::Command(Command::Batch(Batch {
        moment: head.moment,
        verdict: head.verdict,
        requests,
    })))
}

/// Reads the next command, or a fault in its place, if there is one.
pub(crate) fn read_heard<S: Source>(
    alloc: Global,
    records: &mut RecordReader,
    source: &mut S,
    is_behind: bool,
) -> Result<Option<Heard>, ReadError>
    requires numbers { records.old.read ≤ LAST_RECORD }
    requires count { S.failed source.old < 2 ^ 63 }
    ensures heard { IfOk result (λ o. IfSome o (λ h.
        Turns (rows_left records.old (S.left source.old)) (rows_left records.new (S.left source.new))
        (λ old new. commands_of old records.old.read 0 (gap is_behind) ≡ with_front h (commands_of new records.new.read 0 (gap_after h))))) }
    ensures numbers { records.new.read ≤ LAST_RECORD }
    ensures further { IfOk result (λ o. OnSome o (records.old.read < records.new.read)) }
    ensures end { IfOk result (λ o. IfNone o (WhereKnown (rows_left records.old (S.left source.old)) (λ old.
        commands_of old records.old.read 0 (gap is_behind) ≡ ([], clean)))) }
    ensures err { IfErr result (λ e. StopsBy e (hearing_of (rows_left records.old (S.left source.old)) records.old.read 0 (gap is_behind))) }
    ensures failures { S.failed source.new ≡ S.failed source.old + (if is_read result then 1 else 0) }
{
    let Some(total) = next_opening(records, source, is_behind)? else {
        return Ok(None);
    };
    match opening_at(&records.fields) {
        Ok(Opening::Control(control)) => Ok(Some(Heard::Command(Command::Control(control)))),
        Ok(Opening::Batch(head)) => Ok(Some(read_batch(alloc, records, source, head, total)?)),
        Err(kind) => Ok(Some(Heard::Fault(RecordFault {
            number: records.read,
            kind,
        }))),
    }
}
