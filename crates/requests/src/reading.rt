//! Reads a batch from a text's remaining records.
ghost use Rattle.std.specs.Prelude.{◌≡◌, ◌+◌, ◌<◌, ◌^◌, ◌++◌, ◌∷◌, [], List, length, IfOk, IfErr, IfSome, IfNone, OnSome, OnOk};
ghost use Rattle.requests.specs.Batches.{StopsBy, between, clean, fault_of, settled, with_front, within};
ghost use Rattle.requests.specs.Reader.{left_at};
ghost use Rattle.records.specs.Records.{IsGoing, records_left};
ghost use Rattle.requests.specs.declared.batch_record.BatchHead.{BatchHead};
ghost use Rattle.requests.specs.declared.request.Request.{Request};

use crate::batch_record::{BatchHead, batch_head};
use crate::request::{Batch, Request, Requests};
use crate::request_record::request;
use csv::{ByteRecord, Reader};
use records::fault::{FaultKind, ReadError};
use records::reading::next_record;
use std::alloc::Global;

/// The fault of the record of this number.
pub fn fault(number: u64, kind: FaultKind) -> ReadError
    ensures { result ≡ fault_of number kind }
{
    match kind {
        FaultKind::BadField => ReadError::BadField(number),
        FaultKind::WrongCount => ReadError::WrongCount(number),
        FaultKind::OutOfRange => ReadError::OutOfRange(number),
        FaultKind::UnknownKind => ReadError::UnknownKind(number),
        FaultKind::BatchTooLong => ReadError::BatchTooLong(number),
    }
}

/// Reads the first record of the next batch, if there is one. `number` is the next record's.
#[tactic(auto, unfolding(crate::specs::Batches::reading_from))]
fn read_head(
    reader: &mut Reader<&[u8]>,
    fields: &mut ByteRecord,
    number: &mut u64,
) -> Result<Option<BatchHead>, ReadError>
    requires going { IsGoing reader.old }
    requires room { number.old + length (records_left reader.old) < 2 ^ 64 }
    ensures going { IfOk result (λ o. OnSome o (IsGoing reader.new)) }
    ensures room { IfOk result (λ o. OnSome o (number.new + length (records_left reader.new) < 2 ^ 64)) }
    ensures head { IfOk result (λ o. IfSome o (λ h.
        left_at reader.old number.old between ≡ settled h [] (left_at reader.new number.new))) }
    ensures end { IfOk result (λ o. IfNone o (left_at reader.old number.old between ≡ ([], clean))) }
    ensures err { IfErr result (λ e. StopsBy e (left_at reader.old number.old between)) }
{
    if !next_record(reader, fields)? {
        return Ok(None);
    }
    match batch_head(fields) {
        Ok(head) => {
            *number += 1;
            Ok(Some(head))
        }
        Err(kind) => Err(fault(*number, kind)),
    }
}

/// Reads the next request of a batch.
#[tactic(auto, unfolding(crate::specs::Batches::reading_from))]
fn read_request(
    reader: &mut Reader<&[u8]>,
    fields: &mut ByteRecord,
    number: &mut u64,
) -> Result<Request, ReadError>
    requires going { IsGoing reader.old }
    requires room { number.old + length (records_left reader.old) < 2 ^ 64 }
    ensures going { OnOk result (IsGoing reader.new) }
    ensures room { OnOk result (number.new + length (records_left reader.new) < 2 ^ 64) }
    ensures request { IfOk result (λ q. (h : BatchHead) (qs : List Request)
        → left_at reader.old number.old (within h qs) ≡ settled h (qs ++ q ∷ []) (left_at reader.new number.new)) }
    ensures err { IfErr result (λ e. (h : BatchHead) (qs : List Request)
        → StopsBy e (left_at reader.old number.old (within h qs))) }
{
    if !next_record(reader, fields)? {
        return Err(ReadError::WrongCount(*number));
    }
    match request(fields) {
        Ok(request) => {
            *number += 1;
            Ok(request)
        }
        Err(kind) => Err(fault(*number, kind)),
    }
}

/// Reads the next batch, if there is one. `number` is the next record's.
pub(crate) fn read_batch(
    alloc: Global,
    reader: &mut Reader<&[u8]>,
    fields: &mut ByteRecord,
    number: &mut u64,
) -> Result<Option<Batch>, ReadError>
    requires going { IsGoing reader.old }
    requires room { number.old + length (records_left reader.old) < 2 ^ 64 }
    ensures going { IfOk result (λ o. OnSome o (IsGoing reader.new)) }
    ensures room { IfOk result (λ o. OnSome o (number.new + length (records_left reader.new) < 2 ^ 64)) }
    ensures batch { IfOk result (λ o. IfSome o (λ b.
        left_at reader.old number.old between ≡ with_front b (left_at reader.new number.new between))) }
    ensures end { IfOk result (λ o. IfNone o (left_at reader.old number.old between ≡ ([], clean))) }
    ensures err { IfErr result (λ e. StopsBy e (left_at reader.old number.old between)) }
{
    let Some(head) = read_head(reader, fields, number)? else {
        return Ok(None);
    };
    let mut requests = Requests::new(alloc);
    for _ in 0..head.count {
        requests.push(read_request(reader, fields, number)?)?;
    }
    Ok(Some(Batch {
        moment: head.moment,
        verdict: head.verdict,
        requests,
    }))
}
