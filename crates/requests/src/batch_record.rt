//! The first record of a batch.
ghost use Rattle.std.specs.Prelude.{◌≡◌, ◌≤◌, IfOk};
ghost use Rattle.csv.specs.Records.{field_at, fields_of};
ghost use Rattle.records.specs.Fields.{number_at};
ghost use Rattle.requests.specs.BatchRecords.{head_at, head_fields, too_long, verdict_of};

use crate::request::Verdict;
use csv::ByteRecord;
use records::fault::FaultKind;
use records::fields::{has_text, moment, number_at};
use tpcc_rows::number::Moment;

/// The most requests of a batch.
const MOST_REQUESTS: u64 = 1_024;

/// The first record of a batch.
#[derive(Clone, Copy)]
pub struct BatchHead {
    pub moment: Moment,
    pub verdict: Verdict,
    /// The number of requests that follow.
    pub count: u64,
}

fn verdict(fields: &ByteRecord, i: usize) -> Result<Verdict, FaultKind>
    ensures { result ≡ verdict_of (field_at (fields_of fields.now) i) }
{
    if has_text(fields, i, b"commit") {
        return Ok(Verdict::Commit);
    }
    if has_text(fields, i, b"rerun") {
        return Ok(Verdict::Rerun);
    }
    Err(FaultKind::BadField)
}

fn request_count(fields: &ByteRecord, i: usize) -> Result<u64, FaultKind>
    ensures value { result ≡ too_long (number_at (fields_of fields.now) i 0 1024) }
    ensures range { IfOk result (λ n. n ≤ 1024) }
{
    match number_at(fields, i, 0, MOST_REQUESTS) {
        Err(FaultKind::OutOfRange) => Err(FaultKind::BatchTooLong),
        count => count,
    }
}

#[tactic(auto, unfolding(crate::specs::BatchRecords::head_fields))]
fn head_parts(fields: &ByteRecord) -> Result<BatchHead, FaultKind>
    ensures value { result ≡ head_fields (fields_of fields.now) }
    ensures range { IfOk result (λ head. head.count ≤ 1024) }
{
    let moment = moment(fields, 1)?;
    let verdict = verdict(fields, 2)?;
    let count = request_count(fields, 3)?;
    Ok(BatchHead {
        moment,
        verdict,
        count,
    })
}

/// Parses the first record of a batch.
pub fn batch_head(fields: &ByteRecord) -> Result<BatchHead, FaultKind>
    ensures value { result ≡ head_at (fields_of fields.now) }
    ensures range { IfOk result (λ head. head.count ≤ 1024) }
{
    if !has_text(fields, 0, b"B") {
        return Err(FaultKind::UnknownKind);
    }
    if fields.len() != 4 {
        return Err(FaultKind::WrongCount);
    }
    head_parts(fields)
}
