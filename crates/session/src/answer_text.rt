//! The records of answers other than a batch's.
ghost use Rattle.std.specs.Prelude.{◌≡◌, ◌∷◌, [], IfOk, OnOk};
ghost use Rattle.csv.specs.Records.{partial_of};
ghost use Rattle.records.specs.Spelling.{AddsFields};
ghost use Rattle.executor.specs.Refusals.{refusal_name};
ghost use Rattle.records.specs.Faults.{name_of};
ghost use Rattle.runner.specs.Text.{token_digits};
ghost use Rattle.session.specs.AnswerText.{commit_fields, commit_text, fault_fields, fault_text, image_fields, image_head, refused_fields};
ghost use Rattle.session.specs.AnswerText.{refused_text, told_fields, told_text};

use commands::RecordFault;
use csv::ByteRecord;
use executor::Refusal;
use records::fault::ReadError;
use records::record_text::{push, push_number, record_text};
use requests::reading::fault;
use runner::text::digits_of;
use std::alloc::Global;
use tpcc_rows::memory::Memory;

/// Adds the fields of a commit's record.
fn push_commit(fields: &mut ByteRecord, sequence: u64) -> Result<(), Memory>
    requires { partial_of fields.old ≡ [] }
    ensures { OnOk result (AddsFields fields.old fields.new (commit_fields sequence)) }
{
    push(fields, b"commit")?;
    push_number(fields, sequence)
}

/// The record of a commit.
pub(crate) fn commit_text(alloc: Global, sequence: u64) -> Result<Vec<u8>, Memory>
    ensures { IfOk result (λ text. text.items ≡ commit_text sequence) }
{
    let mut fields = ByteRecord::new(alloc);
    push_commit(&mut fields, sequence)?;
    record_text(alloc, &fields)
}

/// Adds a token in hexadecimal digits.
fn push_token(fields: &mut ByteRecord, token: &[u8; 32]) -> Result<(), Memory>
    requires { partial_of fields.old ≡ [] }
    ensures { OnOk result (AddsFields fields.old fields.new (token_digits token.now ∷ [])) }
{
    push(fields, digits_of(token).as_slice())
}

/// Adds the fields of a record of a state, which begins with this word.
fn push_told(
    fields: &mut ByteRecord,
    word: &[u8],
    sequence: u64,
    token: &[u8; 32],
) -> Result<(), Memory>
    requires { partial_of fields.old ≡ [] }
    ensures { OnOk result (AddsFields fields.old fields.new (told_fields word.now sequence token.now)) }
{
    push(fields, word)?;
    push_number(fields, sequence)?;
    push_token(fields, token)
}

/// The record of a state, which begins with this word.
pub(crate) fn told_text(
    alloc: Global,
    word: &[u8],
    sequence: u64,
    token: &[u8; 32],
) -> Result<Vec<u8>, Memory>
    ensures { IfOk result (λ text. text.items ≡ told_text word.now sequence token.now) }
{
    let mut fields = ByteRecord::new(alloc);
    push_told(&mut fields, word, sequence, token)?;
    record_text(alloc, &fields)
}

/// Adds the fields of the record that precedes an image.
fn push_image(fields: &mut ByteRecord, sequence: u64, count: u64) -> Result<(), Memory>
    requires { partial_of fields.old ≡ [] }
    ensures { OnOk result (AddsFields fields.old fields.new (image_fields sequence count)) }
{
    push(fields, b"image")?;
    push_number(fields, sequence)?;
    push_number(fields, count)
}

/// The record that precedes an image of `count` bytes.
pub(crate) fn image_head(alloc: Global, sequence: u64, count: usize) -> Result<Vec<u8>, Memory>
    ensures { IfOk result (λ text. text.items ≡ image_head sequence count) }
{
    let mut fields = ByteRecord::new(alloc);
    push_image(&mut fields, sequence, count as u64)?;
    record_text(alloc, &fields)
}

/// Adds the name of a refusal.
fn push_name(fields: &mut ByteRecord, refusal: Refusal) -> Result<(), Memory>
    requires { partial_of fields.old ≡ [] }
    ensures { OnOk result (AddsFields fields.old fields.new (refusal_name refusal ∷ [])) }
{
    push(fields, refusal.name().as_bytes())
}

/// Adds the fields of the record of a refusal.
fn push_refused(fields: &mut ByteRecord, refusal: Refusal) -> Result<(), Memory>
    requires { partial_of fields.old ≡ [] }
    ensures { OnOk result (AddsFields fields.old fields.new (refused_fields refusal)) }
{
    push(fields, b"refused")?;
    push_number(fields, u64::from(refusal.code()))?;
    push_name(fields, refusal)
}

/// The record of a refusal.
pub(crate) fn refused_text(alloc: Global, refusal: Refusal) -> Result<Vec<u8>, Memory>
    ensures { IfOk result (λ text. text.items ≡ refused_text refusal) }
{
    let mut fields = ByteRecord::new(alloc);
    push_refused(&mut fields, refusal)?;
    record_text(alloc, &fields)
}

/// Adds the name of a fault.
fn push_fault_name(fields: &mut ByteRecord, error: ReadError) -> Result<(), Memory>
    requires { partial_of fields.old ≡ [] }
    ensures { OnOk result (AddsFields fields.old fields.new (name_of error ∷ [])) }
{
    push(fields, error.name().as_bytes())
}

/// Adds the fields of the record of a fault.
fn push_fault(fields: &mut ByteRecord, found: RecordFault) -> Result<(), Memory>
    requires { partial_of fields.old ≡ [] }
    ensures { OnOk result (AddsFields fields.old fields.new (fault_fields found)) }
{
    let error = fault(found.number, found.kind);
    push(fields, b"fault")?;
    push_number(fields, u64::from(error.code()))?;
    push_fault_name(fields, error)?;
    push_number(fields, found.number)
}

/// The record of a fault.
pub(crate) fn fault_text(alloc: Global, found: RecordFault) -> Result<Vec<u8>, Memory>
    ensures { IfOk result (λ text. text.items ≡ fault_text found) }
{
    let mut fields = ByteRecord::new(alloc);
    push_fault(&mut fields, found)?;
    record_text(alloc, &fields)
}
