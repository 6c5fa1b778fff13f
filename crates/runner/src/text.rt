//! The text of a batch: the records of its replies, then its own.
ghost use Rattle.std.specs.Prelude.{◌≡◌, ◌++◌, ◌+◌, ◌≤◌, ◌∷◌, [], length, IfOk, OnOk};
ghost use Rattle.csv.specs.Records.{fields_of, partial_of};
ghost use Rattle.records.specs.Spelling.{AddsFields};
ghost use Rattle.records.specs.Writer.{IsWriting, written};
ghost use Rattle.runner.specs.Text.{batch_record_fields, batch_record_text, path_word, replies_text, token_digits};

use csv::{ByteRecord, Writer};
use executor::Record;
use executor::path::Path;
use records::record_text::{push, push_number};
use records::record_writer::{record_writer, write_record, written_text};
use requests::reply::Reply;
use requests::reply_text::fill_record;
use std::alloc::Global;
use tpcc_rows::id::{END_OF_NUMBERS, RequestNumber};
use tpcc_rows::memory::Memory;

/// Writes the records of replies, numbered from `first`.
fn write_replies(
    alloc: Global,
    first: u64,
    replies: &[Reply],
    writer: &mut Writer<Vec<u8>>,
) -> Result<(), Memory>
    requires low { 1 ≤ first }
    requires high { first + length replies.now ≤ END_OF_NUMBERS }
    requires writing { IsWriting writer.old }
    ensures writing { OnOk result (IsWriting writer.new) }
    ensures text { OnOk result (written writer.new ≡ written writer.old ++ replies_text first replies.now) }
{
    let mut next = first;
    let mut fields = ByteRecord::new(alloc);
    for reply in replies {
        let number = RequestNumber::new(next).unwrap();
        fill_record(&mut fields, number, reply)?;
        write_record(writer, &fields)?;
        next += 1;
    }
    Ok(())
}

/// A token in hexadecimal digits.
#[tactic(auto, unfolding(crate::specs::Text::token_digits))]
pub fn digits_of(token: &[u8; 32]) -> [u8; 64]
    ensures { result ≡ token_digits token.now }
{
    let mut digits = [0; 64];
    hex::encode_to_slice(token, &mut digits).unwrap();
    digits
}

/// Adds a token in hexadecimal digits.
fn push_token(fields: &mut ByteRecord, token: &[u8; 32]) -> Result<(), Memory>
    requires { partial_of fields.old ≡ [] }
    ensures { OnOk result (AddsFields fields.old fields.new (token_digits token.now ∷ [])) }
{
    push(fields, digits_of(token).as_slice())
}

/// The word that a path is written as.
fn word_of(path: Path) -> &'static str
    ensures { result.now ≡ path_word path }
{
    match path {
        Path::Parallel => "parallel",
        Path::Reran => "reran",
        Path::Verdict => "verdict",
        Path::Sequential => "sequential",
    }
}

/// Adds the word of a path.
fn push_path(fields: &mut ByteRecord, path: Path) -> Result<(), Memory>
    requires { partial_of fields.old ≡ [] }
    ensures { OnOk result (AddsFields fields.old fields.new (path_word path ∷ [])) }
{
    push(fields, word_of(path).as_bytes())
}

/// Adds the fields of the record of a batch with this path.
fn push_batch(
    fields: &mut ByteRecord,
    sequence: u64,
    path: Path,
    token: &[u8; 32],
) -> Result<(), Memory>
    requires { partial_of fields.old ≡ [] }
    ensures { OnOk result (AddsFields fields.old fields.new (batch_record_fields sequence path token.now)) }
{
    push(fields, b"batch")?;
    push_number(fields, sequence)?;
    push_path(fields, path)?;
    push_token(fields, token)
}

/// The record of a batch with this path.
fn batch_record(
    alloc: Global,
    sequence: u64,
    path: Path,
    token: &[u8; 32],
) -> Result<ByteRecord, Memory>
    ensures { IfOk result (λ fields. fields_of fields ≡ batch_record_fields sequence path token.now) }
{
    let mut fields = ByteRecord::new(alloc);
    push_batch(&mut fields, sequence, path, token)?;
    Ok(fields)
}

/// The text of a batch with this record.
pub fn batch_text(alloc: Global, done: &Record) -> Result<Vec<u8>, Memory>
    requires low { 1 ≤ done.now.first }
    requires high { done.now.first + length done.now.replies.items ≤ END_OF_NUMBERS }
    ensures { IfOk result (λ v. v.items ≡ replies_text done.now.first done.now.replies.items
        ++ batch_record_text done.now.sequence done.now.path done.now.token) }
{
    let mut writer = record_writer(alloc);
    write_replies(alloc, done.first, done.replies.as_slice(), &mut writer)?;
    let last = batch_record(alloc, done.sequence, done.path, &done.token)?;
    write_record(&mut writer, &last)?;
    written_text(writer)
}
