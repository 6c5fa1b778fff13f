//! Reads the batches of a text.
ghost use Rattle.std.specs.Prelude.{◌≡◌, ◌+◌, ◌≤◌, [], length, IfOk, IfErr, IfSome, IfNone};
ghost use Rattle.requests.specs.Batches.{StopsBy, batches, clean, stopped_at, with_front};

use crate::reading::read_batch;
use crate::request::Batch;
use csv::{ByteRecord, Reader};
use records::fault::ReadError;
use records::reading::records_of;
use std::alloc::Global;
use std::marker::Model;

/// The state of a reader of batches.
#[derive(Clone, Copy)]
enum Standing {
    Going,
    Done,
    Stopped(ReadError),
}

/// Reads the batches of a text one by one.
#[derive(Drop)]
pub struct BatchReader<'a> {
    reader: Reader<&'a [u8]>,
    fields: ByteRecord,
    number: u64,
    standing: Standing,
}

impl<'a> Model for BatchReader<'a> {
    ghost use Rattle.requests.specs.Batches.{BatchesLeft};
    ghost use Rattle.requests.specs.Reader.{IsSteady, reading_of};

    ghost Value = { BatchesLeft };

    ghost view = { reading_of };

    ghost invariant = { IsSteady };
}

impl<'a> BatchReader<'a> {
    /// A reader at the start of a text.
    pub fn new(alloc: Global, text: &'a [u8]) -> Result<BatchReader<'a>, ReadError>
        ensures all { IfOk result (λ r. r.left ≡ batches text.now) }
        ensures count { IfOk result (λ r. length r.left.0 ≤ length text.now + 1) }
        ensures err { IfErr result (λ e. e ≡ ReadError.Memory) }
    {
        let _length = text.len();
        Ok(BatchReader {
            reader: records_of(alloc, text),
            fields: ByteRecord::new(alloc),
            number: 1,
            standing: Standing::Going,
        })
    }

    /// Reads the next batch, or `None` at the end. After an error each further call returns it again.
    pub fn next_batch(&mut self, alloc: Global) -> Result<Option<Batch>, ReadError>
        ensures batch { IfOk result (λ o. IfSome o (λ b. self.old.left ≡ with_front b self.new.left)) }
        ensures end { IfOk result (λ o. IfNone o ((self.old.left ≡ ([], clean)) × (self.new.left ≡ ([], clean)))) }
        ensures err { IfErr result (λ e. StopsBy e self.old.left × (self.new ≡ stopped_at e)) }
        ensures again { IfSome self.old.stopped (λ e. result ≡ Err e) }
    {
        match self.standing {
            Standing::Stopped(e) => return Err(e),
            Standing::Done => return Ok(None),
            Standing::Going => {}
        }
        match read_batch(alloc, &mut self.reader, &mut self.fields, &mut self.number) {
            Ok(Some(batch)) => Ok(Some(batch)),
            Ok(None) => {
                self.standing = Standing::Done;
                Ok(None)
            }
            Err(e) => {
                self.standing = Standing::Stopped(e);
                Err(e)
            }
        }
    }
}
