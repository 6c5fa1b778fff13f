//! Reads the records of a text as its bytes arrive.
ghost use Rattle.std.specs.Prelude.{◌≡◌, ◌⊎◌, ◌+◌, ◌-◌, ◌<◌, ◌≤◌, ◌^◌, ◌++◌, ◌∷◌, [], ℕ, List, Option, true, IfErr, IfNone, IfOk, IfSome, OnOk, OnSome, if◌then◌else◌, is_ok, option_map};
ghost use Rattle.std.specs.Io.KnownBytes.{Keeps};
ghost use Rattle.commands.specs.Commands.{Progress, StopsBy, commands_of, ended, is_read, told};
ghost use Rattle.commands.specs.Machine.{state_of};
ghost use Rattle.commands.specs.Reader.{Turns, WhereKnown, bytes_left, following, hearing_of, pulled, rows_left, rows_pulled};
ghost use Rattle.commands.specs.Rows.{EndsWithin, IsLonger, rows_in, with_row};
ghost use Rattle.csv.specs.Machine.{ends_at_end, field_after, fields_after, is_end, step};
ghost use Rattle.csv.specs.Reading.{default_config};
ghost use Rattle.csv.specs.Records.{fields_of, partial_of};
ghost use Rattle.csv.specs.declared.parser.State.TheVariants as at;
ghost use Rattle.records.specs.declared.fault.ReadError.TheVariants as read_error;

use crate::chunk::Chunk;
use crate::machine::{Action, State, ends_at_end, step};
use csv::ByteRecord;
use records::fault::ReadError;
use records::io::{Failed, Source};
use std::alloc::Global;
use tpcc_rows::id::END_OF_NUMBERS;

/// The greatest number of a record.
pub const LAST_RECORD: u64 = END_OF_NUMBERS - 1;

/// The most bytes of a command, and of a skipped record: 64 MB.
pub const MOST_BYTES: u64 = 67_108_864;

/// Reads the records of a text one by one, each as soon as its line end has come.
#[derive(Drop)]
pub(crate) struct RecordReader {
    chunk: Chunk,
    has_begun: bool,
    state: State,
    /// The current field.
    field: Vec<u8>,
    /// The last record read.
    pub fields: ByteRecord,
    /// The number of records read.
    pub read: u64,
}

impl RecordReader {
    /// A reader at the start of a text.
    pub fn new(alloc: Global) -> RecordReader
        ensures all { (known : Option (List ℕ)) → rows_left result known ≡ option_map rows_in known }
        ensures read { result.read ≡ 0 }
    {
        RecordReader {
            chunk: Chunk::new(),
            has_begun: false,
            state: State::StartRecord,
            field: Vec::new(alloc),
            fields: ByteRecord::new(alloc),
            read: 0,
        }
    }

    /// Adds the current field to the record.
    fn end_field(&mut self) -> Result<(), ReadError>
        requires { partial_of self.old.fields ≡ [] }
        ensures fields { OnOk result (fields_of self.new.fields ≡ fields_of self.old.fields ++ self.old.field.items ∷ []) }
        ensures partial { OnOk result (partial_of self.new.fields ≡ []) }
        ensures field { OnOk result (self.new.field.items ≡ []) }
        ensures same { self.new ≡ record self.old { fields = self.new.fields; field = self.new.field } }
        ensures err { IfErr result (λ e. e ≡ read_error.Memory) }
    {
        self.fields.push_field(self.field.as_slice())?;
        self.field.clear();
        Ok(())
    }

    /// Applies a byte to the current record, and says whether it ends the record.
    fn take(&mut self, byte: u8) -> Result<bool, ReadError>
        requires { partial_of self.old.fields ≡ [] }
        ensures state { OnOk result (state_of self.new.state ≡ (step default_config (state_of self.old.state) byte).0) }
        ensures ended { IfOk result (λ ended. ended ≡ is_end (step default_config (state_of self.old.state) byte).1) }
        ensures fields { OnOk result (fields_of self.new.fields
            ≡ fields_after (step default_config (state_of self.old.state) byte).1 (fields_of self.old.fields) self.old.field.items) }
        ensures field { OnOk result (self.new.field.items
            ≡ field_after (step default_config (state_of self.old.state) byte).1 byte self.old.field.items) }
        ensures partial { OnOk result (partial_of self.new.fields ≡ []) }
        ensures same { self.new ≡ record self.old { state = self.new.state; fields = self.new.fields; field = self.new.field } }
        ensures err { IfErr result (λ e. e ≡ read_error.Memory) }
    {
        let (state, action) = step(self.state, byte);
        self.state = state;
        match action {
            Action::Skip => Ok(false),
            Action::Copy => {
                self.field.push(byte)?;
                Ok(false)
            }
            Action::EndField => {
                self.end_field()?;
                Ok(false)
            }
            Action::EndRecord => {
                self.end_field()?;
                Ok(true)
            }
        }
    }

    /// Ends the text, and says whether that ends a record.
    fn end(&mut self) -> Result<bool, ReadError>
        requires { partial_of self.old.fields ≡ [] }
        ensures ended { IfOk result (λ ended. ended ≡ ends_at_end (state_of self.old.state)) }
        ensures state { IfOk result (λ ended. ended ≡ true → state_of self.new.state ≡ at.StartRecord) }
        ensures fields { IfOk result (λ ended. ended ≡ true → fields_of self.new.fields ≡ fields_of self.old.fields ++ self.old.field.items ∷ []) }
        ensures same { self.new ≡ record self.old { state = self.new.state; fields = self.new.fields; field = self.new.field } }
        ensures err { IfErr result (λ e. e ≡ read_error.Memory) }
    {
        if !ends_at_end(self.state) {
            return Ok(false);
        }
        self.end_field()?;
        self.state = State::StartRecord;
        Ok(true)
    }

    /// Reads the bytes of the next record, if there is one. Returns the number of bytes of the command read so far.
    fn scan<S: Source>(&mut self, source: &mut S, spent: u64) -> Result<Option<u64>, ReadError>
        requires fields { fields_of self.old.fields ≡ [] }
        requires partial { partial_of self.old.fields ≡ [] }
        requires field { self.old.field.items ≡ [] }
        requires room { spent ≤ MOST_BYTES }
        requires count { S.failed source.old < 2 ^ 63 }
        ensures row { IfOk result (λ o. IfSome o (λ total.
            Turns (rows_pulled self.old (S.left source.old)) (rows_pulled self.new (S.left source.new))
            (λ old new. old ≡ with_row (fields_of self.new.fields, total - spent) new))) }
        ensures more { IfOk result (λ o. IfSome o (λ total. (spent ≤ total) × (total ≤ MOST_BYTES))) }
        ensures end { IfOk result (λ o. IfNone o (WhereKnown (rows_pulled self.old (S.left source.old)) (EndsWithin (MOST_BYTES - spent)))) }
        ensures err { IfErr result (λ e. (e ≡ read_error.Memory) ⊎ (e ≡ read_error.Read)
            ⊎ ((e ≡ read_error.InputTooLong) × WhereKnown (rows_pulled self.old (S.left source.old)) (IsLonger (MOST_BYTES - spent)))) }
        ensures begun { self.new.has_begun ≡ self.old.has_begun }
        ensures read { self.new.read ≡ self.old.read }
        ensures failures { S.failed source.new ≡ S.failed source.old + (if is_read result then 1 else 0) }
    {
        let mut total = spent;
        'bytes: loop {
            let byte = match self.chunk.next_byte(source) {
                Ok(Some(byte)) => byte,
                Ok(None) => {
                    if self.end()? {
                        return Ok(Some(total));
                    }
                    return Ok(None);
                }
                Err(Failed) => return Err(ReadError::Read),
            };
            if total == MOST_BYTES {
                return Err(ReadError::InputTooLong);
            }
            total += 1;
            if self.take(byte)? {
                return Ok(Some(total));
            }
        }
    }

    /// Skips a byte order mark at the start of the text.
    fn begin<S: Source>(&mut self, source: &mut S) -> Result<(), Failed>
        requires { S.failed source.old < 2 ^ 63 }
        ensures keeps { OnOk result (Keeps (bytes_left self.old (S.left source.old)) (pulled self.new.chunk (S.left source.new))) }
        ensures begun { OnOk result (self.new.has_begun ≡ true) }
        ensures state { self.new.state ≡ self.old.state }
        ensures read { self.new.read ≡ self.old.read }
        ensures count { S.failed source.new ≡ S.failed source.old + (if is_ok result then 0 else 1) }
    {
        if self.has_begun {
            return Ok(());
        }
        self.chunk.begin(source)?;
        self.has_begun = true;
        Ok(())
    }

    /// Reads the next record of a command of which this many bytes were read, if there is one. Returns the number read then.
    pub fn next_record<S: Source>(
        &mut self,
        source: &mut S,
        spent: u64,
    ) -> Result<Option<u64>, ReadError>
        requires numbers { self.old.read ≤ LAST_RECORD }
        requires room { spent ≤ MOST_BYTES }
        requires count { S.failed source.old < 2 ^ 63 }
        ensures record { IfOk result (λ o. IfSome o (λ total. (progress : Progress)
            → Turns (rows_left self.old (S.left source.old)) (rows_left self.new (S.left source.new))
            (λ old new. commands_of old self.old.read spent progress
            ≡ told self.new.read progress (fields_of self.new.fields) (following new self.new.read total)))) }
        ensures room { IfOk result (λ o. IfSome o (λ total. total ≤ MOST_BYTES)) }
        ensures further { IfOk result (λ o. OnSome o (self.new.read ≡ self.old.read + 1)) }
        ensures numbers { self.new.read ≤ LAST_RECORD }
        ensures end { IfOk result (λ o. IfNone o ((progress : Progress)
            → WhereKnown (rows_left self.old (S.left source.old)) (λ old. commands_of old self.old.read spent progress ≡ ended self.old.read progress))) }
        ensures none { IfOk result (λ o. IfNone o (self.new.read ≡ self.old.read)) }
        ensures err { IfErr result (λ e. (progress : Progress)
            → StopsBy e (hearing_of (rows_left self.old (S.left source.old)) self.old.read spent progress)) }
        ensures failures { S.failed source.new ≡ S.failed source.old + (if is_read result then 1 else 0) }
    {
        if self.begin(source).is_err() {
            return Err(ReadError::Read);
        }
        self.fields.clear();
        self.field.clear();
        let Some(total) = self.scan(source, spent)? else {
            return Ok(None);
        };
        if self.read == LAST_RECORD {
            return Err(ReadError::InputTooLong);
        }
        self.read += 1;
        Ok(Some(total))
    }
}
