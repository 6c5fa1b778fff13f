//! Reads the commands of a text as its bytes arrive.
ghost use Rattle.std.specs.Prelude.{◌≡◌, ◌+◌, ◌<◌, ◌≤◌, ◌^◌, ℕ, List, Option, [], Err, IfErr, IfNone, IfOk, IfSome, None, OnOk, OnSome, Some, if◌then◌else◌, option_map};
ghost use Rattle.commands.specs.Commands.{Gives, IsOver, StopsBy, commands, is_read};
ghost use Rattle.commands.specs.Reader.{heard_from};
ghost use Rattle.requests.specs.Batches.{clean};
ghost use Rattle.commands.specs.declared.record_reader.TheConstants.{LAST_RECORD};

use crate::command::Heard;
use crate::reading::read_heard;
use crate::record_reader::RecordReader;
use records::fault::ReadError;
use records::io::Source;
use std::alloc::Global;
use std::marker::Model;

/// The state of a reader of commands.
#[derive(Clone, Copy)]
enum Standing {
    Going,
    Done,
    Stopped(ReadError),
}

/// Reads commands one by one, each as soon as its last record's line end has come. A faulty record counts as a command, and the
/// records after it are skipped up to the next that names a command.
#[derive(Drop)]
pub struct CommandReader {
    records: RecordReader,
    is_behind: bool,
    standing: Standing,
}

impl Model for CommandReader {
    ghost use Rattle.commands.specs.Commands.{CommandsLeft};
    ghost use Rattle.commands.specs.Reader.{IsSteady, left_of};

    ghost Value = { CommandsLeft };

    ghost view = { left_of };

    ghost invariant = { IsSteady };
}

impl CommandReader {
    /// A reader at the start of a source's text.
    pub fn new(alloc: Global) -> CommandReader
        ensures all { (known : Option (List ℕ)) → heard_from result known ≡ option_map commands known }
        ensures read { result.read ≡ 0 }
        ensures going { result.stopped ≡ None }
    {
        CommandReader {
            records: RecordReader::new(alloc),
            is_behind: false,
            standing: Standing::Going,
        }
    }

    /// Reads the next command or fault, or `None` at the end. After an error each further call returns it again.
    pub fn next_heard<S: Source>(
        &mut self,
        alloc: Global,
        source: &mut S,
    ) -> Result<Option<Heard>, ReadError>
        requires { S.failed source.old < 2 ^ 63 }
        ensures heard { IfOk result (λ o. IfSome o (λ h. Gives h (heard_from self.old (S.left source.old)) (heard_from self.new (S.left source.new)))) }
        ensures end { IfOk result (λ o. IfNone o (IsOver (heard_from self.old (S.left source.old)))) }
        ensures over { IfOk result (λ o. IfNone o ((known : Option (List ℕ)) → heard_from self.new known ≡ Some ([], clean))) }
        ensures err { IfErr result (λ e. StopsBy e (heard_from self.old (S.left source.old))) }
        ensures stopped { IfErr result (λ e. self.new.stopped ≡ Some e) }
        ensures going { OnOk result (self.new.stopped ≡ None) }
        ensures again { IfSome self.old.stopped (λ e. result ≡ Err e) }

        // Each takes a record, and record numbers are bounded.
        ensures further { IfOk result (λ o. OnSome o (self.old.read < self.new.read)) }
        ensures within { self.new.read ≤ LAST_RECORD }

        // A failed source is the cause of the error, and isn't asked again.
        ensures failures { self.old.stopped ≡ None → S.failed source.new ≡ S.failed source.old + (if is_read result then 1 else 0) }
        ensures no_failures { OnSome self.old.stopped (S.failed source.new ≡ S.failed source.old) }
    {
        match self.standing {
            Standing::Stopped(e) => return Err(e),
            Standing::Done => return Ok(None),
            Standing::Going => {}
        }
        match read_heard(alloc, &mut self.records, source, self.is_behind) {
            Ok(Some(heard)) => {
                self.is_behind = matches!(heard, Heard::Fault(_));
                Ok(Some(heard))
            }
            Ok(None) => {
                self.standing = Standing::Done;
                Ok(None)
            }
            Err(e) => {
                self.standing = Standing::Stopped(e);
                Err(e)
            }
        }
    }
}
