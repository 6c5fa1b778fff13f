//! Reads whole inputs and writes whole texts.
ghost use Rattle.std.specs.Prelude.{◌≡◌, ◌≢◌, ◌+◌, ◌<◌, ◌≤◌, ◌^◌, length, IfOk, OnOk, OnErr, IfErr, IfSome, IsErrOf, vec_len, is_ok, if◌then◌else◌};
ghost use Rattle.std.specs.Io.KnownBytes.{Appends};
ghost use Rattle.records.specs.Io.{AppendsFront, IsOfWholeInput};

use crate::fault::ReadError;
use crate::io::{Failed, Sink, Source};
use std::alloc::Global;

/// Bytes a pull.
const CHUNK: usize = 32_768;

/// Reads all that a source has left, at most `limit` bytes.
pub fn slurp<S: Source>(alloc: Global, source: &mut S, limit: usize) -> Result<Vec<u8>, ReadError>
    requires { S.failed source.old < 2 ^ 63 }
    ensures whole { IfOk result (λ v. IfSome (S.left source.old) (λ bytes. v.items ≡ bytes)) }
    ensures within { IfOk result (λ v. vec_len v ≤ limit) }

    // Each error has its cause, and the only failure is the one reported.
    ensures too_long { IsErrOf result ReadError.InputTooLong
        → IfSome (S.left source.old) (λ bytes. limit < length bytes) }
    ensures read { IsErrOf result ReadError.Read → S.failed source.new ≡ S.failed source.old + 1 }
    ensures no_read { (result ≢ Err ReadError.Read) → S.failed source.new ≡ S.failed source.old }
    ensures kinds { IfErr result IsOfWholeInput }
{
    let mut text = Vec::new(alloc);
    let mut chunk = [0u8; CHUNK];
    loop {
        let count = match source.pull(&mut chunk) {
            Ok(count) => count,
            Err(Failed) => return Err(ReadError::Read),
        };
        if count == 0 {
            return Ok(text);
        }
        if limit - text.len() < count {
            return Err(ReadError::InputTooLong);
        }
        text.extend_from_slice(&chunk[..count])?;
    }
}

/// Pushes a whole text. After a failure a prefix was taken.
pub fn push_all<S: Sink>(sink: &mut S, text: &[u8]) -> Result<(), Failed>
    requires { S.failed sink.old < 2 ^ 63 }
    ensures ok { OnOk result (Appends (S.taken sink.old) (S.taken sink.new) text.now) }
    ensures err { OnErr result (AppendsFront (S.taken sink.old) (S.taken sink.new) text.now) }
    ensures count { S.failed sink.new ≡ S.failed sink.old + (if is_ok result then 0 else 1) }
{
    let mut rest = text;
    while !rest.is_empty() {
        let count = sink.push(rest)?;
        rest = &rest[count..];
    }
    Ok(())
}
