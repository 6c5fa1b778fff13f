//! Reads whole inputs.
ghost use Rattle.std.specs.Prelude.{◌≡◌, ◌≢◌, ◌+◌, ◌<◌, ◌≤◌, ◌^◌, true, IfErr, IfOk, IsErrOf, OnOk, vec_len};
ghost use Rattle.records.specs.Io.{IsOfWholeInput};
ghost use Rattle.telling.specs.Told.{IsOverLong, OfSource};

use crate::ends::TellingSource;
use records::fault::ReadError;
use records::io::Failed;
use std::alloc::Global;

/// Bytes a pull.
const CHUNK: usize = 32_768;

/// Reads a source to its end, at most `limit` bytes.
pub fn slurp_told<S: TellingSource>(
    alloc: Global,
    source: &mut S,
    limit: usize,
) -> Result<Vec<u8>, ReadError>
    requires { S.failed source.old < 2 ^ 63 }
    ensures whole { IfOk result (λ v. OfSource (S.left source.old) (S.given source.old) (S.given source.new) (λ bytes. v.items ≡ bytes)) }
    ensures over { OnOk result (S.ended source.new ≡ true) }
    ensures within { IfOk result (λ v. vec_len v ≤ limit) }

    // Each error has its cause, and the only failure is the one reported.
    ensures err { IfErr result (λ e. OfSource (S.left source.old) (S.given source.old) (S.given source.new) (IsOverLong e limit)) }
    ensures read { IsErrOf result ReadError.Read → S.failed source.new ≡ S.failed source.old + 1 }
    ensures no_read { (result ≢ Err ReadError.Read) → S.failed source.new ≡ S.failed source.old }
    ensures kinds { IfErr result IsOfWholeInput }
{
    let mut text = Vec::new(alloc);
    let mut chunk = [0u8; CHUNK];
    loop {
        let count = match source.pull(&mut chunk) {
            Ok(count) => count,
            Err(Failed) => return Err(ReadError::Read),
        };
        if count == 0 {
            return Ok(text);
        }
        if limit - text.len() < count {
            return Err(ReadError::InputTooLong);
        }
        text.extend_from_slice(&chunk[..count])?;
    }
}
