//! Reads the bytes of batches.
ghost use Rattle.std.specs.Prelude.{◌≡◌, ◌≢◌, ◌+◌, ◌<◌, ◌^◌, true, IfErr, IfOk, IsErrOf, OnOk};
ghost use Rattle.runner.specs.WholeRuns.{IsInputFault};
ghost use Rattle.telling.specs.Told.{OfSource};

use records::fault::ReadError;
use std::alloc::Global;
use telling::{TellingSource, slurp_told};

/// Maximum size of the batches, in bytes.
const MOST_BATCH_BYTES: usize = 1_073_741_824;

/// Reads all bytes of the batches.
pub(crate) fn read_batches<B: TellingSource>(
    alloc: Global,
    batches: &mut B,
) -> Result<Vec<u8>, ReadError>
    requires { B.failed batches.old < 2 ^ 63 }
    ensures whole { IfOk result (λ text. OfSource (B.left batches.old) (B.given batches.old) (B.given batches.new) (λ bytes. text.items ≡ bytes)) }
    ensures over { OnOk result (B.ended batches.new ≡ true) }
    ensures err { IfErr result (λ e. OfSource (B.left batches.old) (B.given batches.old) (B.given batches.new) (IsInputFault e)) }
    ensures read { IsErrOf result ReadError.Read → B.failed batches.new ≡ B.failed batches.old + 1 }
    ensures no_read { (result ≢ Err ReadError.Read) → B.failed batches.new ≡ B.failed batches.old }
{
    slurp_told(alloc, batches, MOST_BATCH_BYTES)
}
