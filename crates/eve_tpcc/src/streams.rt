//! The files that a run reads and the output that it writes: each traces its bytes, counts its failed calls, and shows how far it is.
ghost use Rattle.std.specs.Prelude.{◌≡◌};

use progress::progress::{Shown, ShownBatches, ShownBytes, shown_batches, shown_bytes};
use records::io::Counting;
use std::time::Clock;
use telling::Telling;

/// A file or an output whose bytes are shown.
type Bytes<'a, R, T> = ShownBytes<'a, R, Telling<Counting<T>>>;

/// An output whose batches are shown.
type Batches<'a, R, T> = ShownBatches<'a, R, Telling<Counting<T>>>;

/// A file or an output that traces its bytes and counts its failed calls.
fn traced<T>(stream: T) -> Telling<Counting<T>>
    ensures { result.inner.failures ≡ 0 }
{
    Telling::new(Counting::new(stream))
}

/// An image to read.
pub fn image_source<'a, R: Eprint + Clock, T>(rt: &'a R, file: T, shown: Shown) -> Bytes<'a, R, T>
    ensures { result.inner.inner.failures ≡ 0 }
{
    shown_bytes(rt, traced(file), "bytes of the image read", shown)
}

/// An image to write.
pub fn image_sink<'a, R: Eprint + Clock, T>(rt: &'a R, output: T, shown: Shown) -> Bytes<'a, R, T>
    ensures { result.inner.inner.failures ≡ 0 }
{
    shown_bytes(rt, traced(output), "bytes of the image written", shown)
}

/// The batches to read.
pub fn batches_source<'a, R: Eprint + Clock, T>(rt: &'a R, file: T, shown: Shown) -> Bytes<'a, R, T>
    ensures { result.inner.inner.failures ≡ 0 }
{
    shown_bytes(rt, traced(file), "bytes of the batches read", shown)
}

/// The replies to write.
pub fn reply_sink<'a, R: Eprint + Clock, T>(rt: &'a R, output: T, shown: Shown) -> Batches<'a, R, T>
    ensures { result.inner.inner.failures ≡ 0 }
{
    shown_batches(rt, traced(output), shown)
}
