//! Loads a database from the bytes of an image.
ghost use Rattle.std.specs.Prelude.{◌≡◌, ◌≢◌, ◌⊎◌, ◌+◌, ◌<◌, ◌≤◌, ◌^◌, [], length, true, Ok, Err, IfOk, IfErr, IfSome, IsErrOf, OnOk};
ghost use Rattle.tpcc_model.specs.Soundness.{IsSound};
ghost use Rattle.rollback.specs.Marks.{AreClean};
ghost use Rattle.image_records.specs.Faults.{IsOfReading, IsOfText, StopsBy};
ghost use Rattle.loader.specs.Image.{IsUnread, image, most_bytes};
ghost use Rattle.image_records.specs.Databases.{loaded};
ghost use Rattle.telling.specs.Told.{OfSource};
ghost use Rattle.tpcc_model.specs.Database.{database};

use crate::reading::read_tables;
use crate::unpaged::UnpagedRows;
use catalog::Catalog;
use image_records::fault::LoadError;
use records::fault::ReadError;
use records::io::Source;
use records::slurp::slurp;
use row_store::PointedStore;
use std::alloc::Global;
use telling::{TellingSource, slurp_told};
use tpcc_rows::memory::Memory;

/// Maximum size of an image, in bytes.
const MOST_BYTES: usize = 4_294_967_295;

/// The cards and rows of an image. Its text is freed before late rows join the others.
#[inline(never)]
fn read_text(alloc: Global, text: Vec<u8>) -> Result<(Catalog, UnpagedRows), LoadError>
    requires { length text.items ≤ most_bytes }
    ensures ok { IfOk result (λ db. image text.items ≡ Ok (database db.0 db.1)) }
    ensures sound { IfOk result (λ db. IsSound (database db.0 db.1)) }
    ensures err { IfErr result (λ e. StopsBy e (image text.items)) }
    ensures kinds { IfErr result IsOfText }
{
    let tables = read_tables(alloc, &text)?;
    drop(text);
    let (catalog, rows) = tables.finish()?;
    rows.check(alloc, &catalog)?;
    Ok((catalog, rows))
}

/// The cards and rows of the image that a source has left, as in `load`, but not in a store.
pub fn read_image<S: Source>(
    alloc: Global,
    source: &mut S,
) -> Result<(Catalog, UnpagedRows), LoadError>
    requires { S.failed source.old < 2 ^ 63 }
    ensures ok { IfOk result (λ db. IfSome (S.left source.old) (λ bytes. image bytes ≡ Ok (database db.0 db.1))) }
    ensures within { OnOk result (IfSome (S.left source.old) (λ bytes. length bytes ≤ most_bytes)) }
    ensures sound { IfOk result (λ db. IsSound (database db.0 db.1)) }
    ensures err { IfErr result (λ e.
        IsOfReading e ⊎ IfSome (S.left source.old) (λ bytes. image bytes ≡ Err e)) }

    // Each fault is reported only if present, and no other failure is.
    ensures too_long { IsErrOf result LoadError.InputTooLong
        → IfSome (S.left source.old) (λ bytes. most_bytes < length bytes) }
    ensures read { IsErrOf result LoadError.Read → S.failed source.new ≡ S.failed source.old + 1 }
    ensures no_read { (result ≢ Err LoadError.Read) → S.failed source.new ≡ S.failed source.old }
{
    let text = match slurp(alloc, source, MOST_BYTES) {
        Ok(text) => text,
        Err(ReadError::Read) => return Err(LoadError::Read),
        Err(ReadError::InputTooLong) => return Err(LoadError::InputTooLong),
        Err(_) => return Err(LoadError::Memory),
    };
    read_text(alloc, text)
}

/// The bytes of a source up to its end.
fn text_of<S: TellingSource>(alloc: Global, source: &mut S) -> Result<Vec<u8>, LoadError>
    requires { S.failed source.old < 2 ^ 63 }
    ensures whole { IfOk result (λ v. OfSource (S.left source.old) (S.given source.old) (S.given source.new) (λ bytes. v.items ≡ bytes)) }
    ensures over { OnOk result (S.ended source.new ≡ true) }
    ensures within { IfOk result (λ v. length v.items ≤ most_bytes) }
    ensures err { IfErr result (λ e. OfSource (S.left source.old) (S.given source.old) (S.given source.new) (IsUnread e)) }
    ensures read { IsErrOf result LoadError.Read → S.failed source.new ≡ S.failed source.old + 1 }
    ensures no_read { (result ≢ Err LoadError.Read) → S.failed source.new ≡ S.failed source.old }
{
    match slurp_told(alloc, source, MOST_BYTES) {
        Ok(text) => Ok(text),
        Err(ReadError::Read) => Err(LoadError::Read),
        Err(ReadError::InputTooLong) => Err(LoadError::InputTooLong),
        Err(_) => Err(LoadError::Memory),
    }
}

/// The cards and rows of an image: the bytes of a source up to its end.
pub fn read_told<S: TellingSource>(
    alloc: Global,
    source: &mut S,
) -> Result<(Catalog, UnpagedRows), LoadError>
    requires { S.failed source.old < 2 ^ 63 }
    ensures ok { IfOk result (λ db. OfSource (S.left source.old) (S.given source.old) (S.given source.new) (λ bytes.
        image bytes ≡ Ok (database db.0 db.1))) }
    ensures over { OnOk result (S.ended source.new ≡ true) }
    ensures within { OnOk result (OfSource (S.left source.old) (S.given source.old) (S.given source.new) (λ bytes. length bytes ≤ most_bytes)) }
    ensures sound { IfOk result (λ db. IsSound (database db.0 db.1)) }
    ensures err { IfErr result (λ e. OfSource (S.left source.old) (S.given source.old) (S.given source.new) (IsUnread e)) }

    // No failure but the reported one.
    ensures read { IsErrOf result LoadError.Read → S.failed source.new ≡ S.failed source.old + 1 }
    ensures no_read { (result ≢ Err LoadError.Read) → S.failed source.new ≡ S.failed source.old }
{
    let text = match text_of(alloc, source) {
        Ok(text) => text,
        Err(error) => return Err(error),
    };
    read_text(alloc, text)
}

/// Loads the image that a source has left, of at most 4,294,967,295 bytes. Of several faults the first bad record is
/// reported, else a missing end record, a missing parent, or the first condition that fails.
pub fn load<S: Source>(alloc: Global, source: &mut S) -> Result<(Catalog, PointedStore), LoadError>
    requires { S.failed source.old < 2 ^ 63 }
    ensures ok { IfOk result (λ db. IfSome (S.left source.old) (λ bytes. image bytes ≡ Ok (loaded db))) }
    ensures points { IfOk result (λ db. db.1.points ≡ []) }
    ensures clean { IfOk result (λ db. AreClean db.1.dirty) }
    ensures within { OnOk result (IfSome (S.left source.old) (λ bytes. length bytes ≤ most_bytes)) }
    ensures sound { IfOk result (λ db. IsSound (loaded db)) }
    ensures err { IfErr result (λ e.
        IsOfReading e ⊎ IfSome (S.left source.old) (λ bytes. image bytes ≡ Err e)) }

    // Each fault is reported only if present, and no other failure is.
    ensures too_long { IsErrOf result LoadError.InputTooLong
        → IfSome (S.left source.old) (λ bytes. most_bytes < length bytes) }
    ensures read { IsErrOf result LoadError.Read → S.failed source.new ≡ S.failed source.old + 1 }
    ensures no_read { (result ≢ Err LoadError.Read) → S.failed source.new ≡ S.failed source.old }
{
    let (catalog, rows) = match read_image(alloc, source) {
        Ok(database) => database,
        Err(error) => return Err(error),
    };
    match rows.into_store(alloc) {
        Ok(store) => Ok((catalog, store)),
        Err(Memory) => Err(LoadError::Memory),
    }
}
