//! The versions of the image format.
ghost use Rattle.std.specs.Prelude.{◌≡◌};
ghost use Rattle.csv.specs.Records.{field_at, fields_of};
ghost use Rattle.image_records.specs.Versions.{version_of, version_told};

use csv::ByteRecord;
use records::fields::has_text;

/// A version of the image format.
#[derive(Clone, Copy, Debug, PartialEq, Eq)]
pub enum Version {
    /// A district's record has its card and its two rows.
    One,
    /// A district's record has its card; each of its two rows has a record of its own.
    Two,
}

/// The version that a field names.
fn version_told(fields: &ByteRecord, i: usize) -> Option<Version>
    ensures { result ≡ version_told (field_at (fields_of fields.now) i) }
{
    if has_text(fields, i, b"1") {
        return Some(Version::One);
    }
    if has_text(fields, i, b"2") {
        return Some(Version::Two);
    }
    None
}

/// The version that an image's first record names: `eve-tpcc,1` or `eve-tpcc,2`.
pub fn version_of(fields: &ByteRecord) -> Option<Version>
    ensures { result ≡ version_of (fields_of fields.now) }
{
    if fields.len() != 2 {
        return None;
    }
    if !has_text(fields, 0, b"eve-tpcc") {
        return None;
    }
    version_told(fields, 1)
}
