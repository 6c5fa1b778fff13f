//! Columns that only images have.
ghost use Rattle.std.specs.Prelude.{◌≡◌, ◌+◌, ◌<◌, ◌^◌};
ghost use Rattle.csv.specs.Records.{field_at, fields_of};
ghost use Rattle.image_records.specs.Columns.{credit_of, texts_at};
ghost use Rattle.image_records.specs.Faults.{Reads};

use crate::record_fault::RecordFault;
use catalog::card::{Credit, DistrictInfos};
use csv::ByteRecord;
use records::fault::FaultKind;
use records::fields::{has_text, text};
use std::alloc::Global;
use tpcc_rows::text::Text;

/// C_CREDIT: `GC` or `BC`.
pub(crate) fn credit(fields: &ByteRecord, i: usize) -> Result<Credit, FaultKind>
    ensures { result ≡ credit_of (field_at (fields_of fields.now) i) }
{
    if has_text(fields, i, b"GC") {
        return Ok(Credit::Good);
    }
    if has_text(fields, i, b"BC") {
        return Ok(Credit::Bad);
    }
    Err(FaultKind::BadField)
}

/// S_DIST_01 to S_DIST_10, from field `first` on.
pub(crate) fn district_infos(
    alloc: Global,
    fields: &ByteRecord,
    first: usize,
) -> Result<DistrictInfos, RecordFault>
    requires { first + 10 < 2 ^ 64 }
    ensures { Reads (texts_at (fields_of fields.now) first 10 24) result }
{
    let mut infos: [Text<24>; 10] = Default::default();
    for place in 0..10 {
        let info = text(fields, first + place)?;
        infos[place] = info;
    }
    Ok(DistrictInfos::new(alloc, &infos)?)
}
