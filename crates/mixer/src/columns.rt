//! Columns: a number for each slot.
ghost use Rattle.std.specs.Prelude.{◌≡◌, length, map, vec_len};
ghost use Rattle.mixer.specs.Columns.{IsRaised, highest};
ghost use Rattle.mixer.specs.Slots.{slot};
ghost use Rattle.mixer.specs.declared.slots.TheConstants.{SLOTS};

use crate::slots::slot;
use tpcc_rows::granule::Granule;

/// The greatest number at the slots of these granules.
pub(crate) fn highest(column: &[u16], granules: &[Granule]) -> u16
    requires { length column.now ≡ SLOTS }
    ensures { result ≡ highest column.now (map slot granules.now) }
{
    let mut top = 0;
    for granule in granules {
        top = top.max(column[slot(granule)]);
    }
    top
}

/// Raises the numbers at the slots of these granules to at least this one.
pub(crate) fn raise(column: &mut Vec<u16>, granules: &[Granule], to: u16)
    requires { vec_len column.old ≡ SLOTS }
    ensures len { vec_len column.new ≡ SLOTS }
    ensures raised { IsRaised (map slot granules.now) to column.old.items column.new.items }
{
    for granule in granules {
        let place = slot(granule);
        column[place] = column[place].max(to);
    }
}
