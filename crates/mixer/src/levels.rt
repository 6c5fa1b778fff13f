//! The level of each request, and the number of levels.
ghost use Rattle.std.specs.Prelude.{◌≡◌, ◌<◌, ◌≤◌, IfOk, length};
ghost use Rattle.std.specs.List.{All};
ghost use Rattle.serializability.specs.Levels.{levels, depth};
ghost use Rattle.serializability.specs.Signatures.{meets_by};
ghost use Rattle.signatures_simd.specs.Bits.{bit};
ghost use Rattle.mixer.specs.Slots.{slot};

use crate::rows::Rows;
use crate::table::Table;
use std::alloc::Global;
use tpcc_rows::footprint::Footprint;
use tpcc_rows::memory::Memory;

/// The level of each request of a batch.
pub(crate) fn levels_of(alloc: Global, footprints: &[Footprint]) -> Result<Vec<usize>, Memory>
    requires { length footprints.now ≤ 1024 }
    ensures levels { IfOk result (λ v. v.items ≡ levels (meets_by bit) footprints.now) }
    ensures bound { IfOk result (λ v. All (λ level. level < 1024) v.items) }
{
    let mut levels = Vec::with_capacity(alloc, footprints.len())?;
    let mut rows = Rows::new(alloc);
    for footprint in footprints {
        let level = rows.place(footprint)?;
        levels.push(level)?;
    }
    Ok(levels)
}

/// The level of each request of a batch, by the slots of granules.
pub(crate) fn exact_levels_of(alloc: Global, footprints: &[Footprint]) -> Result<Vec<usize>, Memory>
    requires { length footprints.now ≤ 1024 }
    ensures levels { IfOk result (λ v. v.items ≡ levels (meets_by slot) footprints.now) }
    ensures bound { IfOk result (λ v. All (λ level. level < 1024) v.items) }
{
    let mut levels = Vec::with_capacity(alloc, footprints.len())?;
    let mut table = Table::new(alloc)?;
    for footprint in footprints {
        levels.push(table.place(footprint))?;
    }
    Ok(levels)
}

/// The number of levels.
pub(crate) fn depth_of(levels: &[usize]) -> usize
    requires { All (λ level. level < 1024) levels.now }
    ensures { result ≡ depth levels.now }
{
    let mut depth = 0;
    for level in levels {
        depth = depth.max(*level + 1);
    }
    depth
}
