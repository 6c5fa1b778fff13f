//! Merges deltas.
ghost use Rattle.std.specs.Prelude.{◌≡◌, IfOk};
ghost use Rattle.gather.specs.Merged.{AreApart, IsUnion, after_each, merged};
ghost use Rattle.tpcc_rows.specs.Changing.{after};
ghost use Rattle.tpcc_rows.specs.RowMap.{Rows};

use std::alloc::Global;
use tpcc_rows::delta::Delta;
use tpcc_rows::memory::Memory;

/// Merges deltas into one; the last change to a key wins. Rows are moved, not copied.
pub fn merge(alloc: Global, deltas: Vec<Delta>) -> Result<Delta, Memory>
    ensures last { IfOk result (λ delta. delta ≡ merged deltas.items) }
    ensures in_turn { IfOk result (λ delta. (rows : Rows) → after rows delta ≡ after_each rows deltas.items) }
    ensures union { IfOk result (λ delta. AreApart deltas.items → IsUnion deltas.items delta) }
{
    let mut merged = Delta::new(alloc);
    for delta in deltas {
        merged.append(delta)?;
    }
    Ok(merged)
}
