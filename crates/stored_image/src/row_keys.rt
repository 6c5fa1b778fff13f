//! The keys of the rows that have a record of their own, in order: each leaf's rows are sorted, but not all together.
ghost use Rattle.std.specs.Prelude.{◌≡◌, ◌<◌, ◌^◌, filter_map, IfOk, OnOk};
ghost use Rattle.std.specs.BTreeSet.{btree_set_len};
ghost use Rattle.std.specs.FinMap as finmap;
ghost use Rattle.row_store.specs.Slots.{filled, slots};
ghost use Rattle.stored_image.specs.StoredImage.{HasAlsoAlone, rows_said, said_at, stands_alone};
ghost use Rattle.stored_image.specs.declared.stored_record.RowPart.{RowPart};

use row_store::{LeafPage, PointedStore};
use std::alloc::Global;
use std::collections::BTreeSet;
use tpcc_rows::codes::LEAVES;
use tpcc_rows::key::RowKey;
use tpcc_rows::memory::Memory;

/// Whether a key's row has a record of its own.
fn stands_alone(key: &RowKey) -> bool
    ensures { result ≡ stands_alone key.now }
{
    matches!(
        key,
        RowKey::Order { .. }
            | RowKey::NewOrder { .. }
            | RowKey::OrderLine { .. }
            | RowKey::History { .. }
            | RowKey::DistrictYtd { .. }
            | RowKey::DistrictNext { .. }
    )
}

/// Adds the keys of a leaf's rows.
fn add_keys(keys: &mut BTreeSet<RowKey>, page: LeafPage<'_>) -> Result<(), Memory>
    ensures { OnOk result (HasAlsoAlone keys.old (filled (slots page.entry)) keys.new) }
{
    for slot in 0..page.len() {
        let Some((key, _)) = page.at(slot) else {
            continue;
        };
        if stands_alone(&key) {
            keys.insert(key)?;
        }
    }
    Ok(())
}

/// Those keys, of all leaves.
pub(crate) fn keys_in_order(alloc: Global, rows: &PointedStore) -> Result<BTreeSet<RowKey>, Memory>
    ensures said { IfOk result (λ keys. (part : RowPart) → filter_map (said_at part rows.now.rows) keys.keys
        ≡ rows_said part (finmap.entries rows.now.rows)) }
    ensures small { IfOk result (λ keys. btree_set_len keys < 2 ^ 63) }
{
    let mut keys = BTreeSet::new(alloc);
    for leaf in 0..LEAVES {
        add_keys(&mut keys, rows.page(leaf))?;
    }
    let _count = keys.len();
    Ok(keys)
}
