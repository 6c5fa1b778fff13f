//! Checks of the consistency condition of each warehouse, and all checks in order.
ghost use Rattle.std.specs.Prelude.{◌≡◌, ◌<◌, ◌^◌, ◌+ℤ◌, ℕ, pos, IfErr, IfNone, IfSome, OnOk, Ok};
ghost use Rattle.tpcc_model.specs.Conditions.{district_share};
ghost use Rattle.tpcc_rows.specs.Limits.{IsCents};
ghost use Rattle.tpcc_rows.specs.References.{row_of};
ghost use Rattle.tpcc_rows.specs.RowMap.{Rows};
ghost use Rattle.records.specs.Fields.{IsWithin};
ghost use Rattle.image_checks.specs.Checks.{AreSums, AreWithin, IsShare, checked, sum_at, ytd_agrees, ytds_agree};
ghost use Rattle.image_records.specs.Faults.{IsOfText, StopsBy};
ghost use Rattle.tpcc_model.specs.Database.{database};

use crate::districts::order_conditions;
use crate::parents::parents_there;
use crate::totals::totals_of;
use catalog::Catalog;
use image_records::fault::LoadError;
use row_tables::store::RowTables;
use std::alloc::Global;
use tpcc_rows::id::WarehouseId;
use tpcc_rows::key::RowKey;
use tpcc_rows::number::Cents;
use tpcc_rows::row_ref::RowRef;

/// A sum for each warehouse, indexed by its number.
type Sums = [i128; 101];

fn plus(sum: i128, amount: i64) -> i128
    requires { IsWithin 9223372036854775808000000000000000 sum }
    ensures { result ≡ sum +ℤ amount }
{
    sum + i128::from(amount)
}

/// The warehouse of a D_YTD row, and what the row adds to that warehouse's sum.
fn share(key: &RowKey, row: RowRef<'_>) -> Option<(WarehouseId, Cents)>
    ensures none { IfNone result ((w : ℕ) → district_share w key.now (row_of row.entry) ≡ pos 0) }
    ensures some { IfSome result (IsShare key.now (row_of row.entry)) }
{
    match (key, row) {
        (RowKey::DistrictYtd { warehouse, .. }, RowRef::DistrictYtd(row)) => {
            Some((*warehouse, row.ytd))
        }
        _ => None,
    }
}

/// Adds a district's D_YTD to the sum of its warehouse.
fn add_share(sums: &mut Sums, key: &RowKey, row: RowRef<'_>)
    requires { AreWithin (2 ^ 63) sums.old }
    ensures sums { (w : ℕ) → w < 101 → sum_at sums.new w ≡ sum_at sums.old w +ℤ district_share w key.now (row_of row.entry) }
    ensures near { (w : ℕ) → w < 101 → IsCents (district_share w key.now (row_of row.entry)) }
{
    if let Some((warehouse, ytd)) = share(key, row) {
        let i = usize::from(warehouse.number());
        let sum = plus(sums[i], ytd.amount());
        sums[i] = sum;
    }
}

/// The sum of each warehouse's D_YTD.
fn district_sums(rows: &RowTables) -> Sums
    ensures { AreSums result rows.now }
{
    let mut sums = [0i128; 101];
    let mut walk = rows.district_ytds();
    while let Some((key, row)) = walk.next() {
        add_share(&mut sums, &key, row);
    }
    sums
}

fn ytd_agrees(sums: &Sums, key: &RowKey, row: RowRef<'_>) -> bool
    ensures { (rows : Rows) → AreSums sums.now rows → result ≡ ytd_agrees rows (key.now, row_of row.entry) }
{
    match (key, row) {
        (RowKey::Warehouse { warehouse }, RowRef::Warehouse(row)) => {
            i128::from(row.ytd.amount()) == sums[usize::from(warehouse.number())]
        }
        _ => true,
    }
}

/// Whether each warehouse's W_YTD is the sum of its districts' D_YTD.
fn ytds_agree(rows: &RowTables) -> bool
    ensures { result ≡ ytds_agree rows.now }
{
    let sums = district_sums(rows);
    let mut walk = rows.warehouses();
    while let Some((key, row)) = walk.next() {
        if !ytd_agrees(&sums, &key, row) {
            return false;
        }
    }
    true
}

/// Checks that tables, whose values are within their limits, are sound.
pub fn check(alloc: Global, catalog: &Catalog, rows: &RowTables) -> Result<(), LoadError>
    ensures ok { OnOk result (checked (database catalog.now rows.now) ≡ Ok (database catalog.now rows.now)) }
    ensures err { IfErr result (λ e. StopsBy e (checked (database catalog.now rows.now))) }
    ensures kinds { IfErr result IsOfText }
{
    if !parents_there(catalog, rows) {
        return Err(LoadError::MissingParent);
    }
    if !ytds_agree(rows) {
        return Err(LoadError::Inconsistent(1));
    }
    let totals = totals_of(alloc, rows)?;
    let orders = order_conditions(&totals, rows);
    if !orders.next_order {
        return Err(LoadError::Inconsistent(2));
    }
    if !orders.new_orders {
        return Err(LoadError::Inconsistent(3));
    }
    if !orders.lines {
        return Err(LoadError::Inconsistent(4));
    }
    Ok(())
}
