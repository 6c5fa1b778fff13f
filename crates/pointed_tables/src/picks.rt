//! Searches among rows.
ghost use Rattle.std.specs.Prelude.{◌≡◌};
ghost use Rattle.std.specs.List.{filter_map};
ghost use Rattle.tpcc_rows.specs.Picks.{greatest, larger_of, least, lesser_of, new_pick, order_pick};

use tpcc_rows::id::{CustomerId, DistrictId, OrderId, WarehouseId};
use tpcc_rows::key::RowKey;
use tpcc_rows::row::Row;
use tpcc_rows::searching::{larger, lesser, new_pick, order_pick};

/// The least number of the district's new orders and this one, if any.
pub(crate) fn least_new(
    rows: &[(RowKey, Row)],
    first: Option<OrderId>,
    warehouse: WarehouseId,
    district: DistrictId,
) -> Option<OrderId>
    ensures { result ≡ lesser_of first (least (filter_map (λ e. new_pick warehouse district e.0 e.1) rows.now)) }
{
    let mut found = first;
    for n in 0..rows.len() {
        let (key, row) = &rows[n];
        if let Some(order) = new_pick(warehouse, district, key, row) {
            found = Some(lesser(order, found));
        }
    }
    found
}

/// The greatest number of the customer's orders and this one, if any.
pub(crate) fn greatest_order(
    rows: &[(RowKey, Row)],
    first: Option<OrderId>,
    warehouse: WarehouseId,
    district: DistrictId,
    customer: CustomerId,
) -> Option<OrderId>
    ensures { result ≡ larger_of first (greatest (filter_map (λ e. order_pick warehouse district customer e.0 e.1) rows.now)) }
{
    let mut found = first;
    for n in 0..rows.len() {
        let (key, row) = &rows[n];
        if let Some(order) = order_pick(warehouse, district, customer, key, row) {
            found = Some(larger(order, found));
        }
    }
    found
}
