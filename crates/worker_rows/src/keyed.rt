//! Rows by their keys, each as its table has it.
ghost use Rattle.std.specs.Prelude.{◌≡◌, option_copied, option_map};
ghost use Rattle.std.specs.FinMap as map;
ghost use Rattle.row_tables.specs.OrderLines.{AreOrderLines};
ghost use Rattle.tpcc_rows.specs.References.{row_of};
ghost use Rattle.tpcc_rows.specs.RowMap.{Rows};
ghost use Rattle.tpcc_rows.specs.Rows.{customer_row, district_next_row, district_ytd_row, order_row, stock_row, warehouse_row};

use row_store::PointedStore;
use row_tables::order_lines::OrderLines;
use tpcc_rows::id::{CustomerId, DistrictId, ItemId, OrderId, WarehouseId};
use tpcc_rows::key::RowKey;
use tpcc_rows::row::{
    CustomerRow, DistrictNextRow, DistrictYtdRow, OrderRow, StockRow, WarehouseRow,
};
use tpcc_rows::row_ref::RowRef;

/// What has a row, or none, for each key. Stocks and an order's lines, which are read most, have reads that make no key.
pub trait KeyedRows {
    // The rows that it has.
    ghost rows: { Self → Rows };

    /// The row of the key, if there is one.
    fn row(&self, key: &RowKey) -> Option<RowRef<'_>>
        ensures { option_map row_of result ≡ map.get (rows self.now) key.now };

    fn stock_row(&self, warehouse: WarehouseId, item: ItemId) -> Option<&StockRow>
        ensures { option_copied result ≡ stock_row (rows self.now) warehouse item };

    /// The lines of an order.
    fn order_lines(
        &self,
        warehouse: WarehouseId,
        district: DistrictId,
        order: OrderId,
    ) -> OrderLines<'_>
        ensures { AreOrderLines (rows self.now) warehouse district order result };
}

impl KeyedRows for PointedStore {
    ghost rows = { λ store. store.rows };

    fn row(&self, key: &RowKey) -> Option<RowRef<'_>> {
        self.get(key)
    }

    fn stock_row(&self, warehouse: WarehouseId, item: ItemId) -> Option<&StockRow> {
        self.rows().stock(warehouse, item)
    }

    fn order_lines(
        &self,
        warehouse: WarehouseId,
        district: DistrictId,
        order: OrderId,
    ) -> OrderLines<'_> {
        self.rows().order_lines(warehouse, district, order)
    }
}

pub fn warehouse_row<R: KeyedRows>(rows: &R, warehouse: WarehouseId) -> Option<&WarehouseRow>
    ensures { option_copied result ≡ warehouse_row (R.rows rows.now) warehouse }
{
    rows.row(&RowKey::Warehouse { warehouse })?.as_warehouse()
}

pub fn district_ytd_row<R: KeyedRows>(
    rows: &R,
    warehouse: WarehouseId,
    district: DistrictId,
) -> Option<&DistrictYtdRow>
    ensures { option_copied result ≡ district_ytd_row (R.rows rows.now) warehouse district }
{
    let key = RowKey::DistrictYtd {
        warehouse,
        district,
    };
    rows.row(&key)?.as_district_ytd()
}

pub fn district_next_row<R: KeyedRows>(
    rows: &R,
    warehouse: WarehouseId,
    district: DistrictId,
) -> Option<&DistrictNextRow>
    ensures { option_copied result ≡ district_next_row (R.rows rows.now) warehouse district }
{
    let key = RowKey::DistrictNext {
        warehouse,
        district,
    };
    rows.row(&key)?.as_district_next()
}

pub fn customer_row<R: KeyedRows>(
    rows: &R,
    warehouse: WarehouseId,
    district: DistrictId,
    customer: CustomerId,
) -> Option<&CustomerRow>
    ensures { option_copied result ≡ customer_row (R.rows rows.now) warehouse district customer }
{
    let key = RowKey::Customer {
        warehouse,
        district,
        customer,
    };
    rows.row(&key)?.as_customer()
}

pub fn order_row<R: KeyedRows>(
    rows: &R,
    warehouse: WarehouseId,
    district: DistrictId,
    order: OrderId,
) -> Option<&OrderRow>
    ensures { option_copied result ≡ order_row (R.rows rows.now) warehouse district order }
{
    let key = RowKey::Order {
        warehouse,
        district,
        order,
    };
    rows.row(&key)?.as_order()
}
