//! All rows.
ghost use Rattle.std.specs.Prelude.{None};

use crate::view::{RowView, Strayed};
use row_store::PointedStore;
use row_tables::order_lines::OrderLines;
use tpcc_rows::granule::Granule;
use tpcc_rows::id::{CustomerId, DistrictId, ItemId, OrderId, WarehouseId};
use tpcc_rows::key::RowKey;
use tpcc_rows::row::StockRow;
use tpcc_rows::row_ref::RowRef;

/// All rows of a store, which may all be read and written.
#[derive(Clone, Copy)]
pub struct Whole<'a> {
    pub store: &'a PointedStore,
}

impl RowView for Whole<'_> {
    ghost sees = { λ w. record { rows = w.store.now.rows; bounds = None } };

    fn read(&self, key: &RowKey) -> Result<Option<RowRef<'_>>, Strayed> {
        Ok(self.store.get(key))
    }

    fn stock_row(
        &self,
        warehouse: WarehouseId,
        item: ItemId,
    ) -> Result<Option<&StockRow>, Strayed> {
        Ok(self.store.rows().stock(warehouse, item))
    }

    fn order_lines(
        &self,
        warehouse: WarehouseId,
        district: DistrictId,
        order: OrderId,
    ) -> Result<OrderLines<'_>, Strayed> {
        Ok(self.store.rows().order_lines(warehouse, district, order))
    }

    fn oldest_new(
        &self,
        warehouse: WarehouseId,
        district: DistrictId,
    ) -> Result<Option<OrderId>, Strayed> {
        Ok(self.store.rows().oldest_new(warehouse, district))
    }

    fn last_order(
        &self,
        warehouse: WarehouseId,
        district: DistrictId,
        customer: CustomerId,
    ) -> Result<Option<OrderId>, Strayed> {
        Ok(self.store.rows().last_order(warehouse, district, customer))
    }

    fn prefetch_stock(&self, warehouse: WarehouseId, item: ItemId) -> usize {
        self.store.prefetch_stock(warehouse, item)
    }

    fn may_write(&self, _: &Granule) -> bool {
        true
    }
}
