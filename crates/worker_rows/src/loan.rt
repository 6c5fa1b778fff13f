//! Rows that are lent.
ghost use Rattle.std.specs.Prelude.{◌≡◌, Some};
ghost use Rattle.std.specs.List.{list_any};
ghost use Rattle.tpcc_rows.specs.Granules.{same_granule};

use crate::hints::Hints;
use crate::view::{RowView, Strayed};
use row_store::PointedStore;
use row_tables::order_lines::OrderLines;
use tpcc_rows::footprint::{Footprint, is_among};
use tpcc_rows::granule::{Granule, granule_of};
use tpcc_rows::id::{CustomerId, DistrictId, ItemId, OrderId, WarehouseId};
use tpcc_rows::key::RowKey;
use tpcc_rows::row::StockRow;
use tpcc_rows::row_ref::RowRef;

/// The rows of a store as a footprint lends them: what it doesn't name may not be read or written, and so no row of
/// HISTORY, which no footprint can name.
#[derive(Clone, Copy)]
pub struct Loan<'a> {
    pub store: &'a PointedStore,
    pub footprint: &'a Footprint,
    hints: Hints,
}

impl<'a> Loan<'a> {
    pub fn new(store: &'a PointedStore, footprint: &'a Footprint) -> Loan<'a>
        ensures store { result.store.now ≡ store.now }
        ensures footprint { result.footprint.now ≡ footprint.now }
    {
        Loan {
            store,
            footprint,
            hints: Hints::new(footprint.reads()),
        }
    }
}

impl Loan<'_> {
    fn may_read(&self, granule: &Granule) -> bool
        ensures { result ≡ list_any (same_granule granule.now) self.now.footprint.now.reads }
    {
        let reads = self.footprint.reads();
        self.hints.leads_to(granule, reads) || is_among(granule, reads)
    }

    fn may_read_book(&self, warehouse: WarehouseId, district: DistrictId) -> bool
        ensures { result ≡ list_any (same_granule (Granule.Book warehouse district)) self.now.footprint.now.reads }
    {
        self.may_read(&Granule::Book {
            warehouse,
            district,
        })
    }
}

impl RowView for Loan<'_> {
    ghost sees = { λ l. record { rows = l.store.now.rows; bounds = Some l.footprint.now } };

    fn read(&self, key: &RowKey) -> Result<Option<RowRef<'_>>, Strayed> {
        match granule_of(key) {
            Some(granule) if self.may_read(&granule) => Ok(self.store.get(key)),
            _ => Err(Strayed),
        }
    }

    fn stock_row(
        &self,
        warehouse: WarehouseId,
        item: ItemId,
    ) -> Result<Option<&StockRow>, Strayed> {
        if !self.may_read(&Granule::Stock { warehouse, item }) {
            return Err(Strayed);
        }
        Ok(self.store.rows().stock(warehouse, item))
    }

    fn order_lines(
        &self,
        warehouse: WarehouseId,
        district: DistrictId,
        order: OrderId,
    ) -> Result<OrderLines<'_>, Strayed> {
        if !self.may_read_book(warehouse, district) {
            return Err(Strayed);
        }
        Ok(self.store.rows().order_lines(warehouse, district, order))
    }

    fn oldest_new(
        &self,
        warehouse: WarehouseId,
        district: DistrictId,
    ) -> Result<Option<OrderId>, Strayed> {
        if !self.may_read_book(warehouse, district) {
            return Err(Strayed);
        }
        Ok(self.store.rows().oldest_new(warehouse, district))
    }

    fn last_order(
        &self,
        warehouse: WarehouseId,
        district: DistrictId,
        customer: CustomerId,
    ) -> Result<Option<OrderId>, Strayed> {
        if !self.may_read_book(warehouse, district) {
            return Err(Strayed);
        }
        Ok(self.store.rows().last_order(warehouse, district, customer))
    }

    fn prefetch_stock(&self, warehouse: WarehouseId, item: ItemId) -> usize {
        self.store.prefetch_stock(warehouse, item)
    }

    fn may_write(&self, granule: &Granule) -> bool {
        is_among(granule, self.footprint.writes())
    }
}
