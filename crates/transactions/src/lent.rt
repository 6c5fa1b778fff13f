//! What a view lends: rows that may be read, and granules that may be written.
ghost use Rattle.std.specs.Prelude.{◌≡◌, is_ok, option_copied, IfOk};
ghost use Rattle.std.specs.FinMap as map;
ghost use Rattle.serializability.specs.Footprints.{writing};
ghost use Rattle.tpcc_rows.specs.Picks.{latest, oldest};
ghost use Rattle.tpcc_rows.specs.Rows.{customer_row, district_next_row, stock_row};
ghost use Rattle.transactions.specs.Lending.{lent};
ghost use Rattle.worker_rows.specs.Views.{covers, may_read};

use row_tables::order_lines::OrderLines;
use tpcc_rows::granule::Granule;
use tpcc_rows::id::{CustomerId, DistrictId, ItemId, OrderId, WarehouseId};
use tpcc_rows::key::RowKey;
use tpcc_rows::row::{CustomerRow, DistrictNextRow, StockRow};
use tpcc_rows::row_ref::RowRef;
use worker_rows::{KeyedRows, RowView, Strayed};

/// The rows that a view lends. One that may not be read looks as if it weren't there.
#[derive(Drop)]
pub(crate) struct Lent<'a, V> {
    pub view: &'a V,
}

impl<V: RowView> KeyedRows for Lent<'_, V> {
    ghost rows = { λ l. lent (V.sees l.view.now) };

    #[tactic(auto, using(crate::proofs::Lending::lent_row, crate::proofs::Lending::no_row_lent))]
    fn row(&self, key: &RowKey) -> Option<RowRef<'_>> {
        match self.view.read(key) {
            Ok(row) => row,
            Err(Strayed) => None,
        }
    }

    #[tactic(auto, using(crate::proofs::Lending::lent_row, crate::proofs::Lending::no_row_lent))]
    fn stock_row(&self, warehouse: WarehouseId, item: ItemId) -> Option<&StockRow> {
        match self.view.stock_row(warehouse, item) {
            Ok(row) => row,
            Err(Strayed) => None,
        }
    }

    #[tactic(auto, using(crate::proofs::Lending::lent_lines, crate::proofs::Lending::no_lines_lent))]
    fn order_lines(
        &self,
        warehouse: WarehouseId,
        district: DistrictId,
        order: OrderId,
    ) -> OrderLines<'_> {
        match self.view.order_lines(warehouse, district, order) {
            Ok(lines) => lines,
            Err(Strayed) => OrderLines::new(),
        }
    }
}

#[tactic(auto, using(crate::proofs::Lending::lent_row))]
pub(crate) fn read_district_next<V: RowView>(
    view: &V,
    warehouse: WarehouseId,
    district: DistrictId,
) -> Result<Option<&DistrictNextRow>, Strayed>
    ensures strays { is_ok result ≡ may_read (V.sees view.now) (Granule.DistrictNext warehouse district) }
    ensures row { IfOk result (λ row. option_copied row ≡ district_next_row (lent (V.sees view.now)) warehouse district) }
{
    let key = RowKey::DistrictNext {
        warehouse,
        district,
    };
    match view.read(&key)? {
        Some(row) => Ok(row.as_district_next()),
        None => Ok(None),
    }
}

#[tactic(auto, using(crate::proofs::Lending::lent_row))]
pub(crate) fn read_customer<V: RowView>(
    view: &V,
    warehouse: WarehouseId,
    district: DistrictId,
    customer: CustomerId,
) -> Result<Option<&CustomerRow>, Strayed>
    ensures strays { is_ok result ≡ may_read (V.sees view.now) (Granule.Customer warehouse district customer) }
    ensures row { IfOk result (λ row. option_copied row ≡ customer_row (lent (V.sees view.now)) warehouse district customer) }
{
    let key = RowKey::Customer {
        warehouse,
        district,
        customer,
    };
    match view.read(&key)? {
        Some(row) => Ok(row.as_customer()),
        None => Ok(None),
    }
}

#[tactic(auto, using(crate::proofs::Lending::lent_row))]
pub(crate) fn read_stock<V: RowView>(
    view: &V,
    warehouse: WarehouseId,
    item: ItemId,
) -> Result<Option<&StockRow>, Strayed>
    ensures strays { is_ok result ≡ may_read (V.sees view.now) (Granule.Stock warehouse item) }
    ensures row { IfOk result (λ row. option_copied row ≡ stock_row (lent (V.sees view.now)) warehouse item) }
{
    view.stock_row(warehouse, item)
}

/// Strays where the district's order book may not be read, as reading any key of it does, whether there is a row or not.
pub(crate) fn book<V: RowView>(
    view: &V,
    warehouse: WarehouseId,
    district: DistrictId,
) -> Result<(), Strayed>
    ensures { is_ok result ≡ may_read (V.sees view.now) (Granule.Book warehouse district) }
{
    view.read(&RowKey::NewOrder {
        warehouse,
        district,
        order: OrderId::new(1).unwrap(),
    })?;
    Ok(())
}

#[tactic(auto, using(crate::proofs::Lending::lent_oldest))]
pub(crate) fn oldest_new<V: RowView>(
    view: &V,
    warehouse: WarehouseId,
    district: DistrictId,
) -> Result<Option<OrderId>, Strayed>
    ensures strays { is_ok result ≡ may_read (V.sees view.now) (Granule.Book warehouse district) }
    ensures order { IfOk result (λ order. order ≡ oldest (lent (V.sees view.now)) warehouse district) }
{
    view.oldest_new(warehouse, district)
}

#[tactic(auto, using(crate::proofs::Lending::lent_latest))]
pub(crate) fn last_order<V: RowView>(
    view: &V,
    warehouse: WarehouseId,
    district: DistrictId,
    customer: CustomerId,
) -> Result<Option<OrderId>, Strayed>
    ensures strays { is_ok result ≡ may_read (V.sees view.now) (Granule.Book warehouse district) }
    ensures order { IfOk result (λ order. order ≡ latest (lent (V.sees view.now)) warehouse district customer) }
{
    view.last_order(warehouse, district, customer)
}

/// Whether the granule may be written, and so read too.
#[tactic(auto, using(crate::proofs::Covering::covers_writing))]
pub(crate) fn may_write<V: RowView>(view: &V, granule: &Granule) -> bool
    ensures { result ≡ covers (V.sees view.now) (writing granule.now) }
{
    view.may_write(granule)
}
