//! What a transaction reads rows through.
ghost use Rattle.std.specs.Prelude.{◌≡◌, is_ok, option_copied, option_map, IfOk, IsTrue};
ghost use Rattle.std.specs.FinMap as map;
ghost use Rattle.row_tables.specs.OrderLines.{AreOrderLines};
ghost use Rattle.tpcc_rows.specs.Picks.{latest, oldest};
ghost use Rattle.tpcc_rows.specs.References.{row_of};
ghost use Rattle.tpcc_rows.specs.Rows.{stock_row};
ghost use Rattle.worker_rows.specs.Views.{View, may_read, may_write, readable};

use row_tables::order_lines::OrderLines;
use thiserror::Error;
use tpcc_rows::granule::Granule;
use tpcc_rows::id::{CustomerId, DistrictId, ItemId, OrderId, WarehouseId};
use tpcc_rows::key::RowKey;
use tpcc_rows::row::StockRow;
use tpcc_rows::row_ref::RowRef;

/// What was asked for may not be read.
#[derive(Clone, Copy, Debug, PartialEq, Eq, Error)]
#[error("what was asked for may not be read")]
pub struct Strayed;

/// Rows, of which some may be read and some written. Stocks and an order's lines, which are read most, have reads that make no key.
pub trait RowView {
    // What the view stands for.
    ghost sees: { Self → View };

    /// The row of the key, if there is one.
    fn read(&self, key: &RowKey) -> Result<Option<RowRef<'_>>, Strayed>
        ensures strays { is_ok result ≡ readable (sees self.now) key.now }
        ensures row { IfOk result (λ row. option_map row_of row ≡ map.get (sees self.now).rows key.now) };

    fn stock_row(&self, warehouse: WarehouseId, item: ItemId) -> Result<Option<&StockRow>, Strayed>
        ensures strays { is_ok result ≡ may_read (sees self.now) (Granule.Stock warehouse item) }
        ensures row { IfOk result (λ row. option_copied row ≡ stock_row (sees self.now).rows warehouse item) };

    /// The lines of an order.
    fn order_lines(
        &self,
        warehouse: WarehouseId,
        district: DistrictId,
        order: OrderId,
    ) -> Result<OrderLines<'_>, Strayed>
        ensures strays { is_ok result ≡ may_read (sees self.now) (Granule.Book warehouse district) }
        ensures lines { IfOk result (λ lines. AreOrderLines (sees self.now).rows warehouse district order lines) };

    /// The least number of the district's new orders.
    fn oldest_new(
        &self,
        warehouse: WarehouseId,
        district: DistrictId,
    ) -> Result<Option<OrderId>, Strayed>
        ensures strays { is_ok result ≡ may_read (sees self.now) (Granule.Book warehouse district) }
        ensures order { IfOk result (λ order. order ≡ oldest (sees self.now).rows warehouse district) };

    /// The greatest number of the customer's orders.
    fn last_order(
        &self,
        warehouse: WarehouseId,
        district: DistrictId,
        customer: CustomerId,
    ) -> Result<Option<OrderId>, Strayed>
        ensures strays { is_ok result ≡ may_read (sees self.now) (Granule.Book warehouse district) }
        ensures order { IfOk result (λ order. order ≡ latest (sees self.now).rows warehouse district customer) };

    /// A number of no meaning. Computing it reads where the row of a stock is expected, so that reading it needn't wait for memory.
    fn prefetch_stock(&self, warehouse: WarehouseId, item: ItemId) -> usize;

    /// Whether the granule may be written.
    fn may_write(&self, granule: &Granule) -> bool
        ensures value { result ≡ may_write (sees self.now) granule.now }

        // What may be written may be read too.
        ensures read { IsTrue result → IsTrue (may_read (sees self.now) granule.now) };
}
