//! References to rows.
ghost use Rattle.std.specs.Prelude.{◌≡◌, IfOk, option_copied};
ghost use Rattle.tpcc_rows.specs.References.{row_of};
ghost use Rattle.tpcc_rows.specs.RowKinds.{as_customer, as_district_next, as_district_ytd, as_order, as_order_line, as_stock, as_warehouse};

use crate::memory::Memory;
use crate::row::{
    CustomerRow, DistrictNextRow, DistrictYtdRow, HistoryRow, OrderLineRow, OrderRow, Row,
    StockRow, WarehouseRow,
};

/// A reference to a row in its kind's table.
#[derive(Clone, Copy)]
pub enum RowRef<'a> {
    Warehouse(&'a WarehouseRow),
    Customer(&'a CustomerRow),
    Stock(&'a StockRow),
    Order(&'a OrderRow),
    NewOrder,
    OrderLine(&'a OrderLineRow),
    History(&'a HistoryRow),
    DistrictYtd(&'a DistrictYtdRow),
    DistrictNext(&'a DistrictNextRow),
}

impl RowRef<'_> {
    /// A row behind a reference as one of these.
    pub fn of(row: &Row) -> RowRef<'_>
        ensures { row_of result ≡ row.now }
    {
        match row {
            Row::Warehouse(row) => RowRef::Warehouse(row),
            Row::Customer(row) => RowRef::Customer(row),
            Row::Stock(row) => RowRef::Stock(row),
            Row::Order(row) => RowRef::Order(row),
            Row::NewOrder => RowRef::NewOrder,
            Row::OrderLine(row) => RowRef::OrderLine(row),
            Row::History(row) => RowRef::History(row),
            Row::DistrictYtd(row) => RowRef::DistrictYtd(row),
            Row::DistrictNext(row) => RowRef::DistrictNext(row),
        }
    }

    /// An equal row, without allocating. Refused once 2^63 copies share a customer's text.
    pub fn copied(self) -> Result<Row, Memory>
        ensures { IfOk result (λ copy. copy ≡ row_of self.entry) }
    {
        Ok(match self {
            RowRef::Warehouse(row) => Row::Warehouse(*row),
            RowRef::Customer(row) => Row::Customer(row.copied()?),
            RowRef::Stock(row) => Row::Stock(*row),
            RowRef::Order(row) => Row::Order(*row),
            RowRef::NewOrder => Row::NewOrder,
            RowRef::OrderLine(row) => Row::OrderLine(row.copied()),
            RowRef::History(row) => Row::History(row.copied()),
            RowRef::DistrictYtd(row) => Row::DistrictYtd(*row),
            RowRef::DistrictNext(row) => Row::DistrictNext(*row),
        })
    }
}

impl<'a> RowRef<'a> {
    pub fn as_warehouse(self) -> Option<&'a WarehouseRow>
        ensures { option_copied result ≡ as_warehouse (row_of self.entry) }
    {
        match self {
            RowRef::Warehouse(row) => Some(row),
            _ => None,
        }
    }

    pub fn as_district_ytd(self) -> Option<&'a DistrictYtdRow>
        ensures { option_copied result ≡ as_district_ytd (row_of self.entry) }
    {
        match self {
            RowRef::DistrictYtd(row) => Some(row),
            _ => None,
        }
    }

    pub fn as_district_next(self) -> Option<&'a DistrictNextRow>
        ensures { option_copied result ≡ as_district_next (row_of self.entry) }
    {
        match self {
            RowRef::DistrictNext(row) => Some(row),
            _ => None,
        }
    }

    pub fn as_customer(self) -> Option<&'a CustomerRow>
        ensures { option_copied result ≡ as_customer (row_of self.entry) }
    {
        match self {
            RowRef::Customer(row) => Some(row),
            _ => None,
        }
    }

    pub fn as_stock(self) -> Option<&'a StockRow>
        ensures { option_copied result ≡ as_stock (row_of self.entry) }
    {
        match self {
            RowRef::Stock(row) => Some(row),
            _ => None,
        }
    }

    pub fn as_order(self) -> Option<&'a OrderRow>
        ensures { option_copied result ≡ as_order (row_of self.entry) }
    {
        match self {
            RowRef::Order(row) => Some(row),
            _ => None,
        }
    }

    pub fn as_order_line(self) -> Option<&'a OrderLineRow>
        ensures { option_copied result ≡ as_order_line (row_of self.entry) }
    {
        match self {
            RowRef::OrderLine(row) => Some(row),
            _ => None,
        }
    }
}
