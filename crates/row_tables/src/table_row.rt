//! Rows of one kind, which their table takes as they are, and rows of any kind.
ghost use Rattle.std.specs.Prelude.{◌≡◌, cond, IfOk, None, OnErr, OnOk, is_some, option_map, unwrap_or};
ghost use Rattle.std.specs.FinMap as map;
ghost use Rattle.row_tables.specs.Kinds.{table_of, table_of_row};
ghost use Rattle.tpcc_rows.specs.declared.row.Row.{Row};
ghost use Rattle.tpcc_rows.specs.declared.row.Row.TheVariants.{Customer, DistrictNext, DistrictYtd, History, NewOrder, Order, OrderLine, Stock, Warehouse};

use crate::kinds::KindTables;
use tpcc_rows::memory::Memory;
use tpcc_rows::row::{
    CustomerRow, DistrictNextRow, DistrictYtdRow, HistoryRow, OrderLineRow, OrderRow, Row,
    StockRow, WarehouseRow,
};

/// A row of one kind, or of any.
pub trait TableRow: Drop {
    // The row as one of any kind.
    ghost row_of: { Self → Row };

    /// The row as one of any kind.
    fn into_row(self) -> Row
        ensures { result ≡ row_of self };

    /// Inserts or replaces the rank's row, and returns the old one.
    fn put(self, tables: &mut KindTables, rank: u64) -> Result<Option<Self>, Memory>
        requires { table_of rank ≡ table_of_row (row_of self) }
        ensures value { IfOk result (λ was. option_map row_of was ≡ map.get tables.old rank) }
        ensures ok { OnOk result (tables.new ≡ map.insert tables.old rank (row_of self)) }
        ensures err { OnErr result (tables.new ≡ tables.old) }
        ensures new { OnErr result (map.get tables.old rank ≡ None) };

    /// Exchanges the rank's row for this one, and returns true; or returns false if it has none.
    fn swap(&mut self, tables: &mut KindTables, rank: u64) -> bool
        requires { table_of rank ≡ table_of_row (row_of self.old) }
        ensures found { result ≡ is_some (map.get tables.old rank) }
        ensures row { row_of self.new ≡ unwrap_or (map.get tables.old rank) (row_of self.old) }
        ensures after { tables.new ≡ cond result (map.insert tables.old rank (row_of self.old)) tables.old };
}

impl TableRow for Row {
    ghost row_of = { λ r. r };

    fn into_row(self) -> Row {
        self
    }

    fn put(self, tables: &mut KindTables, rank: u64) -> Result<Option<Row>, Memory> {
        tables.put(rank, self)
    }

    fn swap(&mut self, tables: &mut KindTables, rank: u64) -> bool {
        tables.swap(rank, self)
    }
}

/// The row of a new order, which has no columns.
#[derive(Clone, Copy)]
pub struct NewOrderRow;

impl TableRow for WarehouseRow {
    ghost row_of = { λ r. Warehouse r };

    fn into_row(self) -> Row {
        Row::Warehouse(self)
    }

    fn put(self, tables: &mut KindTables, rank: u64) -> Result<Option<WarehouseRow>, Memory> {
        tables.put_warehouse(rank, self)
    }

    fn swap(&mut self, tables: &mut KindTables, rank: u64) -> bool {
        tables.swap_warehouse(rank, self)
    }
}

impl TableRow for CustomerRow {
    ghost row_of = { λ r. Customer r };

    fn into_row(self) -> Row {
        Row::Customer(self)
    }

    fn put(self, tables: &mut KindTables, rank: u64) -> Result<Option<CustomerRow>, Memory> {
        tables.put_customer(rank, self)
    }

    fn swap(&mut self, tables: &mut KindTables, rank: u64) -> bool {
        tables.swap_customer(rank, self)
    }
}

impl TableRow for StockRow {
    ghost row_of = { λ r. Stock r };

    fn into_row(self) -> Row {
        Row::Stock(self)
    }

    fn put(self, tables: &mut KindTables, rank: u64) -> Result<Option<StockRow>, Memory> {
        tables.put_stock(rank, self)
    }

    fn swap(&mut self, tables: &mut KindTables, rank: u64) -> bool {
        tables.swap_stock(rank, self)
    }
}

impl TableRow for OrderRow {
    ghost row_of = { λ r. Order r };

    fn into_row(self) -> Row {
        Row::Order(self)
    }

    fn put(self, tables: &mut KindTables, rank: u64) -> Result<Option<OrderRow>, Memory> {
        tables.put_order(rank, self)
    }

    fn swap(&mut self, tables: &mut KindTables, rank: u64) -> bool {
        tables.swap_order(rank, self)
    }
}

impl TableRow for OrderLineRow {
    ghost row_of = { λ r. OrderLine r };

    fn into_row(self) -> Row {
        Row::OrderLine(self)
    }

    fn put(self, tables: &mut KindTables, rank: u64) -> Result<Option<OrderLineRow>, Memory> {
        tables.put_order_line(rank, self)
    }

    fn swap(&mut self, tables: &mut KindTables, rank: u64) -> bool {
        tables.swap_order_line(rank, self)
    }
}

impl TableRow for HistoryRow {
    ghost row_of = { λ r. History r };

    fn into_row(self) -> Row {
        Row::History(self)
    }

    fn put(self, tables: &mut KindTables, rank: u64) -> Result<Option<HistoryRow>, Memory> {
        tables.put_history(rank, self)
    }

    fn swap(&mut self, tables: &mut KindTables, rank: u64) -> bool {
        tables.swap_history(rank, self)
    }
}

impl TableRow for DistrictYtdRow {
    ghost row_of = { λ r. DistrictYtd r };

    fn into_row(self) -> Row {
        Row::DistrictYtd(self)
    }

    fn put(self, tables: &mut KindTables, rank: u64) -> Result<Option<DistrictYtdRow>, Memory> {
        tables.put_district_ytd(rank, self)
    }

    fn swap(&mut self, tables: &mut KindTables, rank: u64) -> bool {
        tables.swap_district_ytd(rank, self)
    }
}

impl TableRow for DistrictNextRow {
    ghost row_of = { λ r. DistrictNext r };

    fn into_row(self) -> Row {
        Row::DistrictNext(self)
    }

    fn put(self, tables: &mut KindTables, rank: u64) -> Result<Option<DistrictNextRow>, Memory> {
        tables.put_district_next(rank, self)
    }

    fn swap(&mut self, tables: &mut KindTables, rank: u64) -> bool {
        tables.swap_district_next(rank, self)
    }
}

impl TableRow for NewOrderRow {
    ghost row_of = { λ _. NewOrder };

    fn into_row(self) -> Row {
        Row::NewOrder
    }

    fn put(self, tables: &mut KindTables, rank: u64) -> Result<Option<NewOrderRow>, Memory> {
        match tables.put_new_order(rank)? {
            Some(()) => Ok(Some(NewOrderRow)),
            None => Ok(None),
        }
    }

    fn swap(&mut self, tables: &mut KindTables, rank: u64) -> bool {
        tables.swap_new_order(rank)
    }
}
