//! The rows of a database by key.
ghost use Rattle.std.specs.Prelude.{◌≡◌, ◌+◌, ◌-◌, ◌<◌, ◌^◌, cond, IfOk, IfSome, None, OnErr, OnOk, is_some, length, option_copied, option_map, slice_get, true, unwrap_or};
ghost use Rattle.std.specs.FinMap as map;
ghost use Rattle.std.specs.List.{filter};
ghost use Rattle.serializability.specs.Changes.{changed};
ghost use Rattle.row_tables.specs.LastOrders.{AreLatest};
ghost use Rattle.row_tables.specs.NewRows.{AreNewOrders};
ghost use Rattle.row_tables.specs.OrderLines.{AreOrderLines};
ghost use Rattle.row_tables.specs.Parts.{AreInParts, is_of_table, lent, part_rows, rows_between};
ghost use Rattle.row_tables.specs.Walks.{left};
ghost use Rattle.tpcc_rows.specs.Changing.{new_row_fits};
ghost use Rattle.tpcc_rows.specs.Picks.{latest, new_pick, oldest, picked};
ghost use Rattle.tpcc_rows.specs.References.{row_of};
ghost use Rattle.tpcc_rows.specs.RowKinds.{fits};
ghost use Rattle.tpcc_rows.specs.Rows.{customer_row, district_next_row, district_ytd_row, order_row, stock_row, warehouse_row};

use crate::kinds::KindTables;
use crate::order_lines::{MOST_LINES, OrderLines, line_number_at};
use crate::table_row::TableRow;
use crate::walk::Walk;
use std::alloc::Global;
use std::marker::Model;
use std::mem;
use tables::keys::{PLACES, key_at, order_of};
use tables::last_orders::LastOrders;
use tables::queue::RankQueue;
use tpcc_rows::id::{CustomerId, DistrictId, ItemId, OrderId, WarehouseId};
use tpcc_rows::key::RowKey;
use tpcc_rows::memory::Memory;
use tpcc_rows::ranks::{
    customer_rank, district_next_rank, district_ytd_rank, line_rank, order_rank, rank, stock_rank,
    warehouse_rank,
};
use tpcc_rows::row::{
    CustomerRow, DistrictNextRow, DistrictYtdRow, OrderRow, Row, StockRow, WarehouseRow,
};
use tpcc_rows::row_ref::RowRef;

/// The number of parts: the rows of a kind and, but for payments, of a warehouse and district are one.
const PARTS: usize = 9 * PLACES;

/// A finite map from keys to rows, each of its key's kind and in that kind's table.
#[derive(Drop)]
pub struct RowTables {
    tables: KindTables,
    len: u64,
}

impl Model for RowTables {
    ghost use Rattle.tpcc_rows.specs.RowMap.{Rows, rows_code};
    ghost use Rattle.row_tables.specs.Stored.{IsCounted, keyed};

    ghost Value = { Rows };

    ghost coded = { rows_code };

    ghost view = { λ s. keyed s.tables };

    ghost invariant = { λ s. IsCounted s.tables s.len };
}

/// The number of rows after an insertion, or a replacement if there was a row.
fn more(len: u64, was: bool) -> u64
    requires { len < 2 ^ 63 }
    ensures { result ≡ cond was len (len + 1) }
{
    if was { len } else { len + 1 }
}

/// The number of rows after a removal that returned this.
fn fewer(len: u64, was: &Option<Row>) -> u64
    ensures { result ≡ cond (is_some was.now) (len - 1) len }
{
    if was.is_some() {
        len.saturating_sub(1)
    } else {
        len
    }
}

impl RowTables {
    /// No rows.
    pub fn new(alloc: Global) -> Result<RowTables, Memory>
        ensures { IfOk result (λ rows. rows ≡ map.empty) }
    {
        let tables = KindTables::new(alloc)?;
        Ok(RowTables { tables, len: 0 })
    }

    /// The number of rows.
    pub fn len(&self) -> u64
        ensures { result ≡ length (map.entries self.now) }
    {
        self.len
    }

    pub fn get(&self, key: &RowKey) -> Option<RowRef<'_>>
        ensures value { option_map row_of result ≡ map.get self.now key.now }
        ensures kind { IfSome (option_map row_of result) (λ row. fits key.now row ≡ true) }
    {
        self.tables.get(rank(key))
    }

    /// The n-th row of a part in key order, with its key.
    pub(crate) fn nth(&self, part: usize, n: usize) -> Option<(RowKey, RowRef<'_>)>
        ensures value { option_map lent result ≡ slice_get (part_rows self.now part) n }
        ensures parts { AreInParts self.now }
        ensures few { is_some result ≡ true → n + 1 < 2 ^ 64 }
    {
        let Some((rank, row)) = self.tables.nth(part, n) else {
            return None;
        };
        let Some(key) = key_at(rank) else {
            return None;
        };
        Some((key, row))
    }

    /// A walk through the parts from one up to another.
    fn walk_between(&self, part: usize, end: usize) -> Walk<'_>
        ensures left { left result ≡ rows_between self.now part end }
        ensures parts { AreInParts self.now }
    {
        let _ = &self.tables;
        Walk {
            rows: self,
            part,
            next: 0,
            end,
        }
    }

    /// All rows, in key order.
    pub fn walk(&self) -> Walk<'_>
        ensures left { left result ≡ map.entries self.now }
        ensures few { length (map.entries self.now) < 2 ^ 63 }
    {
        self.walk_between(0, PARTS)
    }

    /// The rows of the warehouses, in key order.
    pub fn warehouses(&self) -> Walk<'_>
        ensures { left result ≡ filter (is_of_table 0) (map.entries self.now) }
    {
        self.walk_between(0, PLACES)
    }

    /// The rows of D_YTD, in key order.
    pub fn district_ytds(&self) -> Walk<'_>
        ensures left { left result ≡ filter (is_of_table 7) (map.entries self.now) }
        ensures few { length (map.entries self.now) < 2 ^ 63 }
    {
        self.walk_between(7 * PLACES, 8 * PLACES)
    }

    /// The rows of D_NEXT_O_ID, in key order.
    pub fn district_nexts(&self) -> Walk<'_>
        ensures { left result ≡ filter (is_of_table 8) (map.entries self.now) }
    {
        self.walk_between(8 * PLACES, PARTS)
    }

    /// The row where the rank's is expected, which may be another's: a hint, on which nothing relies. It isn't read yet.
    pub fn expected(&self, rank: u64) -> Option<RowRef<'_>> {
        self.tables.expected(rank)
    }

    pub fn warehouse(&self, warehouse: WarehouseId) -> Option<&WarehouseRow>
        ensures { option_copied result ≡ warehouse_row self.now warehouse }
    {
        self.tables.warehouse(warehouse_rank(warehouse))
    }

    pub fn district_ytd(
        &self,
        warehouse: WarehouseId,
        district: DistrictId,
    ) -> Option<&DistrictYtdRow>
        ensures { option_copied result ≡ district_ytd_row self.now warehouse district }
    {
        self.tables
            .district_ytd(district_ytd_rank(warehouse, district))
    }

    pub fn district_next(
        &self,
        warehouse: WarehouseId,
        district: DistrictId,
    ) -> Option<&DistrictNextRow>
        ensures { option_copied result ≡ district_next_row self.now warehouse district }
    {
        self.tables
            .district_next(district_next_rank(warehouse, district))
    }

    pub fn customer(
        &self,
        warehouse: WarehouseId,
        district: DistrictId,
        customer: CustomerId,
    ) -> Option<&CustomerRow>
        ensures { option_copied result ≡ customer_row self.now warehouse district customer }
    {
        self.tables
            .customer(customer_rank(warehouse, district, customer))
    }

    pub fn stock(&self, warehouse: WarehouseId, item: ItemId) -> Option<&StockRow>
        ensures { option_copied result ≡ stock_row self.now warehouse item }
    {
        self.tables.stock(stock_rank(warehouse, item))
    }

    pub fn order(
        &self,
        warehouse: WarehouseId,
        district: DistrictId,
        order: OrderId,
    ) -> Option<&OrderRow>
        ensures { option_copied result ≡ order_row self.now warehouse district order }
    {
        self.tables.order(order_rank(warehouse, district, order))
    }

    /// The lines of an order.
    pub fn order_lines(
        &self,
        warehouse: WarehouseId,
        district: DistrictId,
        order: OrderId,
    ) -> OrderLines<'_>
        ensures { AreOrderLines self.now warehouse district order result }
    {
        let first = line_rank(warehouse, district, order, line_number_at(0));
        let table = self.tables.lines_at(first);
        let mut start = table.start(first, self.tables.expected_line(first));
        let mut lines = OrderLines::new();
        for place in 0..MOST_LINES {
            let (row, next) = table.next(first + place as u64, start);
            lines.push(row);
            start = next;
        }
        lines
    }

    /// The district's new orders, as they are kept.
    pub fn new_orders(&self, warehouse: WarehouseId, district: DistrictId) -> &RankQueue
        ensures { AreNewOrders self.now warehouse district result.now }
    {
        let rank = district_ytd_rank(warehouse, district);
        self.tables.new_orders_at(rank)
    }

    /// The number of the district's n-th new order, counted from 0 in ascending order.
    pub fn nth_new_order(
        &self,
        warehouse: WarehouseId,
        district: DistrictId,
        n: usize,
    ) -> Option<OrderId>
        ensures { result ≡ slice_get (picked (new_pick warehouse district) self.now) n }
    {
        let orders = self.new_orders(warehouse, district);
        order_of(orders.nth(n)?)
    }

    /// The least number of the district's new orders.
    pub fn oldest_new(&self, warehouse: WarehouseId, district: DistrictId) -> Option<OrderId>
        ensures { result ≡ oldest self.now warehouse district }
    {
        self.nth_new_order(warehouse, district, 0)
    }

    /// The last order of each of the district's customers, which is kept with the rows.
    pub fn last_orders(&self, warehouse: WarehouseId, district: DistrictId) -> &LastOrders
        ensures { AreLatest self.now warehouse district result.now }
    {
        self.tables
            .last_orders_at(district_ytd_rank(warehouse, district))
    }

    /// The greatest number of the customer's orders.
    pub fn last_order(
        &self,
        warehouse: WarehouseId,
        district: DistrictId,
        customer: CustomerId,
    ) -> Option<OrderId>
        ensures { result ≡ latest self.now warehouse district customer }
    {
        self.last_orders(warehouse, district).of(customer)
    }

    /// Inserts or replaces the key's row, and returns the old one. Only an insertion can be refused memory.
    pub fn put(&mut self, key: RowKey, row: Row) -> Result<Option<Row>, Memory>
        requires { fits key row ≡ true }
        ensures value { IfOk result (λ was. was ≡ map.get self.old key) }
        ensures kind { IfOk result (λ was. new_row_fits key was ≡ true) }
        ensures ok { OnOk result (self.new ≡ map.insert self.old key row) }
        ensures err { OnErr result (self.new ≡ self.old) }
        ensures new { OnErr result (map.get self.old key ≡ None) }
    {
        let was = self.tables.put(rank(&key), row)?;
        self.len = more(self.len, was.is_some());
        Ok(was)
    }

    /// Inserts or replaces the key's row, of whose kind it is, and returns the old one.
    pub fn put_row<R: TableRow>(&mut self, key: &RowKey, row: R) -> Result<Option<R>, Memory>
        requires { fits key.now (R.row_of row) ≡ true }
        ensures value { IfOk result (λ was. option_map R.row_of was ≡ map.get self.old key.now) }
        ensures kind { IfOk result (λ was. new_row_fits key.now (option_map R.row_of was) ≡ true) }
        ensures ok { OnOk result (self.new ≡ map.insert self.old key.now (R.row_of row)) }
        ensures err { OnErr result (self.new ≡ self.old) }
    {
        let was = row.put(&mut self.tables, rank(key))?;
        self.len = more(self.len, was.is_some());
        Ok(was)
    }

    /// Exchanges the key's row, of whose kind this one is, for it, and returns true; or returns false if it has none.
    pub fn swap_row<R: TableRow>(&mut self, key: &RowKey, row: &mut R) -> bool
        requires { fits key.now (R.row_of row.old) ≡ true }
        ensures found { result ≡ is_some (map.get self.old key.now) }
        ensures row { R.row_of row.new ≡ unwrap_or (map.get self.old key.now) (R.row_of row.old) }
        ensures kind { fits key.now (R.row_of row.new) ≡ true }
        ensures after { self.new ≡ cond result (map.insert self.old key.now (R.row_of row.old)) self.old }
    {
        row.swap(&mut self.tables, rank(key))
    }

    /// Gives the key this row, or none, in exchange for what it had. Only an insertion can be refused memory.
    pub fn exchange(&mut self, key: &RowKey, row: &mut Option<Row>) -> Result<(), Memory>
        requires { new_row_fits key.now row.old ≡ true }
        ensures value { OnOk result (row.new ≡ map.get self.old key.now) }
        ensures kind { OnOk result (new_row_fits key.now row.new ≡ true) }
        ensures ok { OnOk result (self.new ≡ changed self.old key.now row.old) }
        ensures err { OnErr result (self.new ≡ self.old) }
        ensures new { OnErr result (map.get self.old key.now ≡ None) }
    {
        if let Some(new) = row {
            if self.swap_row(key, new) {
                return Ok(());
            }
        }
        *row = match mem::replace(row, None) {
            Some(new) => self.put(*key, new)?,
            None => self.remove(key),
        };
        Ok(())
    }

    /// Replaces the key's row, which exists, and returns the old one, without allocating.
    pub fn replace(&mut self, key: RowKey, row: Row) -> Option<Row>
        requires fit { fits key row ≡ true }
        requires there { is_some (map.get self.old key) ≡ true }
        ensures value { result ≡ map.get self.old key }
        ensures after { self.new ≡ map.insert self.old key row }
    {
        match self.put(key, row) {
            Ok(was) => was,
            Err(Memory) => None,
        }
    }

    /// Removes the key's row, and returns it.
    pub fn remove(&mut self, key: &RowKey) -> Option<Row>
        ensures value { result ≡ map.get self.old key.now }
        ensures kind { new_row_fits key.now result ≡ true }
        ensures after { self.new ≡ map.remove self.old key.now }
    {
        let was = self.tables.remove(rank(key));
        self.len = fewer(self.len, &was);
        was
    }
}
