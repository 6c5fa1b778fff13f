//! Rows in tables, to which removed rows can come back without memory.
ghost use Rattle.std.specs.Prelude.{◌≡◌, ◌<◌, ◌≤◌, ◌+◌, ◌-◌, cond, IfOk, IfSome, OnErr, OnOk, None, Some, is_none, is_some, length, option_copied, option_map, false, true};
ghost use Rattle.std.specs.FinMap as map;
ghost use Rattle.serializability.specs.Changes.{changed};
ghost use Rattle.tpcc_rows.specs.References.{row_of};
ghost use Rattle.tpcc_rows.specs.Changing.{new_row_fits};
ghost use Rattle.tpcc_rows.specs.Picks.{latest, oldest};
ghost use Rattle.tpcc_rows.specs.RowKinds.{fits};
ghost use Rattle.tpcc_rows.specs.Rows.{customer_row, district_next_row, district_ytd_row, order_line_row, order_row, stock_row, warehouse_row};
ghost use Rattle.pointed_tables.specs.Logs.{IsSwapped, wants};
ghost use Rattle.row_tables.specs.OrderLines.{AreOrderLines};

use crate::aside::Aside;
use crate::picks::{greatest_order, least_new};
use row_tables::order_lines::{MOST_LINES, OrderLines, line_number_at};
use row_tables::store::RowTables;
use row_tables::table_row::TableRow;
use std::alloc::Global;
use std::marker::Model;
use std::mem;
use tpcc_rows::id::{CustomerId, DistrictId, ItemId, LineNumber, OrderId, WarehouseId};
use tpcc_rows::key::RowKey;
use tpcc_rows::memory::Memory;
use tpcc_rows::row::{
    CustomerRow, DistrictNextRow, DistrictYtdRow, OrderLineRow, OrderRow, Row, StockRow,
    WarehouseRow,
};
use tpcc_rows::row_ref::RowRef;

/// A finite map from keys to rows, and room held for removed rows. A row whose table is refused memory when it comes back
/// stands aside, in that room.
#[derive(Drop)]
pub struct RoomyTables {
    tables: RowTables,
    aside: Aside,
}

impl Model for RoomyTables {
    ghost use Rattle.pointed_tables.specs.Aside.{IsBeside, Roomy, both, roomy_code};

    ghost Value = { Roomy };

    ghost coded = { roomy_code };

    ghost view = { λ s. record { rows = both s.aside.rows s.tables; room = s.aside.room } };

    ghost invariant = { λ s. IsBeside s.aside.rows s.tables };
}

/// Inserts an equal row.
fn put_copy(tables: &mut RowTables, key: &RowKey, row: &Row) -> Result<(), Memory>
    requires { fits key.now row.now ≡ true }
    ensures ok { OnOk result (tables.new ≡ map.insert tables.old key.now row.now) }
    ensures err { OnErr result (tables.new ≡ tables.old) }
{
    let copy = RowRef::of(row).copied()?;
    tables.put(*key, copy)?;
    Ok(())
}

/// A row of one kind as one of any kind.
fn into_any<R: TableRow>(row: Option<R>) -> Option<Row>
    ensures { result ≡ option_map R.row_of row }
{
    match row {
        Some(row) => Some(row.into_row()),
        None => None,
    }
}

impl RoomyTables {
    /// The rows of the tables, and no room for removed ones.
    pub fn new(alloc: Global, tables: RowTables) -> RoomyTables
        ensures rows { result.rows ≡ tables }
        ensures room { result.room ≡ 0 }
    {
        RoomyTables {
            tables,
            aside: Aside::new(alloc),
        }
    }

    pub fn get(&self, key: &RowKey) -> Option<RowRef<'_>>
        ensures value { option_map row_of result ≡ map.get self.now.rows key.now }
        ensures kind { IfSome (option_map row_of result) (λ row. fits key.now row ≡ true) }
    {
        match self.aside.get(key) {
            Some(row) => Some(RowRef::of(row)),
            None => self.tables.get(key),
        }
    }

    /// The row where the rank's is expected, which may be another's: a hint, on which nothing relies. It isn't read yet.
    pub fn expected(&self, rank: u64) -> Option<RowRef<'_>> {
        self.tables.expected(rank)
    }

    pub fn warehouse(&self, warehouse: WarehouseId) -> Option<&WarehouseRow>
        ensures { option_copied result ≡ warehouse_row self.now.rows warehouse }
    {
        if self.aside.is_empty() {
            return self.tables.warehouse(warehouse);
        }
        self.get(&RowKey::Warehouse { warehouse })?.as_warehouse()
    }

    pub fn district_ytd(
        &self,
        warehouse: WarehouseId,
        district: DistrictId,
    ) -> Option<&DistrictYtdRow>
        ensures { option_copied result ≡ district_ytd_row self.now.rows warehouse district }
    {
        if self.aside.is_empty() {
            return self.tables.district_ytd(warehouse, district);
        }
        self.get(&RowKey::DistrictYtd {
            warehouse,
            district,
        })?
        .as_district_ytd()
    }

    pub fn district_next(
        &self,
        warehouse: WarehouseId,
        district: DistrictId,
    ) -> Option<&DistrictNextRow>
        ensures { option_copied result ≡ district_next_row self.now.rows warehouse district }
    {
        if self.aside.is_empty() {
            return self.tables.district_next(warehouse, district);
        }
        self.get(&RowKey::DistrictNext {
            warehouse,
            district,
        })?
        .as_district_next()
    }

    pub fn customer(
        &self,
        warehouse: WarehouseId,
        district: DistrictId,
        customer: CustomerId,
    ) -> Option<&CustomerRow>
        ensures { option_copied result ≡ customer_row self.now.rows warehouse district customer }
    {
        if self.aside.is_empty() {
            return self.tables.customer(warehouse, district, customer);
        }
        self.get(&RowKey::Customer {
            warehouse,
            district,
            customer,
        })?
        .as_customer()
    }

    pub fn stock(&self, warehouse: WarehouseId, item: ItemId) -> Option<&StockRow>
        ensures { option_copied result ≡ stock_row self.now.rows warehouse item }
    {
        if self.aside.is_empty() {
            return self.tables.stock(warehouse, item);
        }
        self.get(&RowKey::Stock { warehouse, item })?.as_stock()
    }

    pub fn order(
        &self,
        warehouse: WarehouseId,
        district: DistrictId,
        order: OrderId,
    ) -> Option<&OrderRow>
        ensures { option_copied result ≡ order_row self.now.rows warehouse district order }
    {
        if self.aside.is_empty() {
            return self.tables.order(warehouse, district, order);
        }
        self.get(&RowKey::Order {
            warehouse,
            district,
            order,
        })?
        .as_order()
    }

    /// The row of an order line, wherever it stands.
    fn order_line(
        &self,
        warehouse: WarehouseId,
        district: DistrictId,
        order: OrderId,
        number: LineNumber,
    ) -> Option<&OrderLineRow>
        ensures { option_copied result ≡ order_line_row self.now.rows warehouse district order number }
    {
        self.get(&RowKey::OrderLine {
            warehouse,
            district,
            order,
            number,
        })?
        .as_order_line()
    }

    /// The lines of an order, each wherever it stands.
    fn lines_anywhere(
        &self,
        warehouse: WarehouseId,
        district: DistrictId,
        order: OrderId,
    ) -> OrderLines<'_>
        ensures { AreOrderLines self.now.rows warehouse district order result }
    {
        let mut lines = OrderLines::new();
        for place in 0..MOST_LINES {
            let number = line_number_at(place);
            lines.push(self.order_line(warehouse, district, order, number));
        }
        lines
    }

    /// The lines of an order.
    pub fn order_lines(
        &self,
        warehouse: WarehouseId,
        district: DistrictId,
        order: OrderId,
    ) -> OrderLines<'_>
        ensures { AreOrderLines self.now.rows warehouse district order result }
    {
        if self.aside.is_empty() {
            return self.tables.order_lines(warehouse, district, order);
        }
        self.lines_anywhere(warehouse, district, order)
    }

    /// The least number of the district's new orders.
    pub fn oldest_new(&self, warehouse: WarehouseId, district: DistrictId) -> Option<OrderId>
        ensures { result ≡ oldest self.now.rows warehouse district }
    {
        let first = self.tables.oldest_new(warehouse, district);
        least_new(self.aside.as_slice(), first, warehouse, district)
    }

    /// The greatest number of the customer's orders.
    pub fn last_order(
        &self,
        warehouse: WarehouseId,
        district: DistrictId,
        customer: CustomerId,
    ) -> Option<OrderId>
        ensures { result ≡ latest self.now.rows warehouse district customer }
    {
        let first = self.tables.last_order(warehouse, district, customer);
        greatest_order(self.aside.as_slice(), first, warehouse, district, customer)
    }

    /// The number of rows.
    pub fn len(&self) -> u128
        ensures { result ≡ length (map.entries self.now.rows) }
    {
        u128::from(self.tables.len()) + self.aside.len() as u128
    }

    /// Whether the key has a row.
    fn has(&self, key: &RowKey) -> bool
        ensures { result ≡ is_some (map.get self.now.rows key.now) }
    {
        self.get(key).is_some()
    }

    /// Inserts or replaces the key's row, and returns the old one.
    pub fn put(&mut self, key: RowKey, row: Row) -> Result<Option<Row>, Memory>
        requires { fits key row ≡ true }
        ensures value { IfOk result (λ was. was ≡ map.get self.old.rows key) }
        ensures kind { IfOk result (λ was. new_row_fits key was ≡ true) }
        ensures ok { OnOk result (self.new.rows ≡ map.insert self.old.rows key row) }
        ensures room { self.new.room ≡ self.old.room }
        ensures err { OnErr result (self.new ≡ self.old) }
    {
        if self.aside.has(&key) {
            return Ok(self.aside.put(key, row));
        }
        self.tables.put(key, row)
    }

    /// Inserts or replaces the key's row, of whose kind it is, and returns the old one.
    pub fn put_row<R: TableRow>(&mut self, key: &RowKey, row: R) -> Result<Option<Row>, Memory>
        requires { fits key.now (R.row_of row) ≡ true }
        ensures value { IfOk result (λ was. was ≡ map.get self.old.rows key.now) }
        ensures kind { IfOk result (λ was. new_row_fits key.now was ≡ true) }
        ensures ok { OnOk result (self.new.rows ≡ map.insert self.old.rows key.now (R.row_of row)) }
        ensures room { self.new.room ≡ self.old.room }
        ensures err { OnErr result (self.new ≡ self.old) }
    {
        if !self.aside.is_empty() {
            return self.put(*key, row.into_row());
        }
        let was = self.tables.put_row(key, row)?;
        Ok(into_any(was))
    }

    /// Exchanges the key's row, of whose kind this one is, for it, and returns true; or returns false if it has none, or if rows stand
    /// aside.
    pub fn swap_row<R: TableRow>(&mut self, key: &RowKey, row: &mut R) -> bool
        requires { fits key.now (R.row_of row.old) ≡ true }
        ensures value { IsSwapped key.now (R.row_of row.old) (R.row_of row.new) result self.old.rows self.new.rows }
        ensures room { self.new.room ≡ self.old.room }
    {
        if !self.aside.is_empty() {
            return false;
        }
        self.tables.swap_row(key, row)
    }

    /// Removes the key's row, and returns it.
    pub fn take(&mut self, key: &RowKey) -> Option<Row>
        ensures value { result ≡ map.get self.old.rows key.now }
        ensures kind { new_row_fits key.now result ≡ true }
        ensures after { self.new.rows ≡ map.remove self.old.rows key.now }
        ensures room { self.new.room ≡ self.old.room }
    {
        if self.aside.has(key) {
            self.aside.remove(key)
        } else {
            self.tables.remove(key)
        }
    }

    /// Removes the key's row, and returns it. Room is held for it.
    pub fn remove(&mut self, key: &RowKey) -> Result<Option<Row>, Memory>
        ensures value { IfOk result (λ was. was ≡ map.get self.old.rows key.now) }
        ensures kind { IfOk result (λ was. new_row_fits key.now was ≡ true) }
        ensures ok { OnOk result (self.new.rows ≡ map.remove self.old.rows key.now) }
        ensures room { OnOk result (self.new.room ≡ self.old.room + cond (is_some (map.get self.old.rows key.now)) 1 0) }
        ensures err { OnErr result (self.new ≡ self.old) }
    {
        if self.has(key) {
            self.aside.hold()?;
        }
        Ok(self.take(key))
    }

    /// Inserts or replaces the key's row, in exchange for the old one.
    fn exchange_row(&mut self, key: &RowKey, row: &mut Option<Row>) -> Result<(), Memory>
        requires fit { new_row_fits key.now row.old ≡ true }
        requires some { is_some row.old ≡ true }
        ensures value { OnOk result (row.new ≡ map.get self.old.rows key.now) }
        ensures kind { OnOk result (new_row_fits key.now row.new ≡ true) }
        ensures ok { OnOk result (self.new.rows ≡ changed self.old.rows key.now row.old) }
        ensures room { self.new.room ≡ self.old.room }
        ensures err { OnErr result (self.new ≡ self.old) }
    {
        if !self.aside.has(key) {
            return self.tables.exchange(key, row);
        }
        if let Some(new) = mem::replace(row, None) {
            *row = self.put(*key, new)?;
        }
        Ok(())
    }

    /// Gives the key this row, or none, in exchange for what it had. Room is held for a row that is removed.
    pub fn exchange(&mut self, key: &RowKey, row: &mut Option<Row>) -> Result<(), Memory>
        requires { new_row_fits key.now row.old ≡ true }
        ensures value { OnOk result (row.new ≡ map.get self.old.rows key.now) }
        ensures kind { OnOk result (new_row_fits key.now row.new ≡ true) }
        ensures ok { OnOk result (self.new.rows ≡ changed self.old.rows key.now row.old) }
        ensures room { OnOk result (self.new.room ≡ self.old.room + cond (is_none row.old) (cond (is_some row.new) 1 0) 0) }
        ensures err { OnErr result (self.new ≡ self.old) }
    {
        if row.is_some() {
            return self.exchange_row(key, row);
        }
        *row = self.remove(key)?;
        Ok(())
    }

    /// Replaces the key's row, which exists, and returns the old one, without allocating.
    fn replace(&mut self, key: RowKey, row: Row) -> Option<Row>
        requires fit { fits key row ≡ true }
        requires there { is_some (map.get self.old.rows key) ≡ true }
        ensures rows { self.new.rows ≡ map.insert self.old.rows key row }
        ensures room { self.new.room ≡ self.old.room }
    {
        if self.aside.has(&key) {
            self.aside.put(key, row)
        } else {
            self.tables.replace(key, row)
        }
    }

    /// Inserts a row of a new key, for which room is held, without allocating.
    fn insert(&mut self, key: RowKey, row: Row)
        requires fit { fits key row ≡ true }
        requires new { is_some (map.get self.old.rows key) ≡ false }
        requires room { 0 < self.old.room }
        ensures rows { self.new.rows ≡ map.insert self.old.rows key row }
        ensures room { self.new.room + 1 ≡ self.old.room }
    {
        match put_copy(&mut self.tables, &key, &row) {
            Ok(()) => {
                drop(row);
                self.aside.release(1);
            }
            Err(Memory) => drop(self.aside.put(key, row)),
        }
    }

    /// Inserts or replaces the key's row, without allocating.
    fn put_back(&mut self, key: RowKey, row: Row)
        requires fit { fits key row ≡ true }
        requires room { wants key (Some row) self.old.rows ≤ self.old.room }
        ensures rows { self.new.rows ≡ map.insert self.old.rows key row }
        ensures room { self.new.room + wants key (Some row) self.old.rows ≡ self.old.room }
    {
        if self.has(&key) {
            drop(self.replace(key, row));
        } else {
            self.insert(key, row);
        }
    }

    /// Gives the key what it had, without allocating.
    pub fn undo(&mut self, key: RowKey, row: Option<Row>)
        requires fit { new_row_fits key row ≡ true }
        requires room { wants key row self.old.rows ≤ self.old.room }
        ensures rows { self.new.rows ≡ changed self.old.rows key row }
        ensures room { self.new.room + wants key row self.old.rows ≡ self.old.room }
    {
        match row {
            Some(row) => self.put_back(key, row),
            None => drop(self.take(&key)),
        }
    }

    /// Holds room for so many rows fewer.
    pub fn release(&mut self, count: usize)
        ensures room { self.new.room ≡ self.old.room - count }
        ensures rows { self.new.rows ≡ self.old.rows }
    {
        self.aside.release(count);
    }
}
