//! A table for each kind of row.
ghost use Rattle.std.specs.Prelude.{ℕ, ◌≡◌, ◌/◌, ◌%◌, ◌*◌, ◌<◌, IfOk, None, OnErr, OnOk, cond, is_some, option_copied, option_map, slice_get, unwrap_or};
ghost use Rattle.std.specs.FinMap as map;
ghost use Rattle.row_tables.specs.Kinds.{table_of, table_of_row};
ghost use Rattle.row_tables.specs.LastOrders.{AreLastOf, order_rows};
ghost use Rattle.row_tables.specs.Parts.{ranks_in};
ghost use Rattle.row_tables.specs.NewRows.{as_rows, new_rows};
ghost use Rattle.tables.specs.Shelves.{place_of};
ghost use Rattle.tables.specs.declared.keys.TheConstants.{PLACES};
ghost use Rattle.tpcc_rows.specs.References.{row_of};
ghost use Rattle.tpcc_rows.specs.declared.row.Row.TheVariants.{Customer, DistrictNext, DistrictYtd, History, NewOrder, Order, OrderLine, Stock, Warehouse};

use std::alloc::Global;
use std::marker::Model;
use tables::keys::PLACES;
use tables::last_orders::LastOrders;
use tables::order_shelf::OrderShelf;
use tables::queue::RankQueue;
use tables::queues::RankQueues;
use tables::shelf::Shelf;
use tables::starts::{HistoryStarts, LineStarts};
use tables::table::Table;
use tpcc_rows::memory::Memory;
use tpcc_rows::number::{Carrier, Moment};
use tpcc_rows::row::{
    CustomerRow, DistrictNextRow, DistrictYtdRow, HistoryRow, OrderLineRow, OrderRow, Row,
    StockRow, WarehouseRow,
};
use tpcc_rows::row_ref::RowRef;

/// A finite map from ranks to rows, each in its kind's table.
#[derive(Drop)]
pub struct KindTables {
    warehouses: Shelf<WarehouseRow>,
    customers: Shelf<CustomerRow>,
    stocks: Shelf<StockRow>,
    orders: OrderShelf,
    new_orders: RankQueues,
    lines: Shelf<OrderLineRow>,
    history: Table<HistoryRow>,
    ytds: Shelf<DistrictYtdRow>,
    nexts: Shelf<DistrictNextRow>,
    /// Hints at the places of order lines.
    starts: LineStarts,
    /// Hints at the places of payments.
    payments: HistoryStarts,
}

impl Model for KindTables {
    ghost use Rattle.row_tables.specs.RankRows.{RankRows, rank_rows_code};
    ghost use Rattle.row_tables.specs.Kinds.{AreByKind, kinds};
    ghost use Rattle.tables.specs.Shelves.{union};

    ghost Value = { RankRows };

    ghost coded = { rank_rows_code };

    ghost view = { λ s. union (kinds s.warehouses s.customers s.stocks s.orders s.new_orders s.lines s.history s.ytds s.nexts) };

    ghost invariant = { λ s. AreByKind (kinds s.warehouses s.customers s.stocks s.orders s.new_orders s.lines s.history s.ytds s.nexts) };
}

/// The least rank of a part's warehouse and district, without its kind.
fn first_rank(part: usize) -> u64
    ensures { place_of result ≡ part % PLACES }
{
    (part % PLACES) as u64 * 268_435_456
}

/// The entry at a place, if there is one.
fn nth<R>(entries: &[(u64, R)], n: usize) -> Option<(u64, &R)>
    ensures { option_map (λ e. (e.0, e.1.now)) result ≡ slice_get entries.now n }
{
    let (rank, row) = entries.get(n)?;
    Some((*rank, row))
}

impl KindTables {
    /// No rows.
    pub fn new(alloc: Global) -> Result<KindTables, Memory>
        ensures { IfOk result (λ tables. tables ≡ map.empty) }
    {
        let warehouses = Shelf::new(alloc)?;
        let customers = Shelf::new(alloc)?;
        let stocks = Shelf::new(alloc)?;
        let orders = OrderShelf::new(alloc)?;
        let new_orders = RankQueues::new(alloc)?;
        let lines = Shelf::new(alloc)?;
        let history = Table::new(alloc);
        let ytds = Shelf::new(alloc)?;
        let nexts = Shelf::new(alloc)?;
        let starts = LineStarts::new(alloc)?;
        let payments = HistoryStarts::new(alloc);
        Ok(KindTables {
            warehouses,
            customers,
            stocks,
            orders,
            new_orders,
            lines,
            history,
            ytds,
            nexts,
            starts,
            payments,
        })
    }

    pub fn warehouse(&self, rank: u64) -> Option<&WarehouseRow>
        requires { table_of rank ≡ 0 }
        ensures { option_map Warehouse (option_copied result) ≡ map.get self.now rank }
    {
        self.warehouses.get(rank)
    }

    pub fn customer(&self, rank: u64) -> Option<&CustomerRow>
        requires { table_of rank ≡ 1 }
        ensures { option_map Customer (option_copied result) ≡ map.get self.now rank }
    {
        self.customers.get(rank)
    }

    pub fn stock(&self, rank: u64) -> Option<&StockRow>
        requires { table_of rank ≡ 2 }
        ensures { option_map Stock (option_copied result) ≡ map.get self.now rank }
    {
        self.stocks.get(rank)
    }

    pub fn order(&self, rank: u64) -> Option<&OrderRow>
        requires { table_of rank ≡ 3 }
        ensures { option_map Order (option_copied result) ≡ map.get self.now rank }
    {
        self.orders.get(rank)
    }

    pub fn new_order(&self, rank: u64) -> Option<()>
        requires { table_of rank ≡ 4 }
        ensures { option_map (λ _. NewOrder) result ≡ map.get self.now rank }
    {
        self.new_orders.get(rank)
    }

    pub fn order_line(&self, rank: u64) -> Option<&OrderLineRow>
        requires { table_of rank ≡ 5 }
        ensures { option_map OrderLine (option_copied result) ≡ map.get self.now rank }
    {
        self.lines.get_near(rank, self.starts.guess(rank))
    }

    /// The lines of the rank's district.
    pub fn lines_at(&self, rank: u64) -> &Table<OrderLineRow>
        ensures { (r : ℕ) → place_of r ≡ place_of rank → table_of r ≡ 5 → option_map OrderLine (map.get result.now r) ≡ map.get self.now r }
    {
        self.lines.table_at(rank)
    }

    /// A hint at the place of the rank's line among those of its district.
    pub fn expected_line(&self, rank: u64) -> usize {
        self.starts.guess(rank)
    }

    pub fn history(&self, rank: u64) -> Option<&HistoryRow>
        requires { table_of rank ≡ 6 }
        ensures { option_map History (option_copied result) ≡ map.get self.now rank }
    {
        self.history.get_near(rank, self.payments.guess(rank))
    }

    pub fn district_ytd(&self, rank: u64) -> Option<&DistrictYtdRow>
        requires { table_of rank ≡ 7 }
        ensures { option_map DistrictYtd (option_copied result) ≡ map.get self.now rank }
    {
        self.ytds.get(rank)
    }

    pub fn district_next(&self, rank: u64) -> Option<&DistrictNextRow>
        requires { table_of rank ≡ 8 }
        ensures { option_map DistrictNext (option_copied result) ≡ map.get self.now rank }
    {
        self.nexts.get(rank)
    }

    pub fn get(&self, rank: u64) -> Option<RowRef<'_>>
        ensures { option_map row_of result ≡ map.get self.now rank }
    {
        match rank / 0x0100_0000_0000_0000 {
            1 => Some(RowRef::Warehouse(self.warehouse(rank)?)),
            3 => Some(RowRef::Customer(self.customer(rank)?)),
            4 => Some(RowRef::Stock(self.stock(rank)?)),
            5 => Some(RowRef::Order(self.order(rank)?)),
            6 => {
                self.new_order(rank)?;
                Some(RowRef::NewOrder)
            }
            7 => Some(RowRef::OrderLine(self.order_line(rank)?)),
            8 => Some(RowRef::History(self.history(rank)?)),
            9 => Some(RowRef::DistrictYtd(self.district_ytd(rank)?)),
            _ => Some(RowRef::DistrictNext(self.district_next(rank)?)),
        }
    }

    /// The row where the rank's is expected, which may be another's: a hint, on which nothing relies. It isn't read yet.
    pub fn expected(&self, rank: u64) -> Option<RowRef<'_>> {
        match rank / 0x0100_0000_0000_0000 {
            3 => Some(RowRef::Customer(self.customers.expected(rank)?)),
            4 => Some(RowRef::Stock(self.stocks.expected(rank)?)),
            5 => Some(RowRef::Order(self.orders.expected(rank)?)),
            7 => {
                let place = self.starts.guess(rank);
                Some(RowRef::OrderLine(self.lines.row_at(rank, place)?))
            }
            8 => {
                let place = self.payments.guess(rank);
                Some(RowRef::History(self.history.row_at(place)?))
            }
            _ => None,
        }
    }

    /// The n-th row of a part of this kind, by rank, with its rank.
    fn nth_warehouse(&self, part: usize, n: usize) -> Option<(u64, &WarehouseRow)>
        requires { part / PLACES ≡ 0 }
        ensures { option_map (λ e. (e.0, Warehouse e.1.now)) result ≡ slice_get (map.entries (ranks_in self.now part)) n }
    {
        nth(self.warehouses.slice_at(first_rank(part)), n)
    }

    /// The n-th row of a part of this kind, by rank, with its rank.
    fn nth_customer(&self, part: usize, n: usize) -> Option<(u64, &CustomerRow)>
        requires { part / PLACES ≡ 1 }
        ensures { option_map (λ e. (e.0, Customer e.1.now)) result ≡ slice_get (map.entries (ranks_in self.now part)) n }
    {
        nth(self.customers.slice_at(first_rank(part)), n)
    }

    /// The n-th row of a part of this kind, by rank, with its rank.
    fn nth_stock(&self, part: usize, n: usize) -> Option<(u64, &StockRow)>
        requires { part / PLACES ≡ 2 }
        ensures { option_map (λ e. (e.0, Stock e.1.now)) result ≡ slice_get (map.entries (ranks_in self.now part)) n }
    {
        nth(self.stocks.slice_at(first_rank(part)), n)
    }

    /// The n-th row of a part of this kind, by rank, with its rank.
    fn nth_order(&self, part: usize, n: usize) -> Option<(u64, &OrderRow)>
        requires { part / PLACES ≡ 3 }
        ensures { option_map (λ e. (e.0, Order e.1.now)) result ≡ slice_get (map.entries (ranks_in self.now part)) n }
    {
        nth(self.orders.slice_at(first_rank(part)), n)
    }

    /// The rank of the n-th row of a part of this kind, by rank.
    fn nth_new_order(&self, part: usize, n: usize) -> Option<u64>
        requires { part / PLACES ≡ 4 }
        ensures { option_map (λ rank. (rank, NewOrder)) result ≡ slice_get (map.entries (ranks_in self.now part)) n }
    {
        self.new_orders.queue_at(first_rank(part)).nth(n)
    }

    /// The n-th row of a part of this kind, by rank, with its rank.
    fn nth_order_line(&self, part: usize, n: usize) -> Option<(u64, &OrderLineRow)>
        requires { part / PLACES ≡ 5 }
        ensures { option_map (λ e. (e.0, OrderLine e.1.now)) result ≡ slice_get (map.entries (ranks_in self.now part)) n }
    {
        nth(self.lines.slice_at(first_rank(part)), n)
    }

    /// The n-th row of a part of this kind, by rank, with its rank.
    fn nth_history(&self, part: usize, n: usize) -> Option<(u64, &HistoryRow)>
        requires { part / PLACES ≡ 6 }
        ensures { option_map (λ e. (e.0, History e.1.now)) result ≡ slice_get (map.entries (ranks_in self.now part)) n }
    {
        if part % PLACES != 0 {
            return None;
        }
        nth(self.history.as_slice(), n)
    }

    /// The n-th row of a part of this kind, by rank, with its rank.
    fn nth_district_ytd(&self, part: usize, n: usize) -> Option<(u64, &DistrictYtdRow)>
        requires { part / PLACES ≡ 7 }
        ensures { option_map (λ e. (e.0, DistrictYtd e.1.now)) result ≡ slice_get (map.entries (ranks_in self.now part)) n }
    {
        nth(self.ytds.slice_at(first_rank(part)), n)
    }

    /// The n-th row of a part of this kind, by rank, with its rank.
    fn nth_district_next(&self, part: usize, n: usize) -> Option<(u64, &DistrictNextRow)>
        requires { part / PLACES ≡ 8 }
        ensures { option_map (λ e. (e.0, DistrictNext e.1.now)) result ≡ slice_get (map.entries (ranks_in self.now part)) n }
    {
        nth(self.nexts.slice_at(first_rank(part)), n)
    }

    /// The n-th row of a part, by rank, with its rank. The rows of a kind are a part for each warehouse and district, the payments one.
    pub fn nth(&self, part: usize, n: usize) -> Option<(u64, RowRef<'_>)>
        ensures { option_map (λ e. (e.0, row_of e.1)) result ≡ slice_get (map.entries (ranks_in self.now part)) n }
    {
        match part / PLACES {
            0 => {
                let (rank, row) = self.nth_warehouse(part, n)?;
                Some((rank, RowRef::Warehouse(row)))
            }
            1 => {
                let (rank, row) = self.nth_customer(part, n)?;
                Some((rank, RowRef::Customer(row)))
            }
            2 => {
                let (rank, row) = self.nth_stock(part, n)?;
                Some((rank, RowRef::Stock(row)))
            }
            3 => {
                let (rank, row) = self.nth_order(part, n)?;
                Some((rank, RowRef::Order(row)))
            }
            4 => {
                let rank = self.nth_new_order(part, n)?;
                Some((rank, RowRef::NewOrder))
            }
            5 => {
                let (rank, row) = self.nth_order_line(part, n)?;
                Some((rank, RowRef::OrderLine(row)))
            }
            6 => {
                let (rank, row) = self.nth_history(part, n)?;
                Some((rank, RowRef::History(row)))
            }
            7 => {
                let (rank, row) = self.nth_district_ytd(part, n)?;
                Some((rank, RowRef::DistrictYtd(row)))
            }
            8 => {
                let (rank, row) = self.nth_district_next(part, n)?;
                Some((rank, RowRef::DistrictNext(row)))
            }
            _ => None,
        }
    }

    /// The ranks of the new orders of the rank's district.
    pub fn new_orders_at(&self, rank: u64) -> &RankQueue
        ensures { as_rows (map.entries result.now) ≡ map.entries (new_rows self.now (place_of rank)) }
    {
        self.new_orders.queue_at(rank)
    }

    /// The last order of each customer of the rank's district.
    pub fn last_orders_at(&self, rank: u64) -> &LastOrders
        ensures { AreLastOf (map.entries (order_rows self.now (place_of rank))) result.now }
    {
        self.orders.last_at(rank)
    }

    /// Inserts or replaces the rank's row, and returns the old one.
    pub fn put_warehouse(
        &mut self,
        rank: u64,
        row: WarehouseRow,
    ) -> Result<Option<WarehouseRow>, Memory>
        requires { table_of rank ≡ 0 }
        ensures value { IfOk result (λ was. option_map Warehouse was ≡ map.get self.old rank) }
        ensures ok { OnOk result (self.new ≡ map.insert self.old rank (Warehouse row)) }
        ensures err { OnErr result (self.new ≡ self.old) }
        ensures new { OnErr result (map.get self.old rank ≡ None) }
    {
        self.warehouses.put(rank, row)
    }

    /// Inserts or replaces the rank's row, and returns the old one.
    pub fn put_customer(
        &mut self,
        rank: u64,
        row: CustomerRow,
    ) -> Result<Option<CustomerRow>, Memory>
        requires { table_of rank ≡ 1 }
        ensures value { IfOk result (λ was. option_map Customer was ≡ map.get self.old rank) }
        ensures ok { OnOk result (self.new ≡ map.insert self.old rank (Customer row)) }
        ensures err { OnErr result (self.new ≡ self.old) }
        ensures new { OnErr result (map.get self.old rank ≡ None) }
    {
        self.customers.put(rank, row)
    }

    /// Inserts or replaces the rank's row, and returns the old one.
    pub fn put_stock(&mut self, rank: u64, row: StockRow) -> Result<Option<StockRow>, Memory>
        requires { table_of rank ≡ 2 }
        ensures value { IfOk result (λ was. option_map Stock was ≡ map.get self.old rank) }
        ensures ok { OnOk result (self.new ≡ map.insert self.old rank (Stock row)) }
        ensures err { OnErr result (self.new ≡ self.old) }
        ensures new { OnErr result (map.get self.old rank ≡ None) }
    {
        self.stocks.put(rank, row)
    }

    /// Inserts or replaces the rank's row, and returns the old one.
    pub fn put_order(&mut self, rank: u64, row: OrderRow) -> Result<Option<OrderRow>, Memory>
        requires { table_of rank ≡ 3 }
        ensures value { IfOk result (λ was. option_map Order was ≡ map.get self.old rank) }
        ensures ok { OnOk result (self.new ≡ map.insert self.old rank (Order row)) }
        ensures err { OnErr result (self.new ≡ self.old) }
        ensures new { OnErr result (map.get self.old rank ≡ None) }
    {
        let _carrier: Option<Carrier> = row.carrier;
        self.orders.put(rank, row)
    }

    /// Inserts or replaces the rank's row, and returns the old one.
    pub fn put_new_order(&mut self, rank: u64) -> Result<Option<()>, Memory>
        requires { table_of rank ≡ 4 }
        ensures value { IfOk result (λ was. option_map (λ _. NewOrder) was ≡ map.get self.old rank) }
        ensures ok { OnOk result (self.new ≡ map.insert self.old rank (NewOrder)) }
        ensures err { OnErr result (self.new ≡ self.old) }
        ensures new { OnErr result (map.get self.old rank ≡ None) }
    {
        self.new_orders.put(rank)
    }

    /// Inserts or replaces the rank's row, and returns the old one.
    pub fn put_order_line(
        &mut self,
        rank: u64,
        row: OrderLineRow,
    ) -> Result<Option<OrderLineRow>, Memory>
        requires { table_of rank ≡ 5 }
        ensures value { IfOk result (λ was. option_map OrderLine was ≡ map.get self.old rank) }
        ensures ok { OnOk result (self.new ≡ map.insert self.old rank (OrderLine row)) }
        ensures err { OnErr result (self.new ≡ self.old) }
        ensures new { OnErr result (map.get self.old rank ≡ None) }
    {
        let _delivery: Option<Moment> = row.delivery;
        self.starts.note(rank, self.lines.len_at(rank));
        let expected = self.starts.guess(rank);
        self.lines.put_near(rank, row, expected)
    }

    /// Inserts or replaces the rank's row, and returns the old one.
    pub fn put_history(&mut self, rank: u64, row: HistoryRow) -> Result<Option<HistoryRow>, Memory>
        requires { table_of rank ≡ 6 }
        ensures value { IfOk result (λ was. option_map History was ≡ map.get self.old rank) }
        ensures ok { OnOk result (self.new ≡ map.insert self.old rank (History row)) }
        ensures err { OnErr result (self.new ≡ self.old) }
        ensures new { OnErr result (map.get self.old rank ≡ None) }
    {
        self.payments.note(rank, self.history.len());
        let expected = self.payments.guess(rank);
        self.history.put_near(rank, row, expected)
    }

    /// Inserts or replaces the rank's row, and returns the old one.
    pub fn put_district_ytd(
        &mut self,
        rank: u64,
        row: DistrictYtdRow,
    ) -> Result<Option<DistrictYtdRow>, Memory>
        requires { table_of rank ≡ 7 }
        ensures value { IfOk result (λ was. option_map DistrictYtd was ≡ map.get self.old rank) }
        ensures ok { OnOk result (self.new ≡ map.insert self.old rank (DistrictYtd row)) }
        ensures err { OnErr result (self.new ≡ self.old) }
        ensures new { OnErr result (map.get self.old rank ≡ None) }
    {
        self.ytds.put(rank, row)
    }

    /// Inserts or replaces the rank's row, and returns the old one.
    pub fn put_district_next(
        &mut self,
        rank: u64,
        row: DistrictNextRow,
    ) -> Result<Option<DistrictNextRow>, Memory>
        requires { table_of rank ≡ 8 }
        ensures value { IfOk result (λ was. option_map DistrictNext was ≡ map.get self.old rank) }
        ensures ok { OnOk result (self.new ≡ map.insert self.old rank (DistrictNext row)) }
        ensures err { OnErr result (self.new ≡ self.old) }
        ensures new { OnErr result (map.get self.old rank ≡ None) }
    {
        self.nexts.put(rank, row)
    }

    /// Exchanges the rank's row for this one, and returns true; or returns false if it has none.
    pub fn swap_warehouse(&mut self, rank: u64, row: &mut WarehouseRow) -> bool
        requires { table_of rank ≡ 0 }
        ensures found { result ≡ is_some (map.get self.old rank) }
        ensures row { Warehouse row.new ≡ unwrap_or (map.get self.old rank) (Warehouse row.old) }
        ensures after { self.new ≡ cond result (map.insert self.old rank (Warehouse row.old)) self.old }
    {
        self.warehouses.swap(rank, row)
    }

    /// Exchanges the rank's row for this one, and returns true; or returns false if it has none.
    pub fn swap_customer(&mut self, rank: u64, row: &mut CustomerRow) -> bool
        requires { table_of rank ≡ 1 }
        ensures found { result ≡ is_some (map.get self.old rank) }
        ensures row { Customer row.new ≡ unwrap_or (map.get self.old rank) (Customer row.old) }
        ensures after { self.new ≡ cond result (map.insert self.old rank (Customer row.old)) self.old }
    {
        self.customers.swap(rank, row)
    }

    /// Exchanges the rank's row for this one, and returns true; or returns false if it has none.
    pub fn swap_stock(&mut self, rank: u64, row: &mut StockRow) -> bool
        requires { table_of rank ≡ 2 }
        ensures found { result ≡ is_some (map.get self.old rank) }
        ensures row { Stock row.new ≡ unwrap_or (map.get self.old rank) (Stock row.old) }
        ensures after { self.new ≡ cond result (map.insert self.old rank (Stock row.old)) self.old }
    {
        self.stocks.swap(rank, row)
    }

    /// Exchanges the rank's row for this one, and returns true; or returns false if it has none.
    pub fn swap_order(&mut self, rank: u64, row: &mut OrderRow) -> bool
        requires { table_of rank ≡ 3 }
        ensures found { result ≡ is_some (map.get self.old rank) }
        ensures row { Order row.new ≡ unwrap_or (map.get self.old rank) (Order row.old) }
        ensures after { self.new ≡ cond result (map.insert self.old rank (Order row.old)) self.old }
    {
        self.orders.swap(rank, row)
    }

    /// Whether the rank has a row, which is as any other new order's.
    pub fn swap_new_order(&mut self, rank: u64) -> bool
        requires { table_of rank ≡ 4 }
        ensures found { result ≡ is_some (map.get self.old rank) }
        ensures row { NewOrder ≡ unwrap_or (map.get self.old rank) NewOrder }
        ensures after { self.new ≡ cond result (map.insert self.old rank NewOrder) self.old }
    {
        self.new_orders.get(rank).is_some()
    }

    /// Exchanges the rank's row for this one, and returns true; or returns false if it has none.
    pub fn swap_order_line(&mut self, rank: u64, row: &mut OrderLineRow) -> bool
        requires { table_of rank ≡ 5 }
        ensures found { result ≡ is_some (map.get self.old rank) }
        ensures row { OrderLine row.new ≡ unwrap_or (map.get self.old rank) (OrderLine row.old) }
        ensures after { self.new ≡ cond result (map.insert self.old rank (OrderLine row.old)) self.old }
    {
        let expected = self.starts.guess(rank);
        self.lines.swap_near(rank, row, expected)
    }

    /// Exchanges the rank's row for this one, and returns true; or returns false if it has none.
    pub fn swap_history(&mut self, rank: u64, row: &mut HistoryRow) -> bool
        requires { table_of rank ≡ 6 }
        ensures found { result ≡ is_some (map.get self.old rank) }
        ensures row { History row.new ≡ unwrap_or (map.get self.old rank) (History row.old) }
        ensures after { self.new ≡ cond result (map.insert self.old rank (History row.old)) self.old }
    {
        let expected = self.payments.guess(rank);
        self.history.swap_near(rank, row, expected)
    }

    /// Exchanges the rank's row for this one, and returns true; or returns false if it has none.
    pub fn swap_district_ytd(&mut self, rank: u64, row: &mut DistrictYtdRow) -> bool
        requires { table_of rank ≡ 7 }
        ensures found { result ≡ is_some (map.get self.old rank) }
        ensures row { DistrictYtd row.new ≡ unwrap_or (map.get self.old rank) (DistrictYtd row.old) }
        ensures after { self.new ≡ cond result (map.insert self.old rank (DistrictYtd row.old)) self.old }
    {
        self.ytds.swap(rank, row)
    }

    /// Exchanges the rank's row for this one, and returns true; or returns false if it has none.
    pub fn swap_district_next(&mut self, rank: u64, row: &mut DistrictNextRow) -> bool
        requires { table_of rank ≡ 8 }
        ensures found { result ≡ is_some (map.get self.old rank) }
        ensures row { DistrictNext row.new ≡ unwrap_or (map.get self.old rank) (DistrictNext row.old) }
        ensures after { self.new ≡ cond result (map.insert self.old rank (DistrictNext row.old)) self.old }
    {
        self.nexts.swap(rank, row)
    }

    /// Exchanges the rank's row for this one, and returns true; or returns false if it has none.
    pub fn swap(&mut self, rank: u64, row: &mut Row) -> bool
        requires { table_of_row row.old ≡ table_of rank }
        ensures found { result ≡ is_some (map.get self.old rank) }
        ensures row { row.new ≡ unwrap_or (map.get self.old rank) row.old }
        ensures after { self.new ≡ cond result (map.insert self.old rank row.old) self.old }
    {
        match row {
            Row::Warehouse(row) => self.swap_warehouse(rank, row),
            Row::Customer(row) => self.swap_customer(rank, row),
            Row::Stock(row) => self.swap_stock(rank, row),
            Row::Order(row) => self.swap_order(rank, row),
            Row::NewOrder => self.swap_new_order(rank),
            Row::OrderLine(row) => self.swap_order_line(rank, row),
            Row::History(row) => self.swap_history(rank, row),
            Row::DistrictYtd(row) => self.swap_district_ytd(rank, row),
            Row::DistrictNext(row) => self.swap_district_next(rank, row),
        }
    }

    /// Removes the rank's row, and returns it.
    pub fn remove_warehouse(&mut self, rank: u64) -> Option<WarehouseRow>
        requires { table_of rank ≡ 0 }
        ensures value { option_map Warehouse result ≡ map.get self.old rank }
        ensures after { self.new ≡ map.remove self.old rank }
    {
        self.warehouses.remove(rank)
    }

    /// Removes the rank's row, and returns it.
    pub fn remove_customer(&mut self, rank: u64) -> Option<CustomerRow>
        requires { table_of rank ≡ 1 }
        ensures value { option_map Customer result ≡ map.get self.old rank }
        ensures after { self.new ≡ map.remove self.old rank }
    {
        self.customers.remove(rank)
    }

    /// Removes the rank's row, and returns it.
    pub fn remove_stock(&mut self, rank: u64) -> Option<StockRow>
        requires { table_of rank ≡ 2 }
        ensures value { option_map Stock result ≡ map.get self.old rank }
        ensures after { self.new ≡ map.remove self.old rank }
    {
        self.stocks.remove(rank)
    }

    /// Removes the rank's row, and returns it.
    pub fn remove_order(&mut self, rank: u64) -> Option<OrderRow>
        requires { table_of rank ≡ 3 }
        ensures value { option_map Order result ≡ map.get self.old rank }
        ensures after { self.new ≡ map.remove self.old rank }
    {
        self.orders.remove(rank)
    }

    /// Removes the rank's row, and returns it.
    pub fn remove_new_order(&mut self, rank: u64) -> Option<()>
        requires { table_of rank ≡ 4 }
        ensures value { option_map (λ _. NewOrder) result ≡ map.get self.old rank }
        ensures after { self.new ≡ map.remove self.old rank }
    {
        self.new_orders.remove(rank)
    }

    /// Removes the rank's row, and returns it.
    pub fn remove_order_line(&mut self, rank: u64) -> Option<OrderLineRow>
        requires { table_of rank ≡ 5 }
        ensures value { option_map OrderLine result ≡ map.get self.old rank }
        ensures after { self.new ≡ map.remove self.old rank }
    {
        self.lines.remove(rank)
    }

    /// Removes the rank's row, and returns it.
    pub fn remove_history(&mut self, rank: u64) -> Option<HistoryRow>
        requires { table_of rank ≡ 6 }
        ensures value { option_map History result ≡ map.get self.old rank }
        ensures after { self.new ≡ map.remove self.old rank }
    {
        self.history.remove(rank)
    }

    /// Removes the rank's row, and returns it.
    pub fn remove_district_ytd(&mut self, rank: u64) -> Option<DistrictYtdRow>
        requires { table_of rank ≡ 7 }
        ensures value { option_map DistrictYtd result ≡ map.get self.old rank }
        ensures after { self.new ≡ map.remove self.old rank }
    {
        self.ytds.remove(rank)
    }

    /// Removes the rank's row, and returns it.
    pub fn remove_district_next(&mut self, rank: u64) -> Option<DistrictNextRow>
        requires { table_of rank ≡ 8 }
        ensures value { option_map DistrictNext result ≡ map.get self.old rank }
        ensures after { self.new ≡ map.remove self.old rank }
    {
        self.nexts.remove(rank)
    }

    /// Inserts or replaces the rank's row, and returns the old one.
    pub fn put(&mut self, rank: u64, row: Row) -> Result<Option<Row>, Memory>
        requires { table_of_row row ≡ table_of rank }
        ensures value { IfOk result (λ was. was ≡ map.get self.old rank) }
        ensures ok { OnOk result (self.new ≡ map.insert self.old rank row) }
        ensures err { OnErr result (self.new ≡ self.old) }
        ensures new { OnErr result (map.get self.old rank ≡ None) }
    {
        match row {
            Row::Warehouse(row) => Ok(self.put_warehouse(rank, row)?.map(Row::Warehouse)),
            Row::Customer(row) => Ok(self.put_customer(rank, row)?.map(Row::Customer)),
            Row::Stock(row) => Ok(self.put_stock(rank, row)?.map(Row::Stock)),
            Row::Order(row) => Ok(self.put_order(rank, row)?.map(Row::Order)),
            Row::NewOrder => match self.put_new_order(rank)? {
                Some(()) => Ok(Some(Row::NewOrder)),
                None => Ok(None),
            },
            Row::OrderLine(row) => Ok(self.put_order_line(rank, row)?.map(Row::OrderLine)),
            Row::History(row) => Ok(self.put_history(rank, row)?.map(Row::History)),
            Row::DistrictYtd(row) => Ok(self.put_district_ytd(rank, row)?.map(Row::DistrictYtd)),
            Row::DistrictNext(row) => Ok(self.put_district_next(rank, row)?.map(Row::DistrictNext)),
        }
    }

    /// Removes the rank's row, and returns it.
    pub fn remove(&mut self, rank: u64) -> Option<Row>
        ensures value { result ≡ map.get self.old rank }
        ensures after { self.new ≡ map.remove self.old rank }
    {
        match rank / 0x0100_0000_0000_0000 {
            1 => self.remove_warehouse(rank).map(Row::Warehouse),
            3 => self.remove_customer(rank).map(Row::Customer),
            4 => self.remove_stock(rank).map(Row::Stock),
            5 => self.remove_order(rank).map(Row::Order),
            6 => match self.remove_new_order(rank) {
                Some(()) => Some(Row::NewOrder),
                None => None,
            },
            7 => self.remove_order_line(rank).map(Row::OrderLine),
            8 => self.remove_history(rank).map(Row::History),
            9 => self.remove_district_ytd(rank).map(Row::DistrictYtd),
            _ => self.remove_district_next(rank).map(Row::DistrictNext),
        }
    }
}
