//! The orders of each district, and the last one of each of its customers.
ghost use Rattle.std.specs.Prelude.{◌≡◌, ◌-◌, Err, IfOk, IsTrue, None, Ok, OnErr, OnOk, cond, is_some, length, option_copied, true, unwrap_or};
ghost use Rattle.std.specs.FinMap as map;
ghost use Rattle.std.specs.Ordering.{nat_cmp};
ghost use Rattle.tables.specs.LastOrders.{AreLinkedAt, orders_of};
ghost use Rattle.tpcc_rows.specs.Places.{IsPlaceOf, are_in_order};

use crate::keys::PLACES;
use crate::last_orders::LastOrders;
use crate::shelf::{Shelf, place_of};
use crate::table::{is_at, is_behind};
use std::alloc::Global;
use std::marker::Model;
use tpcc_rows::memory::Memory;
use tpcc_rows::row::OrderRow;

/// A finite map from ranks to orders, each in the table of its district, that knows each customer's last order.
#[derive(Drop)]
pub struct OrderShelf {
    orders: Shelf<OrderRow>,
    last: Vec<LastOrders>,
}

impl Model for OrderShelf {
    ghost use Rattle.tables.specs.ByRank.{ByRank, by_rank_code};
    ghost use Rattle.tables.specs.LastOrders.{AreLastOrders};
    ghost use Rattle.tpcc_rows.specs.contracts.row.OrderRow.{the_row};
    ghost use Rattle.tpcc_rows.specs.declared.row.OrderRow.{OrderRow};

    ghost Value = { ByRank OrderRow };

    ghost coded = { by_rank_code the_row.coded };

    ghost view = { λ s. s.orders };

    ghost invariant = { λ s. AreLastOrders s.orders s.last.items };
}

/// Whether the rank is greater than all of these.
fn is_greatest(orders: &[(u64, OrderRow)], rank: u64) -> bool
    requires { are_in_order nat_cmp orders.now ≡ true }
    ensures { IsTrue result → IsPlaceOf nat_cmp rank orders.now (Err (length orders.now)) }
{
    orders.is_empty() || is_behind(orders, rank)
}

/// Whether the rank is the last of these.
fn is_last(orders: &[(u64, OrderRow)], rank: u64) -> bool
    ensures { IsTrue result → IsPlaceOf nat_cmp rank orders.now (Ok (length orders.now - 1)) }
{
    match orders.len().checked_sub(1) {
        Some(place) => is_at(orders, rank, place),
        None => false,
    }
}

/// Inserts an order of a greater rank than the others of its district.
fn put_behind(
    orders: &mut Shelf<OrderRow>,
    last: &mut LastOrders,
    rank: u64,
    row: OrderRow,
) -> Result<Option<OrderRow>, Memory>
    requires kept { AreLinkedAt orders.old rank last.old }
    requires behind { IsPlaceOf nat_cmp rank (orders_of orders.old rank) (Err (length (orders_of orders.old rank))) }
    ensures kept { AreLinkedAt orders.new rank last.new }
    ensures value { IfOk result (λ was. was ≡ map.get orders.old rank) }
    ensures ok { OnOk result (orders.new ≡ map.insert orders.old rank row) }
    ensures err { OnErr result (orders.new ≡ orders.old) }
    ensures new { OnErr result (map.get orders.old rank ≡ None) }
{
    let customer = row.customer;
    last.push(rank, customer)?;
    match orders.put(rank, row) {
        Ok(was) => Ok(was),
        Err(Memory) => {
            last.pop(customer);
            Err(Memory)
        }
    }
}

/// Inserts an order of a new rank, and links its district's orders anew.
fn put_among(
    orders: &mut Shelf<OrderRow>,
    last: &mut LastOrders,
    rank: u64,
    row: OrderRow,
) -> Result<Option<OrderRow>, Memory>
    requires kept { AreLinkedAt orders.old rank last.old }
    requires new { map.get orders.old rank ≡ None }
    ensures kept { AreLinkedAt orders.new rank last.new }
    ensures value { IfOk result (λ was. was ≡ map.get orders.old rank) }
    ensures ok { OnOk result (orders.new ≡ map.insert orders.old rank row) }
    ensures err { OnErr result (orders.new ≡ orders.old) }
{
    last.lengthen()?;
    let was = orders.put(rank, row);
    last.relink(orders.slice_at(rank));
    was
}

/// Exchanges the rank's order for this one, and returns true; or returns false if it has none.
fn swap(orders: &mut Shelf<OrderRow>, last: &mut LastOrders, rank: u64, row: &mut OrderRow) -> bool
    requires { AreLinkedAt orders.old rank last.old }
    ensures kept { AreLinkedAt orders.new rank last.new }
    ensures found { result ≡ is_some (map.get orders.old rank) }
    ensures row { row.new ≡ unwrap_or (map.get orders.old rank) row.old }
    ensures after { orders.new ≡ cond result (map.insert orders.old rank row.old) orders.old }
{
    let customer = row.customer;
    if !orders.swap(rank, row) {
        return false;
    }
    if row.customer.number() != customer.number() {
        last.relink(orders.slice_at(rank));
    }
    true
}

/// Inserts or replaces the rank's order, and returns the old one. Only an insertion can be refused memory.
fn put(
    orders: &mut Shelf<OrderRow>,
    last: &mut LastOrders,
    rank: u64,
    row: OrderRow,
) -> Result<Option<OrderRow>, Memory>
    requires { AreLinkedAt orders.old rank last.old }
    ensures kept { AreLinkedAt orders.new rank last.new }
    ensures value { IfOk result (λ was. was ≡ map.get orders.old rank) }
    ensures ok { OnOk result (orders.new ≡ map.insert orders.old rank row) }
    ensures err { OnErr result (orders.new ≡ orders.old) }
    ensures new { OnErr result (map.get orders.old rank ≡ None) }
{
    if is_greatest(orders.slice_at(rank), rank) {
        return put_behind(orders, last, rank, row);
    }
    let mut row = row;
    if swap(orders, last, rank, &mut row) {
        return Ok(Some(row));
    }
    put_among(orders, last, rank, row)
}

/// Removes the rank's order, and returns it.
fn remove(orders: &mut Shelf<OrderRow>, last: &mut LastOrders, rank: u64) -> Option<OrderRow>
    requires { AreLinkedAt orders.old rank last.old }
    ensures kept { AreLinkedAt orders.new rank last.new }
    ensures value { result ≡ map.get orders.old rank }
    ensures after { orders.new ≡ map.remove orders.old rank }
{
    let is_last = is_last(orders.slice_at(rank), rank);
    let was = orders.remove(rank)?;
    if is_last {
        last.pop(was.customer);
    } else {
        last.relink(orders.slice_at(rank));
    }
    Some(was)
}

impl OrderShelf {
    /// No orders.
    pub fn new(alloc: Global) -> Result<OrderShelf, Memory>
        ensures { IfOk result (λ orders. orders ≡ map.empty) }
    {
        let orders = Shelf::new(alloc)?;
        let mut last = Vec::with_capacity(alloc, PLACES)?;
        for _ in 0..PLACES {
            last.push(LastOrders::new(alloc))?;
        }
        Ok(OrderShelf { orders, last })
    }

    pub fn get(&self, rank: u64) -> Option<&OrderRow>
        ensures { option_copied result ≡ map.get self.now rank }
    {
        self.orders.get(rank)
    }

    /// The row where the rank's is expected, which may be another's: a hint, on which nothing relies. It isn't read yet.
    pub fn expected(&self, rank: u64) -> Option<&OrderRow> {
        self.orders.expected(rank)
    }

    /// The orders of the rank's district with their ranks, in ascending rank.
    pub fn slice_at(&self, rank: u64) -> &[(u64, OrderRow)]
        ensures { result.now ≡ orders_of self.now rank }
    {
        self.orders.slice_at(rank)
    }

    /// The last orders of the customers of the rank's district.
    pub fn last_at(&self, rank: u64) -> &LastOrders
        ensures { AreLinkedAt self.now rank result.now }
    {
        &self.last[place_of(rank)]
    }

    /// Exchanges the rank's order for this one, and returns true; or returns false if it has none.
    pub fn swap(&mut self, rank: u64, row: &mut OrderRow) -> bool
        ensures found { result ≡ is_some (map.get self.old rank) }
        ensures row { row.new ≡ unwrap_or (map.get self.old rank) row.old }
        ensures after { self.new ≡ cond result (map.insert self.old rank row.old) self.old }
    {
        let n = place_of(rank);
        let last = &mut self.last[n];
        swap(&mut self.orders, last, rank, row)
    }

    /// Inserts or replaces the rank's order, and returns the old one. Only an insertion can be refused memory.
    pub fn put(&mut self, rank: u64, row: OrderRow) -> Result<Option<OrderRow>, Memory>
        ensures value { IfOk result (λ was. was ≡ map.get self.old rank) }
        ensures ok { OnOk result (self.new ≡ map.insert self.old rank row) }
        ensures err { OnErr result (self.new ≡ self.old) }
        ensures new { OnErr result (map.get self.old rank ≡ None) }
    {
        let n = place_of(rank);
        let last = &mut self.last[n];
        put(&mut self.orders, last, rank, row)
    }

    /// Removes the rank's order, and returns it.
    pub fn remove(&mut self, rank: u64) -> Option<OrderRow>
        ensures value { result ≡ map.get self.old rank }
        ensures after { self.new ≡ map.remove self.old rank }
    {
        let n = place_of(rank);
        let last = &mut self.last[n];
        remove(&mut self.orders, last, rank)
    }
}
