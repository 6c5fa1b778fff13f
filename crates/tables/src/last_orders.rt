//! The last order of each customer of a district.
ghost use Rattle.std.specs.Prelude.{◌≡◌, ◌<◌, ◌≤◌, ◌+◌, ℕ, List, [], ◌∷◌, ◌++◌, OnErr, OnOk, length, slice_index, slice_set};
ghost use Rattle.tables.specs.Keys.{number_in};
ghost use Rattle.tables.specs.LastOrders.{AreLinked, HasPlaces, kept_for, owners};

use crate::keys::number_of;
use std::alloc::Global;
use std::mem;
use tpcc_rows::id::{CustomerId, OrderId};
use tpcc_rows::memory::Memory;
use tpcc_rows::row::OrderRow;

/// The numbers of customers, 0 among them.
const NUMBERS: usize = 3_001;

/// The number of each customer's last order, and for each order, in the order of their ranks, the number of the one before it of the same
/// customer; 0 where there is none. Customers get their places with the first order.
#[derive(Drop)]
pub struct LastOrders {
    last: Vec<u32>,
    previous: Vec<u32>,
}

/// Gives each customer a place.
fn make_places(last: &mut Vec<u32>) -> Result<(), Memory>
    ensures same { (c : ℕ) → slice_index last.new.items c ≡ slice_index last.old.items c }
    ensures enough { OnOk result (NUMBERS ≤ length last.new.items) }
    ensures more { length last.old.items ≤ length last.new.items }
{
    if last.len() < NUMBERS {
        last.resize(NUMBERS, 0)?;
    }
    Ok(())
}

/// Makes the order its customer's last one, and returns the number of the one before it.
fn link(last: &mut Vec<u32>, rank: u64, customer: CustomerId) -> u32
    requires { NUMBERS ≤ length last.old.items }
    ensures small { customer < NUMBERS }
    ensures value { result ≡ slice_index last.old.items customer }
    ensures after { last.new.items ≡ slice_set last.old.items customer (number_in rank) }
{
    let place = usize::from(customer.number());
    mem::replace(&mut last[place], number_of(rank))
}

/// Forgets all numbers.
fn clear(numbers: &mut Vec<u32>)
    ensures none { (n : ℕ) → slice_index numbers.new.items n ≡ 0 }
    ensures same { length numbers.new.items ≡ length numbers.old.items }
{
    for n in 0..numbers.len() {
        numbers[n] = 0;
    }
}

impl LastOrders {
    /// No orders.
    pub(crate) fn new(alloc: Global) -> LastOrders
        ensures { AreLinked result [] }
    {
        LastOrders {
            last: Vec::new(alloc),
            previous: Vec::new(alloc),
        }
    }

    /// The customer's last order, if there is one.
    pub fn of(&self, customer: CustomerId) -> Option<OrderId>
        ensures { result ≡ kept_for self.now customer }
    {
        let number = self.last.get(usize::from(customer.number()))?;
        OrderId::new(*number)
    }

    /// Links an order of a greater rank than the others.
    pub(crate) fn push(&mut self, rank: u64, customer: CustomerId) -> Result<(), Memory>
        ensures ok { OnOk result ((os : List (ℕ × ℕ)) → AreLinked self.old os → AreLinked self.new (os ++ (rank, customer) ∷ [])) }
        ensures err { OnErr result ((os : List (ℕ × ℕ)) → AreLinked self.old os → AreLinked self.new os) }
    {
        make_places(&mut self.last)?;
        let before = self.last[usize::from(customer.number())];
        self.previous.push(before)?;
        link(&mut self.last, rank, customer);
        Ok(())
    }

    /// Takes back the order of the greatest rank, which is this customer's.
    pub(crate) fn pop(&mut self, customer: CustomerId)
        ensures { (rank : ℕ) (os : List (ℕ × ℕ)) → AreLinked self.old (os ++ (rank, customer) ∷ []) → AreLinked self.new os }
    {
        let place = usize::from(customer.number());
        if let Some(before) = self.previous.pop() {
            if place < self.last.len() {
                self.last[place] = before;
            }
        }
    }

    /// Makes a place for one order more, which isn't linked yet.
    pub(crate) fn lengthen(&mut self) -> Result<(), Memory>
        ensures ok { OnOk result ((count : ℕ) → HasPlaces self.old count → HasPlaces self.new (count + 1)) }
        ensures err { OnErr result ((os : List (ℕ × ℕ)) → AreLinked self.old os → AreLinked self.new os) }
    {
        make_places(&mut self.last)?;
        self.previous.push(0)?;
        Ok(())
    }

    /// Links these orders in place of all others.
    pub(crate) fn relink(&mut self, orders: &[(u64, OrderRow)])
        requires { HasPlaces self.old (length orders.now) }
        ensures { AreLinked self.new (owners orders.now) }
    {
        self.previous.truncate(orders.len());
        clear(&mut self.last);
        for place in 0..orders.len() {
            let (rank, row) = &orders[place];
            self.previous[place] = link(&mut self.last, *rank, row.customer);
        }
    }
}
