//! The customers by last name (TPC-C clauses 2.5.2.2 and 2.6.2.2).
ghost use Rattle.std.specs.Prelude.{◌≡◌, ◌+◌, ◌≤◌, IfOk, List, filter, length, map as mapped, true};
ghost use Rattle.std.specs.Cmp.Lexicographic.{slice_cmp};
ghost use Rattle.std.specs.Ordering.{nat_cmp};
ghost use Rattle.catalog.specs.CardMap.{AreKeyed, card_key_cmp, cards_in};
ghost use Rattle.catalog.specs.declared.card.CustomerCard.{CustomerCard};
ghost use Rattle.catalog.specs.LastNames.{customer_cards, customers_among, is_holder, middle_of};
ghost use Rattle.catalog.specs.NameOrder.{AreInOrder, EndsAt, StandsAt, has_name, name_cmp, name_of, named, named_cmp};
ghost use Rattle.tpcc_rows.specs.Places.{are_in_order};

use crate::card::{Card, CardKey, CustomerCard};
use std::alloc::Global;
use std::cmp::Ordering;
use std::marker::Model;
use tpcc_rows::id::{CustomerId, DistrictId, WarehouseId};
use tpcc_rows::memory::Memory;
use tpcc_rows::text::Text;

/// The order of two texts, byte by byte.
fn cmp_texts(one: &Text<16>, other: &Text<16>) -> Ordering
    ensures { result ≡ slice_cmp nat_cmp one.now other.now }
{
    let (one, other) = (one.as_padded(), other.as_padded());
    // Zeros fill up the arrays, and are less than any byte of a text.
    u128::from_be_bytes(*one).cmp(&u128::from_be_bytes(*other))
}

/// A customer's names and number.
#[derive(Drop)]
pub(crate) struct NamedCustomer {
    warehouse: WarehouseId,
    district: DistrictId,
    last: Text<16>,
    first: Text<16>,
    customer: CustomerId,
}

impl NamedCustomer {
    fn new(card: &CustomerCard) -> NamedCustomer
        ensures { result ≡ named card.now }
    {
        NamedCustomer {
            warehouse: card.warehouse,
            district: card.district,
            last: card.last.copied(),
            first: card.first.copied(),
            customer: card.customer,
        }
    }

    // By C_W_ID, C_D_ID and C_LAST.
    fn cmp_name(&self, warehouse: WarehouseId, district: DistrictId, last: &Text<16>) -> Ordering
        ensures { result ≡ name_cmp (name_of self.now) (warehouse, district, last.now) }
    {
        let place = self
            .warehouse
            .cmp(&warehouse)
            .then(self.district.cmp(&district));
        place.then_with(|| cmp_texts(&self.last, last))
    }

    fn has_name(&self, warehouse: WarehouseId, district: DistrictId, last: &Text<16>) -> bool
        ensures { result ≡ has_name (warehouse, district, last.now) self.now }
    {
        self.cmp_name(warehouse, district, last).is_eq()
    }

    // Then by C_FIRST and C_ID.
    fn cmp(&self, other: &NamedCustomer) -> Ordering
        ensures { result ≡ named_cmp self.now other.now }
    {
        self.cmp_name(other.warehouse, other.district, &other.last)
            .then_with(|| cmp_texts(&self.first, &other.first))
            .then(self.customer.cmp(&other.customer))
    }
}

fn named_customers(alloc: Global, cards: &[(CardKey, Card)]) -> Result<Vec<NamedCustomer>, Memory>
    ensures { IfOk result (λ customers. customers.items ≡ mapped named (customers_among cards.now)) }
{
    let mut customers = Vec::new(alloc);
    for (_, card) in cards {
        if let Some(customer) = card.as_customer() {
            customers.push(NamedCustomer::new(customer))?;
        }
    }
    Ok(customers)
}

/// A last name mostly has fewer holders in a district, so the end of them is first searched for among so many customers.
const FEW: usize = 16;

/// The number of customers with this last name, all of whom come first.
fn holders_in_front(
    customers: &[NamedCustomer],
    warehouse: WarehouseId,
    district: DistrictId,
    last: &Text<16>,
) -> usize
    ensures bound { result ≤ length customers.now }
    ensures point { EndsAt (warehouse, district, last.now) customers.now result }
{
    if let Some(customer) = customers.get(FEW) {
        if !customer.has_name(warehouse, district, last) {
            return customers[..FEW].partition_point(|c| c.has_name(warehouse, district, last));
        }
    }
    customers.partition_point(|c| c.has_name(warehouse, district, last))
}

/// The customers, sorted by warehouse, district, C_LAST, C_FIRST and C_ID.
#[derive(Drop)]
pub(crate) struct LastNames {
    customers: Vec<NamedCustomer>,
}

impl Model for LastNames {
    ghost use Rattle.std.specs.Prelude.{List};
    ghost use Rattle.catalog.specs.declared.last_names.NamedCustomer.{NamedCustomer};

    ghost Value = { List NamedCustomer };

    ghost view = { λ x. x.customers.items };
}

impl LastNames {
    /// The customers of these cards, which are sorted by key.
    pub(crate) fn new(alloc: Global, cards: &[(CardKey, Card)]) -> Result<LastNames, Memory>
        requires order { are_in_order card_key_cmp cards.now ≡ true }
        requires keyed { AreKeyed (cards_in cards.now) }
        ensures { IfOk result (AreInOrder (customer_cards (cards_in cards.now))) }
    {
        let mut customers = named_customers(alloc, cards)?;
        customers.sort_unstable_by(|a, b| a.cmp(b));
        Ok(LastNames { customers })
    }

    /// The first of the district's customers with this last name, and their number.
    fn holders(
        &self,
        warehouse: WarehouseId,
        district: DistrictId,
        last: &Text<16>,
    ) -> (usize, usize)
        ensures within { result.0 + result.1 ≤ length self.now }
        ensures place { (cards : List CustomerCard) → AreInOrder cards self.now → StandsAt self.now (warehouse, district, last.now) result.0 result.1 }
    {
        let start = self
            .customers
            .partition_point(|c| c.cmp_name(warehouse, district, last).is_lt());
        let from_start = &self.customers[start..];
        (
            start,
            holders_in_front(from_start, warehouse, district, last),
        )
    }

    /// Finds a customer of the district by last name.
    pub(crate) fn middle(
        &self,
        warehouse: WarehouseId,
        district: DistrictId,
        last: &Text<16>,
    ) -> Option<CustomerId>
        ensures { (cards : List CustomerCard) → AreInOrder cards self.now → result ≡ middle_of (filter (is_holder warehouse district last.now) cards) }
    {
        let (start, count) = self.holders(warehouse, district, last);
        if count == 0 {
            return None;
        }
        Some(self.customers[start + (count - 1) / 2].customer)
    }
}
