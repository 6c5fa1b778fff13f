//! Cards in a vector sorted by key. If a kind's numbers have no gaps, as in a database of full scale, a card's place follows from
//! its key.
ghost use Rattle.std.specs.Prelude.{◌≡◌, IfOk, IsTrue, Ok, is_some, option_copied, true};
ghost use Rattle.std.specs.FinMap as map;
ghost use Rattle.catalog.specs.CardMap.{card_key_cmp, cards_in};
ghost use Rattle.tpcc_rows.specs.Places.{IsPlaceOf, are_in_order};

use crate::card::{Card, CardKey};
use std::alloc::Global;
use std::collections::BTreeMap;
use tpcc_rows::memory::Memory;

/// The districts of a warehouse.
const DISTRICTS: usize = 10;

/// Where the cards of each kind begin, in this order after the warehouses, and how many stocks a warehouse and how many customers a
/// district has, if all have the same number.
#[derive(Clone, Copy)]
pub(crate) struct Layout {
    districts: usize,
    customers: usize,
    stocks: usize,
    items: usize,
    customers_of_one: usize,
    stocks_of_one: usize,
}

/// The kinds in the order of their cards.
fn kind(key: &CardKey) -> usize {
    match key {
        CardKey::Warehouse { .. } => 0,
        CardKey::District { .. } => 1,
        CardKey::Customer { .. } => 2,
        CardKey::Stock { .. } => 3,
        CardKey::Item { .. } => 4,
    }
}

fn first_of_kind(cards: &[(CardKey, Card)], wanted: usize) -> usize {
    cards.partition_point(|entry| kind(&entry.0) < wanted)
}

/// The same number of cards for each of the owners, if there is one.
fn share(cards: usize, owners: usize) -> usize {
    cards / owners.max(1)
}

impl Layout {
    pub(crate) fn of(cards: &[(CardKey, Card)]) -> Layout {
        let districts = first_of_kind(cards, 1);
        let customers = first_of_kind(cards, 2);
        let stocks = first_of_kind(cards, 3);
        let items = first_of_kind(cards, 4);
        Layout {
            districts,
            customers,
            stocks,
            items,
            customers_of_one: share(
                stocks.saturating_sub(customers),
                customers.saturating_sub(districts),
            ),
            stocks_of_one: share(items.saturating_sub(stocks), districts),
        }
    }

    /// Where the key's card is, if its kind has no gaps. Inlined, since a caller knows the kind.
    #[inline(always)]
    pub(crate) fn guess(&self, key: &CardKey) -> usize {
        match *key {
            CardKey::Warehouse { warehouse } => before(usize::from(warehouse.number())),
            CardKey::District {
                warehouse,
                district,
            } => {
                let earlier = before(usize::from(warehouse.number())).wrapping_mul(DISTRICTS);
                let number = before(usize::from(district.number()));
                self.districts.wrapping_add(earlier).wrapping_add(number)
            }
            CardKey::Customer {
                warehouse,
                district,
                customer,
            } => {
                let earlier = before(usize::from(warehouse.number())).wrapping_mul(DISTRICTS);
                let districts = earlier.wrapping_add(before(usize::from(district.number())));
                let others = districts.wrapping_mul(self.customers_of_one);
                let number = before(usize::from(customer.number()));
                self.customers.wrapping_add(others).wrapping_add(number)
            }
            CardKey::Stock { warehouse, item } => {
                let warehouses = before(usize::from(warehouse.number()));
                let others = warehouses.wrapping_mul(self.stocks_of_one);
                let number = before(item.number() as usize);
                self.stocks.wrapping_add(others).wrapping_add(number)
            }
            CardKey::Item { item } => {
                let number = before(item.number() as usize);
                self.items.wrapping_add(number)
            }
        }
    }
}

/// The number of lesser numbers, from 1 on.
fn before(number: usize) -> usize {
    number.saturating_sub(1)
}

/// Where the key's card is, or would be inserted.
fn place_of(cards: &[(CardKey, Card)], key: &CardKey) -> Result<usize, usize>
    requires { are_in_order card_key_cmp cards.now ≡ true }
    ensures { IsPlaceOf card_key_cmp key.now cards.now result }
{
    cards.binary_search_by(|entry| entry.0.cmp(key))
}

/// Whether the key's card is at the guessed place.
#[inline(always)]
fn guessed(cards: &[(CardKey, Card)], key: &CardKey, guess: usize) -> bool
    ensures { IsTrue result → IsPlaceOf card_key_cmp key.now cards.now (Ok guess) }
{
    match cards.get(guess) {
        Some((other, _)) => *other == *key,
        None => false,
    }
}

/// Whether a card has the key.
pub(crate) fn has(cards: &[(CardKey, Card)], key: &CardKey) -> bool
    requires { are_in_order card_key_cmp cards.now ≡ true }
    ensures { result ≡ is_some (map.get (cards_in cards.now) key.now) }
{
    place_of(cards, key).is_ok()
}

/// Moves the cards of a tree into a vector, in order.
pub(crate) fn moved(
    alloc: Global,
    cards: BTreeMap<CardKey, Card>,
) -> Result<Vec<(CardKey, Card)>, Memory>
    ensures order { IfOk result (λ moved. are_in_order card_key_cmp moved.items ≡ true) }
    ensures all { IfOk result (λ moved. cards_in moved.items ≡ map.from_entries cards.entries) }
{
    let mut moved = Vec::with_capacity(alloc, cards.len())?;
    for (key, card) in cards {
        moved.push((key, card))?;
    }
    Ok(moved)
}

/// The card of a key by binary search, if there is one. Not inlined, so that the look at the guess is.
#[inline(never)]
fn found_apart<'a>(cards: &'a [(CardKey, Card)], key: &CardKey) -> Option<&'a Card>
    requires { are_in_order card_key_cmp cards.now ≡ true }
    ensures { option_copied result ≡ map.get (cards_in cards.now) key.now }
{
    match place_of(cards, key) {
        Ok(place) => Some(&cards[place].1),
        Err(_) => None,
    }
}

/// The card of a key, if there is one.
#[inline(always)]
pub(crate) fn found<'a>(
    cards: &'a [(CardKey, Card)],
    layout: &Layout,
    key: &CardKey,
) -> Option<&'a Card>
    requires { are_in_order card_key_cmp cards.now ≡ true }
    ensures { option_copied result ≡ map.get (cards_in cards.now) key.now }
{
    let guess = layout.guess(key);
    if guessed(cards, key, guess) {
        return Some(&cards[guess].1);
    }
    found_apart(cards, key)
}
