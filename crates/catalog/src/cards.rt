//! The catalog.
ghost use Rattle.std.specs.Prelude.{◌≡◌, ◌<◌, ◌^◌, IfOk, length, option_copied, true};
ghost use Rattle.std.specs.FinMap as map;
ghost use Rattle.catalog.specs.CardMap.{AreKeyed, card_key_cmp, cards_in};
ghost use Rattle.catalog.specs.LastNames.{customer_by_last};
ghost use Rattle.catalog.specs.Lookups.{customer_card, district_card, item_card, stock_card, warehouse_card};
ghost use Rattle.tpcc_rows.specs.Places.{are_in_order};

use crate::card::{Card, CardKey, CustomerCard, DistrictCard, ItemCard, StockCard, WarehouseCard};
use crate::last_names::LastNames;
use crate::table::{Layout, found};
use std::alloc::Global;
use std::marker::Model;
use tpcc_rows::id::{CustomerId, DistrictId, ItemId, WarehouseId};
use tpcc_rows::memory::Memory;
use tpcc_rows::text::Text;

/// An immutable map from keys to cards, each at its own key, built by a `CatalogBuilder`.
#[derive(Drop)]
pub struct Catalog {
    cards: Vec<(CardKey, Card)>,
    layout: Layout,
    names: LastNames,
}

impl Model for Catalog {
    ghost use Rattle.catalog.specs.CardMap.{AreKeyed, Cards, card_key_cmp, cards_code, cards_in};
    ghost use Rattle.catalog.specs.LastNames.{customer_cards};
    ghost use Rattle.catalog.specs.NameOrder.{AreInOrder};
    ghost use Rattle.std.specs.Prelude.{◌≡◌, true};
    ghost use Rattle.tpcc_rows.specs.Places.{are_in_order};

    ghost Value = { Cards };

    ghost coded = { cards_code };

    ghost view = { λ s. cards_in s.cards.items };

    ghost invariant = { λ s. (are_in_order card_key_cmp s.cards.items ≡ true) × AreKeyed (cards_in s.cards.items)
        × AreInOrder (customer_cards (cards_in s.cards.items)) s.names };
}

/// Reads the first and the last bytes of the card at a place. The result has no meaning.
fn read(cards: &[(CardKey, Card)], place: usize) -> usize {
    match cards.get(place) {
        Some((_, Card::Stock(card))) => usize::from(card.data.is_full()),
        Some((_, Card::Item(card))) => usize::from(card.data.is_full()),
        _ => 0,
    }
}

impl Catalog {
    /// The catalog of these cards, sorted by key.
    pub(crate) fn from_cards(alloc: Global, cards: Vec<(CardKey, Card)>) -> Result<Catalog, Memory>
        requires order { are_in_order card_key_cmp cards.items ≡ true }
        requires keyed { AreKeyed (cards_in cards.items) }
        ensures cards { IfOk result (λ catalog. catalog ≡ cards_in cards.items) }
        ensures keyed { IfOk result AreKeyed }
    {
        let names = LastNames::new(alloc, &cards)?;
        let layout = Layout::of(&cards);
        Ok(Catalog {
            cards,
            layout,
            names,
        })
    }

    /// The card of a key, if there is one.
    #[inline(always)]
    pub fn get(&self, key: &CardKey) -> Option<&Card>
        ensures { option_copied result ≡ map.get self.now key.now }
    {
        found(&self.cards, &self.layout, key)
    }

    pub fn warehouse(&self, warehouse: WarehouseId) -> Option<&WarehouseCard>
        ensures { option_copied result ≡ warehouse_card self.now warehouse }
    {
        self.get(&CardKey::Warehouse { warehouse })?.as_warehouse()
    }

    pub fn district(&self, warehouse: WarehouseId, district: DistrictId) -> Option<&DistrictCard>
        ensures { option_copied result ≡ district_card self.now warehouse district }
    {
        let key = CardKey::District {
            warehouse,
            district,
        };
        self.get(&key)?.as_district()
    }

    pub fn customer(
        &self,
        warehouse: WarehouseId,
        district: DistrictId,
        customer: CustomerId,
    ) -> Option<&CustomerCard>
        ensures { option_copied result ≡ customer_card self.now warehouse district customer }
    {
        let key = CardKey::Customer {
            warehouse,
            district,
            customer,
        };
        self.get(&key)?.as_customer()
    }

    /// Finds a customer by last name (TPC-C clauses 2.5.2.2 and 2.6.2.2): of n in the district with this name, ordered by
    /// C_FIRST and then C_ID, the one at n/2 rounded up.
    #[tactic(auto, unfolding(crate::specs::LastNames::customer_by_last))]
    pub fn by_last(
        &self,
        warehouse: WarehouseId,
        district: DistrictId,
        last: &Text<16>,
    ) -> Option<CustomerId>
        ensures { result ≡ customer_by_last self.now warehouse district last.now }
    {
        self.names.middle(warehouse, district, last)
    }

    pub fn stock(&self, warehouse: WarehouseId, item: ItemId) -> Option<&StockCard>
        ensures { option_copied result ≡ stock_card self.now warehouse item }
    {
        self.get(&CardKey::Stock { warehouse, item })?.as_stock()
    }

    pub fn item(&self, item: ItemId) -> Option<&ItemCard>
        ensures { option_copied result ≡ item_card self.now item }
    {
        self.get(&CardKey::Item { item })?.as_item()
    }

    /// A number of no meaning. Computing it reads where the cards of an item and of its stock are expected, so that finding them needn't
    /// wait for memory.
    pub fn prefetch(&self, warehouse: WarehouseId, item: ItemId) -> usize {
        let stock = CardKey::Stock { warehouse, item };
        let item = CardKey::Item { item };
        read(&self.cards, self.layout.guess(&stock)).wrapping_add(read(
            &self.cards,
            self.layout.guess(&item),
        ))
    }

    /// The number of cards.
    pub fn len(&self) -> usize
        ensures value { result ≡ length (map.entries self.now) }
        ensures small { result < 2 ^ 63 }
    {
        self.cards().len()
    }

    /// The cards with their keys, in ascending code.
    pub fn cards(&self) -> &[(CardKey, Card)]
        ensures all { result.now ≡ map.entries self.now }
        ensures keyed { AreKeyed self.now }
    {
        self.cards.as_slice()
    }
}
