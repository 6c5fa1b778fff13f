//! Builds catalogs.
ghost use Rattle.std.specs.Prelude.{◌≡◌, ◌++◌, IfOk, IfErr, IsSome, Ok, OnErr, OnOk, None, Some, false, is_some, true};
ghost use Rattle.std.specs.FinMap as map;
ghost use Rattle.catalog.specs.CardKinds.{card_key};
ghost use Rattle.catalog.specs.CardMap.{AreKeyed, cards_of, firsts, has_twins};
ghost use Rattle.catalog.specs.declared.builder.CatalogError.TheVariants.{Twice};
ghost use Rattle.catalog.specs.declared.builder.CatalogError.TheVariants as catalog_error;

use crate::card::{Card, CardKey};
use crate::cards::Catalog;
use crate::rising::Rising;
use crate::table::moved;
use std::alloc::Global;
use std::collections::BTreeMap;
use std::marker::Model;
use thiserror::Error;
use tpcc_rows::memory::Memory;

/// Why there is no catalog.
#[derive(Clone, Copy, Debug, PartialEq, Eq, Error)]
pub enum CatalogError {
    #[error("memory was refused")]
    Memory,
    #[error("two cards have one key")]
    Twice,
}

impl From<Memory> for CatalogError {
    ghost from_gives = { λ _ e. e ≡ catalog_error.Memory };

    fn from(_: Memory) -> CatalogError {
        CatalogError::Memory
    }
}

/// A catalog under construction: a finite map from keys to cards, each at its own key.
#[derive(Drop)]
pub struct CatalogBuilder {
    in_order: Rising,
    /// Cards that came out of order; each replaces an earlier one with its key.
    late: BTreeMap<CardKey, Card>,
}

impl Model for CatalogBuilder {
    ghost use Rattle.catalog.specs.CardMap.{AreKeyed, Cards, cards_code, over};

    ghost Value = { Cards };

    ghost coded = { cards_code };

    ghost view = { λ s. over s.late.entries s.in_order };

    ghost invariant = { λ s. AreKeyed (over s.late.entries s.in_order) };
}

/// Merges the late cards into the earlier ones; a late card replaces one with its key.
fn with_earlier(
    late: BTreeMap<CardKey, Card>,
    cards: Vec<(CardKey, Card)>,
) -> Result<BTreeMap<CardKey, Card>, Memory>
    ensures { IfOk result (λ all. firsts all.entries ≡ firsts (late.entries ++ cards.items)) }
{
    let mut all = late;
    for (key, card) in cards {
        if !all.contains_key(&key) {
            all.insert(key, card)?;
        }
    }
    Ok(all)
}

impl CatalogBuilder {
    /// No cards.
    pub fn new(alloc: Global) -> CatalogBuilder
        ensures { result ≡ map.empty }
    {
        CatalogBuilder {
            in_order: Rising::new(alloc),
            late: BTreeMap::new(alloc),
        }
    }

    /// Takes a card that comes in order and whose key no late one has, or gives it back.
    fn push(&mut self, card: Card) -> Result<Option<Card>, Memory>
        ensures fresh { result ≡ Ok None → map.get self.old (card_key card) ≡ None }
        ensures taken { result ≡ Ok None → self.new ≡ map.insert self.old (card_key card) card }
        ensures back { IfOk result (λ back. is_some back ≡ true → (back ≡ Some card) × (self.new ≡ self.old)) }
        ensures err { OnErr result (self.new ≡ self.old) }
    {
        let key = card.key();
        if self.late.contains_key(&key) {
            return Ok(Some(card));
        }
        self.in_order.push(key, card)
    }

    /// Takes a card out of order, replacing one with its key, and says whether there was one.
    fn insert(&mut self, card: Card) -> Result<bool, Memory>
        ensures ok { OnOk result (self.new ≡ map.insert self.old (card_key card) card) }
        ensures twin { IfOk result (λ twin. twin ≡ is_some (map.get self.old (card_key card))) }
        ensures err { OnErr result (self.new ≡ self.old) }
    {
        let key = card.key();
        let is_twin = self.late.contains_key(&key) || self.in_order.has(&key);
        self.late.insert(key, card)?;
        Ok(is_twin)
    }

    /// Adds a card with a new key. On `Twice` it has replaced the other one.
    pub fn add(&mut self, card: Card) -> Result<(), CatalogError>
        ensures ok { OnOk result (self.new ≡ map.insert self.old (card_key card) card) }
        ensures fresh { OnOk result (map.get self.old (card_key card) ≡ None) }
        ensures twice { IfErr result (λ e. e ≡ Twice → IsSome (map.get self.old (card_key card))) }
        ensures replaced { IfErr result (λ e. e ≡ Twice → self.new ≡ map.insert self.old (card_key card) card) }
        ensures memory { IfErr result (λ e. e ≡ catalog_error.Memory → self.new ≡ self.old) }
    {
        match self.push(card)? {
            None => Ok(()),
            Some(late) => {
                if self.insert(late)? {
                    return Err(CatalogError::Twice);
                }
                Ok(())
            }
        }
    }

    /// The finished catalog, with its customers sorted by name.
    pub fn finish(self, alloc: Global) -> Result<Catalog, Memory>
        ensures cards { IfOk result (λ catalog. catalog ≡ self) }
        ensures keyed { IfOk result AreKeyed }
    {
        let CatalogBuilder { in_order, late, .. } = self;
        let cards = in_order.into_cards()?;
        if late.is_empty() {
            return Catalog::from_cards(alloc, cards);
        }
        let all = with_earlier(late, cards)?;
        Catalog::from_cards(alloc, moved(alloc, all)?)
    }
}

impl Catalog {
    /// The catalog of these cards; `Twice` if two share a key.
    pub fn new(alloc: Global, cards: Vec<Card>) -> Result<Catalog, CatalogError>
        ensures ok { IfOk result (λ catalog. catalog ≡ cards_of cards.items) }
        ensures keyed { IfOk result AreKeyed }
        ensures apart { OnOk result (has_twins cards.items ≡ false) }
        ensures twice { IfErr result (λ e. e ≡ Twice → has_twins cards.items ≡ true) }
    {
        let mut builder = CatalogBuilder::new(alloc);
        for card in cards {
            if let Err(error) = builder.add(card) {
                return Err(error);
            }
        }
        let catalog = builder.finish(alloc)?;
        Ok(catalog)
    }
}
