//! Cards that come in key order, as in a stored image.
ghost use Rattle.std.specs.Prelude.{◌≡◌, [], None, Ok, OnErr, Some, IfOk, IsTrue, is_some, true};
ghost use Rattle.std.specs.FinMap as map;
ghost use Rattle.catalog.specs.CardMap.{IsBefore, IsBehind, card_key_cmp, cards_in};
ghost use Rattle.tpcc_rows.specs.Places.{are_in_order};

use crate::card::{Card, CardKey};
use crate::table::has;
use std::alloc::Global;
use std::marker::Model;
use tpcc_rows::memory::Memory;

/// A sorted map of cards that takes a card at its end; or right before the items, the last kind, so that items may come before
/// stocks, as in an image.
#[derive(Drop)]
pub(crate) struct Rising {
    others: Vec<(CardKey, Card)>,
    items: Vec<(CardKey, Card)>,
}

impl Model for Rising {
    ghost use Rattle.catalog.specs.CardMap.{Cards, card_key_cmp, cards_code, cards_in};
    ghost use Rattle.std.specs.Prelude.{◌≡◌, ◌++◌, true};
    ghost use Rattle.tpcc_rows.specs.Places.{are_in_order};

    ghost Value = { Cards };

    ghost coded = { cards_code };

    ghost view = { λ s. cards_in (s.others.items ++ s.items.items) };

    ghost invariant = { λ s. are_in_order card_key_cmp (s.others.items ++ s.items.items) ≡ true };
}

/// Whether the key is greater than that of the last card.
fn is_behind(cards: &[(CardKey, Card)], key: &CardKey) -> bool
    requires { are_in_order card_key_cmp cards.now ≡ true }
    ensures { IsTrue result → IsBehind key.now cards.now }
{
    match cards.last() {
        Some(last) => last.0.cmp(key).is_lt(),
        None => true,
    }
}

/// Whether the key is less than that of the first card.
fn is_before(cards: &[(CardKey, Card)], key: &CardKey) -> bool
    requires { are_in_order card_key_cmp cards.now ≡ true }
    ensures { IsTrue result → IsBefore key.now cards.now }
{
    match cards.first() {
        Some(first) => key.cmp(&first.0).is_lt(),
        None => true,
    }
}

impl Rising {
    /// No cards.
    pub(crate) fn new(alloc: Global) -> Rising
        ensures { result ≡ map.empty }
    {
        Rising {
            others: Vec::new(alloc),
            items: Vec::new(alloc),
        }
    }

    /// Takes a card at the end, or gives it back.
    fn push_item(&mut self, key: CardKey, card: Card) -> Result<Option<Card>, Memory>
        ensures fresh { result ≡ Ok None → map.get self.old key ≡ None }
        ensures taken { result ≡ Ok None → self.new ≡ map.insert self.old key card }
        ensures back { IfOk result (λ back. is_some back ≡ true → (back ≡ Some card) × (self.new ≡ self.old)) }
        ensures err { OnErr result (self.new ≡ self.old) }
    {
        if !is_behind(&self.others, &key) || !is_behind(&self.items, &key) {
            return Ok(Some(card));
        }
        self.items.push((key, card))?;
        Ok(None)
    }

    /// Takes a card right before the items, or gives it back.
    fn push_other(&mut self, key: CardKey, card: Card) -> Result<Option<Card>, Memory>
        ensures fresh { result ≡ Ok None → map.get self.old key ≡ None }
        ensures taken { result ≡ Ok None → self.new ≡ map.insert self.old key card }
        ensures back { IfOk result (λ back. is_some back ≡ true → (back ≡ Some card) × (self.new ≡ self.old)) }
        ensures err { OnErr result (self.new ≡ self.old) }
    {
        if !is_behind(&self.others, &key) || !is_before(&self.items, &key) {
            return Ok(Some(card));
        }
        self.others.push((key, card))?;
        Ok(None)
    }

    /// Takes a card whose key comes next, or gives it back.
    pub(crate) fn push(&mut self, key: CardKey, card: Card) -> Result<Option<Card>, Memory>
        ensures fresh { result ≡ Ok None → map.get self.old key ≡ None }
        ensures taken { result ≡ Ok None → self.new ≡ map.insert self.old key card }
        ensures back { IfOk result (λ back. is_some back ≡ true → (back ≡ Some card) × (self.new ≡ self.old)) }
        ensures err { OnErr result (self.new ≡ self.old) }
    {
        match key {
            CardKey::Item { .. } => self.push_item(key, card),
            _ => self.push_other(key, card),
        }
    }

    /// Whether a card has the key.
    pub(crate) fn has(&self, key: &CardKey) -> bool
        ensures { result ≡ is_some (map.get self.now key.now) }
    {
        has(&self.others, key) || has(&self.items, key)
    }

    /// The cards in order.
    pub(crate) fn into_cards(self) -> Result<Vec<(CardKey, Card)>, Memory>
        ensures order { IfOk result (λ cards. are_in_order card_key_cmp cards.items ≡ true) }
        ensures all { IfOk result (λ cards. cards_in cards.items ≡ self) }
    {
        let Rising { others, items, .. } = self;
        let mut cards = others;
        let mut items = items;
        cards.append(&mut items)?;
        Ok(cards)
    }
}
