//! A law of the keys of cards, as the contract of an empty function.
ghost use Rattle.catalog.specs.CardBytes.{OrderIsOfCardCodes};

/// Keys of cards within their limits are ordered as their codes, so `Catalog::cards` gives the cards in ascending code.
pub fn card_order()
    ensures { OrderIsOfCardCodes }
{}
