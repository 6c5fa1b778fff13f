//! The bytes of cards, and the digest of a catalog.
ghost use Rattle.std.specs.Prelude.{◌≡◌, ◌≤◌, ◌++◌, length};
ghost use Rattle.std.specs.List.{flat_map};
ghost use Rattle.catalog.specs.CardBytes.{card_body, card_bytes, card_code, catalog_digest, credit_text};
ghost use Rattle.catalog.specs.declared.card.Card.TheVariants.{Customer, Item, Stock};
ghost use Rattle.tpcc_rows.specs.Encodings.{bytes_16, short_text, sized};

use crate::card::{Card, CardKey, Credit, CustomerCard, DistrictInfos, ItemCard, StockCard};
use crate::cards::Catalog;
use sha2::{Digest, Sha256};
use tpcc_rows::codes::code;
use tpcc_rows::key::RowKey;
use tpcc_rows::number::Rate;
use tpcc_rows::row_buf::RowBuf;
use tpcc_rows::text::Text;

/// The code of a card's key: its row's; districts, which have two rows, and items, which have none, get codes of their own.
fn card_code(key: &CardKey) -> u64
    ensures { result ≡ card_code key.now }
{
    match *key {
        CardKey::Warehouse { warehouse } => code(&RowKey::Warehouse { warehouse }),
        CardKey::District {
            warehouse,
            district,
        } => 0x0200_0000_0000_0000
            + (u64::from(warehouse.number()) * 16 + u64::from(district.number())),
        CardKey::Customer {
            warehouse,
            district,
            customer,
        } => code(&RowKey::Customer {
            warehouse,
            district,
            customer,
        }),
        CardKey::Stock { warehouse, item } => code(&RowKey::Stock { warehouse, item }),
        CardKey::Item { item } => 0x0B00_0000_0000_0000 + u64::from(item.number()),
    }
}

#[tactic(auto, using(tpcc_rows::proofs::Lengths::lengths))]
fn push_name_and_tax(name: &Text<10>, tax: Rate, out: &mut RowBuf)
    requires { length out.old ≤ 8 }
    ensures { out.new ≡ out.old ++ sized (short_text name.now ++ bytes_16 tax) }
{
    let name = name.as_bytes();
    out.push_16(3 + name.len() as u16);
    out.push_short(name);
    out.push_16(tax.value());
}

fn credit_text(credit: Credit) -> [u8; 2]
    ensures { result ≡ credit_text credit }
{
    match credit {
        Credit::Good => *b"GC",
        Credit::Bad => *b"BC",
    }
}

#[tactic(auto, using(tpcc_rows::proofs::Lengths::lengths))]
fn push_customer(card: &CustomerCard, out: &mut RowBuf)
    requires { length out.old ≤ 8 }
    ensures { out.new ≡ out.old ++ sized (card_body (Customer card.now)) }
{
    let last = card.last.as_bytes();
    let middle = card.middle.as_bytes();
    let first = card.first.as_bytes();
    out.push_16(7 + (last.len() + middle.len() + first.len()) as u16);
    out.push_short(last);
    out.push_short(middle);
    out.push_short(first);
    out.push(credit_text(card.credit).as_slice());
    out.push_16(card.discount.value());
}

/// The bytes of the texts, with a length byte each.
#[tactic(auto, using(crate::proofs::Infos::one_less))]
fn infos_len(infos: &DistrictInfos) -> u16
    ensures value { result ≡ length (flat_map short_text infos.now) }
    ensures fits { result ≤ 250 }
{
    let mut len = 0;
    for place in 0..infos.len() {
        len += 1 + infos.bytes_at(place).len() as u16;
    }
    len
}

#[tactic(auto, using(tpcc_rows::proofs::Lengths::lengths, crate::proofs::Infos::one_less))]
fn push_infos(infos: &DistrictInfos, out: &mut RowBuf)
    requires { length out.old ≤ 286 }
    ensures { out.new ≡ out.old ++ flat_map short_text infos.now }
{
    for place in 0..infos.len() {
        out.push_short(infos.bytes_at(place));
    }
}

#[tactic(auto, using(tpcc_rows::proofs::Lengths::lengths))]
fn push_stock(card: &StockCard, out: &mut RowBuf)
    requires { length out.old ≤ 8 }
    ensures { out.new ≡ out.old ++ sized (card_body (Stock card.now)) }
{
    let data = card.data.as_bytes();
    out.push_16(1 + data.len() as u16 + infos_len(&card.district_infos));
    out.push_short(data);
    push_infos(&card.district_infos, out);
}

#[tactic(auto, using(tpcc_rows::proofs::Lengths::lengths))]
fn push_item(card: &ItemCard, out: &mut RowBuf)
    requires { length out.old ≤ 8 }
    ensures { out.new ≡ out.old ++ sized (card_body (Item card.now)) }
{
    let name = card.name.as_bytes();
    let data = card.data.as_bytes();
    out.push_16(6 + (name.len() + data.len()) as u16);
    out.push_short(name);
    out.push_32(card.price.cents());
    out.push_short(data);
}

fn push_card(card: &Card, out: &mut RowBuf)
    requires { length out.old ≤ 8 }
    ensures { out.new ≡ out.old ++ sized (card_body card.now) }
{
    match card {
        Card::Warehouse(card) => push_name_and_tax(&card.name, card.tax, out),
        Card::District(card) => push_name_and_tax(&card.name, card.tax, out),
        Card::Customer(card) => push_customer(card, out),
        Card::Stock(card) => push_stock(card, out),
        Card::Item(card) => push_item(card, out),
    }
}

/// Replaces the buffer's content by the bytes of a card.
#[tactic(auto, unfolding(crate::specs::CardBytes::card_bytes))]
fn encode_card(key: &CardKey, card: &Card, out: &mut RowBuf)
    ensures { out.new ≡ card_bytes key.now card.now }
{
    out.clear();
    out.push_64(card_code(key));
    push_card(card, out);
}

impl Catalog {
    /// The digest of all cards, without allocating.
    pub fn digest(&self) -> [u8; 32]
        ensures { result ≡ catalog_digest self.now }
    {
        let mut buffer = RowBuf::new();
        let mut hasher = Sha256::new();
        for (key, card) in self.cards() {
            encode_card(key, card, &mut buffer);
            hasher.update(buffer.as_slice());
        }
        hasher.finalize()
    }
}
