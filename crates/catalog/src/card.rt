//! The cards and their keys (TPC-C clause 1.3; the split into fixed and moving columns by clause 1.4).
ghost use Rattle.std.specs.Prelude.{◌≡◌, ◌+◌, ◌<◌, ◌≤◌, ◌++◌, [], All, IfOk, OnOk, length, option_copied, slice_index_or};
ghost use Rattle.catalog.specs.CardKinds.{as_customer, as_district, as_item, as_stock, as_warehouse, card_key};
ghost use Rattle.catalog.specs.Infos.{ArePacked, padded};
ghost use Rattle.catalog.specs.StockCards.{district_info};
ghost use Rattle.tpcc_rows.specs.Texts.{ArePrintable, IsPadded, IsText, before_zeros};

use std::alloc::Global;
use std::marker::Model;
use tpcc_rows::id::{CustomerId, DistrictId, ItemId, WarehouseId};
use tpcc_rows::memory::Memory;
use tpcc_rows::number::{Price, Rate};
use tpcc_rows::text::Text;

/// The key of a card. The derived order is that of the codes: the kind first, then the columns from the left.
#[derive(Clone, Copy, PartialEq, Eq, PartialOrd, Ord)]
pub enum CardKey {
    Warehouse {
        warehouse: WarehouseId,
    },
    District {
        warehouse: WarehouseId,
        district: DistrictId,
    },
    Customer {
        warehouse: WarehouseId,
        district: DistrictId,
        customer: CustomerId,
    },
    Stock {
        warehouse: WarehouseId,
        item: ItemId,
    },
    Item {
        item: ItemId,
    },
}

/// C_CREDIT.
#[derive(Clone, Copy, PartialEq, Eq)]
pub enum Credit {
    /// `GC`
    Good,
    /// `BC`
    Bad,
}

/// W_NAME and W_TAX.
#[derive(Drop)]
pub struct WarehouseCard {
    pub warehouse: WarehouseId,
    pub name: Text<10>,
    pub tax: Rate,
}

/// D_NAME and D_TAX.
#[derive(Drop)]
pub struct DistrictCard {
    pub warehouse: WarehouseId,
    pub district: DistrictId,
    pub name: Text<10>,
    pub tax: Rate,
}

/// C_LAST, C_MIDDLE, C_FIRST, C_CREDIT and C_DISCOUNT.
#[derive(Drop)]
pub struct CustomerCard {
    pub warehouse: WarehouseId,
    pub district: DistrictId,
    pub customer: CustomerId,
    pub last: Text<16>,
    pub middle: Text<2>,
    pub first: Text<16>,
    pub credit: Credit,
    pub discount: Rate,
}

/// The number of a warehouse's districts.
const DISTRICTS: usize = 10;

/// The least width of the ten texts.
const SHORT: usize = 8;

/// The length of a text, unless it is short. A short text and a full one are known by one byte.
fn width_needed(text: &Text<24>) -> usize
    ensures enough { IsText result text.now }
    ensures fits { result ≤ 24 }
{
    let padded = text.as_padded();
    if padded[SHORT] == 0 {
        SHORT
    } else if text.is_full() {
        text.capacity()
    } else {
        text.as_bytes().len()
    }
}

/// The width for these texts: the length of the longest, unless all are short.
fn width_for(texts: &[Text<24>]) -> usize
    ensures bound { All (IsText result) texts.now }
    ensures fits { result ≤ 24 }
{
    let mut width = SHORT;
    for text in texts {
        width = width.max(width_needed(text));
    }
    width
}

/// Appends the text, and zeros up to the width.
fn push_padded(texts: &mut Vec<u8>, text: &Text<24>, width: usize) -> Result<(), Memory>
    requires fits { length text.now ≤ width }
    requires most { width ≤ 24 }
    ensures { OnOk result (texts.new.items ≡ texts.old.items ++ padded width text.now) }
{
    texts.extend_from_slice(&text.as_padded()[..width])?;
    Ok(())
}

/// The texts, padded to one width.
fn packed(alloc: Global, texts: &[Text<24>; 10]) -> Result<Vec<u8>, Memory>
    ensures { IfOk result (λ packed. ArePacked texts.now packed.items) }
{
    let width = width_for(texts);
    let mut packed = Vec::with_capacity(alloc, DISTRICTS * width)?;
    for text in texts {
        push_padded(&mut packed, text, width)?;
    }
    Ok(packed)
}

/// The bytes of a text before the zeros that pad it. A text that nothing pads is known by its last byte.
fn unpadded(padded: &[u8]) -> &[u8]
    requires { IsPadded (length padded.now) padded.now }
    ensures { result.now ≡ before_zeros padded.now }
{
    match padded.last() {
        Some(0) => &padded[..padded.partition_point(|byte| *byte != 0)],
        _ => padded,
    }
}

/// S_DIST_01 to S_DIST_10, a text for each district of the stock's warehouse.
#[derive(Drop)]
pub struct DistrictInfos {
    /// The texts one after another, each with zeros up to their width.
    texts: Vec<u8>,
}

impl Model for DistrictInfos {
    ghost use Rattle.std.specs.Prelude.{ℕ, List};
    ghost use Rattle.catalog.specs.Infos.{AreTexts, texts_of};

    ghost Value = { List (List ℕ) };

    ghost view = { λ infos. texts_of infos.texts.items };

    ghost invariant = { λ infos. AreTexts infos.texts.items };
}

impl DistrictInfos {
    /// The texts of the ten districts in order.
    pub fn new(alloc: Global, infos: &[Text<24>; 10]) -> Result<DistrictInfos, Memory>
        ensures { IfOk result (λ new. new ≡ infos.now) }
    {
        Ok(DistrictInfos {
            texts: packed(alloc, infos)?,
        })
    }

    /// The number of texts.
    pub fn len(&self) -> usize
        ensures value { result ≡ length self.now }
        ensures ten { result ≡ 10 }
    {
        let _ = &self.texts;
        DISTRICTS
    }

    /// The text at a place, of which the first is 0, with its zeros.
    fn padded_at(&self, place: usize) -> &[u8]
        requires { place < 10 }
        ensures value { before_zeros result.now ≡ slice_index_or self.now place [] }
        ensures padded { IsPadded (length result.now) result.now }
        ensures fits { length result.now ≤ 24 }
    {
        let width = self.texts.len() / DISTRICTS;
        let start = place * width;
        &self.texts[start..start + width]
    }

    /// The text at a place, of which the first is 0.
    pub fn bytes_at(&self, place: usize) -> &[u8]
        requires { place < 10 }
        ensures value { result.now ≡ slice_index_or self.now place [] }
        ensures fits { length result.now ≤ 24 }
        ensures printable { ArePrintable result.now }
    {
        unpadded(self.padded_at(place))
    }

    /// A copy of the text at a place. Texts of the least and the greatest width are copied as arrays, which is fastest.
    fn text_at(&self, place: usize) -> Text<24>
        requires { place < 10 }
        ensures { result ≡ slice_index_or self.now place [] }
    {
        let padded = self.padded_at(place);
        if let Some(short) = padded.as_array::<SHORT>() {
            return Text::from_padded(short).widened();
        }
        match padded.as_array() {
            Some(long) => Text::from_padded(long),
            None => Text::from_start(unpadded(padded)),
        }
    }
}

/// S_DATA and S_DIST_01 to S_DIST_10.
#[derive(Drop)]
pub struct StockCard {
    pub warehouse: WarehouseId,
    pub item: ItemId,
    pub data: Text<50>,
    pub district_infos: DistrictInfos,
}

impl StockCard {
    /// A copy of S_DIST_nn of the district.
    pub fn district_info(&self, district: DistrictId) -> Text<24>
        ensures { result ≡ district_info self.now district }
    {
        self.district_infos
            .text_at(usize::from(district.number()) - 1)
    }
}

/// I_NAME, I_PRICE and I_DATA.
#[derive(Drop)]
pub struct ItemCard {
    pub item: ItemId,
    pub name: Text<24>,
    pub price: Price,
    pub data: Text<50>,
}

/// A card of one of the kinds, which carries its key.
#[derive(Drop)]
pub enum Card {
    Warehouse(WarehouseCard),
    District(DistrictCard),
    Customer(CustomerCard),
    Stock(StockCard),
    Item(ItemCard),
}

impl Card {
    pub fn key(&self) -> CardKey
        ensures { result ≡ card_key self.now }
    {
        match self {
            Card::Warehouse(card) => CardKey::Warehouse {
                warehouse: card.warehouse,
            },
            Card::District(card) => CardKey::District {
                warehouse: card.warehouse,
                district: card.district,
            },
            Card::Customer(card) => CardKey::Customer {
                warehouse: card.warehouse,
                district: card.district,
                customer: card.customer,
            },
            Card::Stock(card) => CardKey::Stock {
                warehouse: card.warehouse,
                item: card.item,
            },
            Card::Item(card) => CardKey::Item { item: card.item },
        }
    }

    pub fn as_warehouse(&self) -> Option<&WarehouseCard>
        ensures { option_copied result ≡ as_warehouse self.now }
    {
        match self {
            Card::Warehouse(card) => Some(card),
            _ => None,
        }
    }

    pub fn as_district(&self) -> Option<&DistrictCard>
        ensures { option_copied result ≡ as_district self.now }
    {
        match self {
            Card::District(card) => Some(card),
            _ => None,
        }
    }

    pub fn as_customer(&self) -> Option<&CustomerCard>
        ensures { option_copied result ≡ as_customer self.now }
    {
        match self {
            Card::Customer(card) => Some(card),
            _ => None,
        }
    }

    pub fn as_stock(&self) -> Option<&StockCard>
        ensures { option_copied result ≡ as_stock self.now }
    {
        match self {
            Card::Stock(card) => Some(card),
            _ => None,
        }
    }

    pub fn as_item(&self) -> Option<&ItemCard>
        ensures { option_copied result ≡ as_item self.now }
    {
        match self {
            Card::Item(card) => Some(card),
            _ => None,
        }
    }
}
