//! The records of a generated database.
ghost use Rattle.std.specs.Prelude.{◌≡◌, ◌+◌, ◌<◌, ◌≤◌, ◌^◌, ◌++◌, IfOk, decimal, length, map};
ghost use Rattle.tpcc_rows.specs.Limits.{ten};
ghost use Rattle.tpcc_rows.specs.Texts.{ArePrintable};
ghost use Rattle.made_database.specs.Made.{long_note, made_credit, made_customer, made_data, made_district, made_info, made_item, made_note, made_stock, made_warehouse};

use catalog::card::{
    Credit, CustomerCard, DistrictCard, DistrictInfos, ItemCard, StockCard, WarehouseCard,
};
use image_records::image_record::ImageRecord;
use std::alloc::Global;
use tpcc_rows::id::{CustomerId, DistrictId, ItemId, OrderId, WarehouseId};
use tpcc_rows::memory::Memory;
use tpcc_rows::number::{Cents, Count, Price, Rate, StockQuantity};
use tpcc_rows::row::{CustomerRow, DistrictNextRow, DistrictYtdRow, StockRow, WarehouseRow};
use tpcc_rows::shared_text::SharedText;
use tpcc_rows::text::Text;

/// A word followed by a number.
fn numbered<const N: usize>(word: &[u8], number: u32) -> Text<N>
    requires printable { ArePrintable word.now }
    requires small { number < 10 ^ 9 }
    requires room { length word.now + 9 ≤ N }
    ensures { result ≡ word.now ++ decimal number }
{
    let mut text = Text::new();
    text.push_clipped(word);
    text.push_number(number);
    text
}

/// `W,w,name,tax,ytd`
#[tactic(auto, unfolding(crate::specs::Made::made_warehouse))]
pub(crate) fn made_warehouse(warehouse: WarehouseId) -> ImageRecord
    ensures { result ≡ made_warehouse warehouse }
{
    let card = WarehouseCard {
        warehouse,
        name: numbered(b"W", u32::from(warehouse.number())),
        tax: Rate::new(1_000).unwrap(),
    };
    let row = WarehouseRow {
        ytd: Cents::new(30_000_000).unwrap(),
    };
    ImageRecord::Warehouse { card, row }
}

/// `D,w,d,name,tax`, `Y,w,d,ytd` and `X,w,d,next` in one.
#[tactic(auto, unfolding(crate::specs::Made::made_district))]
pub(crate) fn made_district(warehouse: WarehouseId, district: DistrictId) -> ImageRecord
    ensures { result ≡ made_district warehouse district }
{
    let card = DistrictCard {
        warehouse,
        district,
        name: numbered(b"D", u32::from(district.number())),
        tax: Rate::new(500).unwrap(),
    };
    let ytd = DistrictYtdRow {
        ytd: Cents::new(3_000_000).unwrap(),
    };
    let next = DistrictNextRow {
        next_order: OrderId::new(1).unwrap(),
    };
    ImageRecord::WholeDistrict { card, ytd, next }
}

/// C_DATA of a customer with bad credit.
fn long_note() -> Text<500>
    ensures { result ≡ long_note }
{
    Text::from_start(&[b'x'; 500])
}

/// C_CREDIT.
fn made_credit(is_bad: bool) -> Credit
    ensures { result ≡ made_credit is_bad }
{
    if is_bad { Credit::Bad } else { Credit::Good }
}

/// C_DATA.
fn made_note(alloc: Global, is_bad: bool) -> Result<SharedText<500>, Memory>
    ensures { IfOk result (λ note. note ≡ made_note is_bad) }
{
    if is_bad {
        SharedText::new(alloc, &long_note())
    } else {
        Ok(SharedText::empty())
    }
}

/// `C,w,d,c,last,middle,first,credit,discount,balance,ytd_payment,payment_cnt,delivery_cnt,data`
#[tactic(auto, unfolding(crate::specs::Made::made_customer, tpcc_rows::specs::Texts::clip))]
pub(crate) fn made_customer(
    alloc: Global,
    warehouse: WarehouseId,
    district: DistrictId,
    customer: CustomerId,
) -> Result<ImageRecord, Memory>
    ensures { IfOk result (λ said. said ≡ made_customer warehouse district customer) }
{
    let number = u32::from(customer.number());
    let is_bad = number % 10 == 0;
    let card = CustomerCard {
        warehouse,
        district,
        customer,
        last: numbered(b"NAME", number % 10),
        middle: Text::from_start(b"OE"),
        first: numbered(b"F", 9 - number / 20 % 10),
        credit: made_credit(is_bad),
        discount: Rate::new(1_000).unwrap(),
    };
    let row = CustomerRow {
        balance: Cents::new(-1_000).unwrap(),
        ytd_payment: Cents::new(1_000).unwrap(),
        payment_count: Count::new(1).unwrap(),
        delivery_count: Count::new(0).unwrap(),
        data: made_note(alloc, is_bad)?,
    };
    Ok(ImageRecord::Customer { card, row })
}

/// I_DATA and S_DATA.
#[tactic(auto, unfolding(tpcc_rows::specs::Texts::clip))]
fn made_data(is_original: bool) -> Text<50>
    ensures { result ≡ made_data is_original }
{
    if is_original {
        Text::from_start(b"ORIGINAL")
    } else {
        Text::from_start(b"PLAIN")
    }
}

/// `I,i,name,price,data`
#[tactic(auto, unfolding(crate::specs::Made::made_item))]
pub(crate) fn made_item(item: ItemId) -> ImageRecord
    requires { item ≤ 100000 }
    ensures { result ≡ made_item item }
{
    let number = item.number();
    let card = ItemCard {
        item,
        name: numbered(b"ITEM", number),
        price: Price::new(100 * ((number - 1) % 100 + 1)).unwrap(),
        data: made_data(number % 10 == 0),
    };
    ImageRecord::Item { card }
}

/// One of S_DIST_01 to S_DIST_10.
#[tactic(auto, unfolding(crate::specs::Made::made_info))]
fn made_info(district: DistrictId) -> Text<24>
    ensures { result ≡ made_info district }
{
    let number = u32::from(district.number());
    let mut info = numbered(b"DIST", number / 10);
    info.push_number(number % 10);
    info
}

/// S_DIST_01 to S_DIST_10.
fn made_infos(alloc: Global) -> Result<DistrictInfos, Memory>
    ensures { IfOk result (λ infos. infos ≡ map made_info ten) }
{
    let mut infos: [Text<24>; 10] = Default::default();
    let districts = DistrictId::all();
    for place in 0..10 {
        infos[place] = made_info(districts[place]);
    }
    DistrictInfos::new(alloc, &infos)
}

/// `S,w,i,quantity,ytd,order_cnt,remote_cnt,data,dist01,..,dist10`
#[tactic(auto, unfolding(crate::specs::Made::made_stock))]
pub(crate) fn made_stock(
    alloc: Global,
    warehouse: WarehouseId,
    item: ItemId,
) -> Result<ImageRecord, Memory>
    ensures { IfOk result (λ said. said ≡ made_stock warehouse item) }
{
    let number = item.number();
    let none = Count::new(0).unwrap();
    let row = StockRow {
        quantity: StockQuantity::new(10 + (number % 91) as i16).unwrap(),
        ytd: none,
        order_count: none,
        remote_count: none,
    };
    let card = StockCard {
        warehouse,
        item,
        data: made_data(number % 20 == 0),
        district_infos: made_infos(alloc)?,
    };
    Ok(ImageRecord::Stock { card, row })
}
