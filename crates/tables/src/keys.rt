//! The key of a rank.
ghost use Rattle.std.specs.Prelude.{◌≡◌};
ghost use Rattle.tables.specs.Keys.{customer_at, district_next_at, district_of, district_ytd_at, history_at, key_at, line_at, new_order_at, number_in, order_at, order_of, stock_at, warehouse_at, warehouse_of};

use tpcc_rows::id::{
    CustomerId, DistrictId, ItemId, LineNumber, OrderId, RequestNumber, WarehouseId,
};
use tpcc_rows::key::RowKey;

/// The number of places of ranks, one for each warehouse and district.
pub const PLACES: usize = 2048;

fn warehouse_of(number: u64) -> Option<WarehouseId>
    ensures { result ≡ warehouse_of number }
{
    WarehouseId::new((number / 4_294_967_296 % 256) as u8)
}

fn district_of(number: u64) -> Option<DistrictId>
    ensures { result ≡ district_of number }
{
    DistrictId::new((number / 268_435_456 % 16) as u8)
}

/// The number in the rank of an order, a new order or an order line.
pub(crate) fn number_of(rank: u64) -> u32
    ensures { result ≡ number_in rank }
{
    (rank / 16 % 16_777_216) as u32
}

/// The order of the rank of an order, a new order or an order line.
pub fn order_of(number: u64) -> Option<OrderId>
    ensures { result ≡ order_of number }
{
    OrderId::new(number_of(number))
}

#[tactic(auto, unfolding(crate::specs::Keys::warehouse_at))]
fn warehouse_at(number: u64) -> Option<RowKey>
    ensures { result ≡ warehouse_at number }
{
    let warehouse = warehouse_of(number)?;
    Some(RowKey::Warehouse { warehouse })
}

#[tactic(auto, unfolding(crate::specs::Keys::customer_at))]
fn customer_at(number: u64) -> Option<RowKey>
    ensures { result ≡ customer_at number }
{
    let warehouse = warehouse_of(number)?;
    let district = district_of(number)?;
    let customer = CustomerId::new((number / 16 % 16_777_216 % 65_536) as u16)?;
    Some(RowKey::Customer {
        warehouse,
        district,
        customer,
    })
}

#[tactic(auto, unfolding(crate::specs::Keys::stock_at))]
fn stock_at(number: u64) -> Option<RowKey>
    ensures { result ≡ stock_at number }
{
    let warehouse = warehouse_of(number)?;
    let item = ItemId::new((number / 16 % 16_777_216) as u32)?;
    Some(RowKey::Stock { warehouse, item })
}

#[tactic(auto, unfolding(crate::specs::Keys::order_at))]
fn order_at(number: u64) -> Option<RowKey>
    ensures { result ≡ order_at number }
{
    let warehouse = warehouse_of(number)?;
    let district = district_of(number)?;
    let order = order_of(number)?;
    Some(RowKey::Order {
        warehouse,
        district,
        order,
    })
}

#[tactic(auto, unfolding(crate::specs::Keys::new_order_at))]
fn new_order_at(number: u64) -> Option<RowKey>
    ensures { result ≡ new_order_at number }
{
    let warehouse = warehouse_of(number)?;
    let district = district_of(number)?;
    let order = order_of(number)?;
    Some(RowKey::NewOrder {
        warehouse,
        district,
        order,
    })
}

#[tactic(auto, unfolding(crate::specs::Keys::line_at))]
fn line_at(number: u64) -> Option<RowKey>
    ensures { result ≡ line_at number }
{
    let warehouse = warehouse_of(number)?;
    let district = district_of(number)?;
    let order = order_of(number)?;
    let line = LineNumber::new((number % 16) as u8)?;
    Some(RowKey::OrderLine {
        warehouse,
        district,
        order,
        number: line,
    })
}

#[tactic(auto, unfolding(crate::specs::Keys::history_at))]
fn history_at(number: u64) -> Option<RowKey>
    ensures { result ≡ history_at number }
{
    let number = RequestNumber::new(number % 0x0100_0000_0000_0000)?;
    Some(RowKey::History { number })
}

#[tactic(auto, unfolding(crate::specs::Keys::district_ytd_at))]
fn district_ytd_at(number: u64) -> Option<RowKey>
    ensures { result ≡ district_ytd_at number }
{
    let warehouse = warehouse_of(number)?;
    let district = district_of(number)?;
    Some(RowKey::DistrictYtd {
        warehouse,
        district,
    })
}

#[tactic(auto, unfolding(crate::specs::Keys::district_next_at))]
fn district_next_at(number: u64) -> Option<RowKey>
    ensures { result ≡ district_next_at number }
{
    let warehouse = warehouse_of(number)?;
    let district = district_of(number)?;
    Some(RowKey::DistrictNext {
        warehouse,
        district,
    })
}

/// The key of a rank, if it has one.
#[tactic(auto, unfolding(crate::specs::Keys::key_at))]
pub fn key_at(number: u64) -> Option<RowKey>
    ensures { result ≡ key_at number }
{
    match number / 0x0100_0000_0000_0000 {
        1 => warehouse_at(number),
        3 => customer_at(number),
        4 => stock_at(number),
        5 => order_at(number),
        6 => new_order_at(number),
        7 => line_at(number),
        8 => history_at(number),
        9 => district_ytd_at(number),
        10 => district_next_at(number),
        _ => None,
    }
}
