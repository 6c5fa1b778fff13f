//! The rank of a key: a number that ascends with the keys, so that keys compare as numbers.
ghost use Rattle.std.specs.Prelude.{◌≡◌, ◌<◌, ◌≤◌, ◌^◌};
ghost use Rattle.tpcc_rows.specs.Ranks.{IsDistrict, IsNumbered, IsOrder, columns, rank};
ghost use Rattle.tpcc_rows.specs.declared.key.RowKey.TheVariants.{Customer, DistrictNext, DistrictYtd, NewOrder, Order, OrderLine, Stock, Warehouse};

use crate::id::{CustomerId, DistrictId, ItemId, LineNumber, OrderId, WarehouseId};
use crate::key::RowKey;

/// The columns, concatenated. 0 stands for a column that the kind lacks.
fn columns(warehouse: u64, district: u64, number: u64, line: u64) -> u64
    requires warehouse { warehouse ≤ 100 }
    requires district { district < 2 ^ 4 }
    requires number { number < 2 ^ 24 }
    requires line { line < 2 ^ 4 }
    ensures value { result ≡ columns warehouse district number line }
    ensures small { result < 2 ^ 56 }
{
    ((warehouse * 16 + district) * 16_777_216 + number) * 16 + line
}

fn district_columns(warehouse: WarehouseId, district: DistrictId) -> u64
    ensures value { result ≡ columns warehouse district 0 0 }
    ensures limits { IsDistrict warehouse district }
    ensures small { result < 2 ^ 56 }
{
    columns(
        u64::from(warehouse.number()),
        u64::from(district.number()),
        0,
        0,
    )
}

fn order_columns(warehouse: WarehouseId, district: DistrictId, order: OrderId) -> u64
    ensures value { result ≡ columns warehouse district order 0 }
    ensures limits { IsOrder warehouse district order }
    ensures small { result < 2 ^ 56 }
{
    let warehouse = u64::from(warehouse.number());
    let district = u64::from(district.number());
    columns(warehouse, district, u64::from(order.number()), 0)
}

/// The rank of a warehouse's key.
pub fn warehouse_rank(warehouse: WarehouseId) -> u64
    ensures value { result ≡ rank (Warehouse warehouse) }
    ensures limits { IsNumbered (Warehouse warehouse) }
{
    0x0100_0000_0000_0000 + columns(u64::from(warehouse.number()), 0, 0, 0)
}

/// The rank of a customer's key.
pub fn customer_rank(warehouse: WarehouseId, district: DistrictId, customer: CustomerId) -> u64
    ensures value { result ≡ rank (Customer warehouse district customer) }
    ensures limits { IsNumbered (Customer warehouse district customer) }
{
    let warehouse = u64::from(warehouse.number());
    let district = u64::from(district.number());
    let customer = u64::from(customer.number());
    0x0300_0000_0000_0000 + columns(warehouse, district, customer, 0)
}

/// The rank of a stock's key.
pub fn stock_rank(warehouse: WarehouseId, item: ItemId) -> u64
    ensures value { result ≡ rank (Stock warehouse item) }
    ensures limits { IsNumbered (Stock warehouse item) }
{
    let number = u64::from(item.number());
    0x0400_0000_0000_0000 + columns(u64::from(warehouse.number()), 0, number, 0)
}

/// The rank of an order's key.
pub fn order_rank(warehouse: WarehouseId, district: DistrictId, order: OrderId) -> u64
    ensures value { result ≡ rank (Order warehouse district order) }
    ensures limits { IsNumbered (Order warehouse district order) }
{
    0x0500_0000_0000_0000 + order_columns(warehouse, district, order)
}

/// The rank of a new order's key.
pub fn new_order_rank(warehouse: WarehouseId, district: DistrictId, order: OrderId) -> u64
    ensures value { result ≡ rank (NewOrder warehouse district order) }
    ensures limits { IsNumbered (NewOrder warehouse district order) }
{
    0x0600_0000_0000_0000 + order_columns(warehouse, district, order)
}

/// The rank of an order line's key.
pub fn line_rank(
    warehouse: WarehouseId,
    district: DistrictId,
    order: OrderId,
    number: LineNumber,
) -> u64
    ensures value { result ≡ rank (OrderLine warehouse district order number) }
    ensures limits { IsNumbered (OrderLine warehouse district order number) }
{
    let line = u64::from(number.number());
    0x0700_0000_0000_0000 + order_columns(warehouse, district, order) + line
}

/// The rank of the key of a district's year to date.
pub fn district_ytd_rank(warehouse: WarehouseId, district: DistrictId) -> u64
    ensures value { result ≡ rank (DistrictYtd warehouse district) }
    ensures limits { IsNumbered (DistrictYtd warehouse district) }
{
    0x0900_0000_0000_0000 + district_columns(warehouse, district)
}

/// The rank of the key of a district's next order.
pub fn district_next_rank(warehouse: WarehouseId, district: DistrictId) -> u64
    ensures value { result ≡ rank (DistrictNext warehouse district) }
    ensures limits { IsNumbered (DistrictNext warehouse district) }
{
    0x0A00_0000_0000_0000 + district_columns(warehouse, district)
}

/// The rank of a key: its kind in the first byte, then the columns.
pub fn rank(key: &RowKey) -> u64
    ensures value { result ≡ rank key.now }
    ensures limits { IsNumbered key.now }
{
    match *key {
        RowKey::Warehouse { warehouse } => warehouse_rank(warehouse),
        RowKey::Customer {
            warehouse,
            district,
            customer,
        } => customer_rank(warehouse, district, customer),
        RowKey::Stock { warehouse, item } => stock_rank(warehouse, item),
        RowKey::Order {
            warehouse,
            district,
            order,
        } => order_rank(warehouse, district, order),
        RowKey::NewOrder {
            warehouse,
            district,
            order,
        } => new_order_rank(warehouse, district, order),
        RowKey::OrderLine {
            warehouse,
            district,
            order,
            number,
        } => line_rank(warehouse, district, order, number),
        RowKey::History { number } => 0x0800_0000_0000_0000 + number.number(),
        RowKey::DistrictYtd {
            warehouse,
            district,
        } => district_ytd_rank(warehouse, district),
        RowKey::DistrictNext {
            warehouse,
            district,
        } => district_next_rank(warehouse, district),
    }
}
