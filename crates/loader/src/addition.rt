//! What a record adds to the cards and rows.
ghost use Rattle.image_records.specs.declared.image_record.ImageRecord.TheVariants as says;
ghost use Rattle.loader.specs.Additions.{IsSaidBy};

use catalog::card::{Card, CustomerCard, DistrictCard, StockCard, WarehouseCard};
use image_records::image_record::ImageRecord;
use tpcc_rows::id::{DistrictId, LineNumber, OrderId, WarehouseId};
use tpcc_rows::key::RowKey;
use tpcc_rows::row::{
    CustomerRow, DistrictNextRow, DistrictYtdRow, OrderLineRow, OrderRow, Row, StockRow,
    WarehouseRow,
};

/// A card, a row, a card with its row, or a district's card with its two rows.
#[derive(Drop)]
pub(crate) enum Addition {
    Card(Card),
    Row(RowKey, Row),
    Both(Card, RowKey, Row),
    WholeDistrict(DistrictCard, DistrictYtdRow, DistrictNextRow),
}

fn warehouse(card: WarehouseCard, row: WarehouseRow) -> Addition
    ensures { IsSaidBy (says.Warehouse card row) result }
{
    let key = RowKey::Warehouse {
        warehouse: card.warehouse,
    };
    Addition::Both(Card::Warehouse(card), key, Row::Warehouse(row))
}

fn district_ytd(warehouse: WarehouseId, district: DistrictId, row: DistrictYtdRow) -> Addition
    ensures { IsSaidBy (says.DistrictYtd warehouse district row) result }
{
    let key = RowKey::DistrictYtd {
        warehouse,
        district,
    };
    Addition::Row(key, Row::DistrictYtd(row))
}

fn district_next(warehouse: WarehouseId, district: DistrictId, row: DistrictNextRow) -> Addition
    ensures { IsSaidBy (says.DistrictNext warehouse district row) result }
{
    let key = RowKey::DistrictNext {
        warehouse,
        district,
    };
    Addition::Row(key, Row::DistrictNext(row))
}

fn customer(card: CustomerCard, row: CustomerRow) -> Addition
    ensures { IsSaidBy (says.Customer card row) result }
{
    let key = RowKey::Customer {
        warehouse: card.warehouse,
        district: card.district,
        customer: card.customer,
    };
    Addition::Both(Card::Customer(card), key, Row::Customer(row))
}

fn stock(card: StockCard, row: StockRow) -> Addition
    ensures { IsSaidBy (says.Stock card row) result }
{
    let key = RowKey::Stock {
        warehouse: card.warehouse,
        item: card.item,
    };
    Addition::Both(Card::Stock(card), key, Row::Stock(row))
}

fn order(warehouse: WarehouseId, district: DistrictId, order: OrderId, row: OrderRow) -> Addition
    ensures { IsSaidBy (says.Order warehouse district order row) result }
{
    let key = RowKey::Order {
        warehouse,
        district,
        order,
    };
    Addition::Row(key, Row::Order(row))
}

fn new_order(warehouse: WarehouseId, district: DistrictId, order: OrderId) -> Addition
    ensures { IsSaidBy (says.NewOrder warehouse district order) result }
{
    let key = RowKey::NewOrder {
        warehouse,
        district,
        order,
    };
    Addition::Row(key, Row::NewOrder)
}

fn order_line(
    warehouse: WarehouseId,
    district: DistrictId,
    order: OrderId,
    number: LineNumber,
    row: OrderLineRow,
) -> Addition
    ensures { IsSaidBy (says.OrderLine warehouse district order number row) result }
{
    let key = RowKey::OrderLine {
        warehouse,
        district,
        order,
        number,
    };
    Addition::Row(key, Row::OrderLine(row))
}

/// What a record adds.
pub(crate) fn addition_of(said: ImageRecord) -> Addition
    ensures { IsSaidBy said result }
{
    match said {
        ImageRecord::Warehouse { card, row } => warehouse(card, row),
        ImageRecord::District { card } => Addition::Card(Card::District(card)),
        ImageRecord::DistrictYtd {
            warehouse,
            district,
            row,
        } => district_ytd(warehouse, district, row),
        ImageRecord::DistrictNext {
            warehouse,
            district,
            row,
        } => district_next(warehouse, district, row),
        ImageRecord::WholeDistrict { card, ytd, next } => Addition::WholeDistrict(card, ytd, next),
        ImageRecord::Customer { card, row } => customer(card, row),
        ImageRecord::Item { card } => Addition::Card(Card::Item(card)),
        ImageRecord::Stock { card, row } => stock(card, row),
        ImageRecord::Order {
            warehouse,
            district,
            order: number,
            row,
        } => order(warehouse, district, number, row),
        ImageRecord::NewOrder {
            warehouse,
            district,
            order,
        } => new_order(warehouse, district, order),
        ImageRecord::OrderLine {
            warehouse,
            district,
            order,
            number,
            row,
        } => order_line(warehouse, district, order, number, row),
        ImageRecord::History { number, row } => {
            Addition::Row(RowKey::History { number }, Row::History(row))
        }
    }
}
