//! The records of an image between the first record and the end record.
ghost use Rattle.std.specs.Prelude.{◌≡◌};
ghost use Rattle.csv.specs.Records.{fields_of};
ghost use Rattle.image_records.specs.Faults.{Reads};
ghost use Rattle.image_records.specs.ImageRecords.{customer_fields, district_count, district_fields, district_next_fields, district_record_at, district_row_at, district_ytd_fields, history_fields, is_kind, item_fields, new_order_fields, order_fields, order_line_fields, record_at, row_record_at, stock_fields, warehouse_fields, whole_district_fields};

use crate::columns::{credit, district_infos};
use crate::record_fault::RecordFault;
use crate::version::Version;
use catalog::card::{CustomerCard, DistrictCard, ItemCard, StockCard, WarehouseCard};
use csv::ByteRecord;
use records::fault::FaultKind;
use records::fields::{
    amount, carrier_or_null, cents, count, customer, district, has_text, item, line_number,
    line_quantity, moment, moment_or_null, next_order, number_at, order, price, rate,
    request_number, stock_quantity, text, warehouse,
};
use std::alloc::Global;
use tpcc_rows::id::{DistrictId, LineNumber, OrderId, RequestNumber, WarehouseId};
use tpcc_rows::row::{
    CustomerRow, DistrictNextRow, DistrictYtdRow, HistoryRow, OrderLineRow, OrderRow, StockRow,
    WarehouseRow,
};
use tpcc_rows::shared_text::SharedText;

/// The contents of one record.
#[derive(Drop)]
pub enum ImageRecord {
    Warehouse {
        card: WarehouseCard,
        row: WarehouseRow,
    },
    District {
        card: DistrictCard,
    },
    DistrictYtd {
        warehouse: WarehouseId,
        district: DistrictId,
        row: DistrictYtdRow,
    },
    DistrictNext {
        warehouse: WarehouseId,
        district: DistrictId,
        row: DistrictNextRow,
    },
    /// A district's card and its two rows.
    WholeDistrict {
        card: DistrictCard,
        ytd: DistrictYtdRow,
        next: DistrictNextRow,
    },
    Customer {
        card: CustomerCard,
        row: CustomerRow,
    },
    Item {
        card: ItemCard,
    },
    Stock {
        card: StockCard,
        row: StockRow,
    },
    Order {
        warehouse: WarehouseId,
        district: DistrictId,
        order: OrderId,
        row: OrderRow,
    },
    NewOrder {
        warehouse: WarehouseId,
        district: DistrictId,
        order: OrderId,
    },
    OrderLine {
        warehouse: WarehouseId,
        district: DistrictId,
        order: OrderId,
        number: LineNumber,
        row: OrderLineRow,
    },
    History {
        number: RequestNumber,
        row: HistoryRow,
    },
}

/// `W,w,name,tax,ytd`
#[tactic(auto, unfolding(crate::specs::ImageRecords::warehouse_fields))]
fn warehouse_record(fields: &ByteRecord) -> Result<ImageRecord, FaultKind>
    ensures { result ≡ warehouse_fields (fields_of fields.now) }
{
    let card = WarehouseCard {
        warehouse: warehouse(fields, 1)?,
        name: text(fields, 2)?,
        tax: rate(fields, 3)?,
    };
    let row = WarehouseRow {
        ytd: cents(fields, 4)?,
    };
    Ok(ImageRecord::Warehouse { card, row })
}

/// `D,w,d,name,tax`
#[tactic(auto, unfolding(crate::specs::ImageRecords::district_fields))]
fn card_record(fields: &ByteRecord) -> Result<ImageRecord, FaultKind>
    ensures { result ≡ district_fields (fields_of fields.now) }
{
    let card = DistrictCard {
        warehouse: warehouse(fields, 1)?,
        district: district(fields, 2)?,
        name: text(fields, 3)?,
        tax: rate(fields, 4)?,
    };
    Ok(ImageRecord::District { card })
}

/// `D,w,d,name,tax,ytd,next`
#[tactic(auto, unfolding(crate::specs::ImageRecords::whole_district_fields))]
fn whole_district_record(fields: &ByteRecord) -> Result<ImageRecord, FaultKind>
    ensures { result ≡ whole_district_fields (fields_of fields.now) }
{
    let card = DistrictCard {
        warehouse: warehouse(fields, 1)?,
        district: district(fields, 2)?,
        name: text(fields, 3)?,
        tax: rate(fields, 4)?,
    };
    let ytd = DistrictYtdRow {
        ytd: cents(fields, 5)?,
    };
    let next = DistrictNextRow {
        next_order: next_order(fields, 6)?,
    };
    Ok(ImageRecord::WholeDistrict { card, ytd, next })
}

/// A district's record.
fn district_record(version: Version, fields: &ByteRecord) -> Result<ImageRecord, FaultKind>
    ensures { result ≡ district_record_at version (fields_of fields.now) }
{
    match version {
        Version::One => whole_district_record(fields),
        Version::Two => card_record(fields),
    }
}

/// The number of fields of a district's record.
fn district_count(version: Version) -> usize
    ensures { result ≡ district_count version }
{
    match version {
        Version::One => 7,
        Version::Two => 5,
    }
}

/// `Y,w,d,ytd`
#[tactic(auto, unfolding(crate::specs::ImageRecords::district_ytd_fields))]
fn district_ytd_record(fields: &ByteRecord) -> Result<ImageRecord, FaultKind>
    ensures { result ≡ district_ytd_fields (fields_of fields.now) }
{
    Ok(ImageRecord::DistrictYtd {
        warehouse: warehouse(fields, 1)?,
        district: district(fields, 2)?,
        row: DistrictYtdRow {
            ytd: cents(fields, 3)?,
        },
    })
}

/// `X,w,d,next`
#[tactic(auto, unfolding(crate::specs::ImageRecords::district_next_fields))]
fn district_next_record(fields: &ByteRecord) -> Result<ImageRecord, FaultKind>
    ensures { result ≡ district_next_fields (fields_of fields.now) }
{
    Ok(ImageRecord::DistrictNext {
        warehouse: warehouse(fields, 1)?,
        district: district(fields, 2)?,
        row: DistrictNextRow {
            next_order: next_order(fields, 3)?,
        },
    })
}

/// `C,w,d,c,last,middle,first,credit,discount,balance,ytd_payment,payment_cnt,delivery_cnt,data`
#[tactic(auto, unfolding(crate::specs::ImageRecords::customer_fields))]
fn customer_record(alloc: Global, fields: &ByteRecord) -> Result<ImageRecord, RecordFault>
    ensures { Reads (customer_fields (fields_of fields.now)) result }
{
    let card = CustomerCard {
        warehouse: warehouse(fields, 1)?,
        district: district(fields, 2)?,
        customer: customer(fields, 3)?,
        last: text(fields, 4)?,
        middle: text(fields, 5)?,
        first: text(fields, 6)?,
        credit: credit(fields, 7)?,
        discount: rate(fields, 8)?,
    };
    let row = CustomerRow {
        balance: cents(fields, 9)?,
        ytd_payment: cents(fields, 10)?,
        payment_count: count(fields, 11)?,
        delivery_count: count(fields, 12)?,
        data: SharedText::new(alloc, &text(fields, 13)?)?,
    };
    Ok(ImageRecord::Customer { card, row })
}

/// `I,i,name,price,data`
#[tactic(auto, unfolding(crate::specs::ImageRecords::item_fields))]
fn item_record(fields: &ByteRecord) -> Result<ImageRecord, FaultKind>
    ensures { result ≡ item_fields (fields_of fields.now) }
{
    let card = ItemCard {
        item: item(fields, 1)?,
        name: text(fields, 2)?,
        price: price(fields, 3)?,
        data: text(fields, 4)?,
    };
    Ok(ImageRecord::Item { card })
}

/// `S,w,i,quantity,ytd,order_cnt,remote_cnt,data,dist01,..,dist10`
#[tactic(auto, unfolding(crate::specs::ImageRecords::stock_fields))]
fn stock_record(alloc: Global, fields: &ByteRecord) -> Result<ImageRecord, RecordFault>
    ensures { Reads (stock_fields (fields_of fields.now)) result }
{
    let warehouse = warehouse(fields, 1)?;
    let item = item(fields, 2)?;
    let row = StockRow {
        quantity: stock_quantity(fields, 3)?,
        ytd: count(fields, 4)?,
        order_count: count(fields, 5)?,
        remote_count: count(fields, 6)?,
    };
    let card = StockCard {
        warehouse,
        item,
        data: text(fields, 7)?,
        district_infos: district_infos(alloc, fields, 8)?,
    };
    Ok(ImageRecord::Stock { card, row })
}

/// `O,w,d,o,c,entry,carrier,ol_cnt,all_local`
#[tactic(auto, unfolding(crate::specs::ImageRecords::order_fields))]
fn order_record(fields: &ByteRecord) -> Result<ImageRecord, FaultKind>
    ensures { result ≡ order_fields (fields_of fields.now) }
{
    Ok(ImageRecord::Order {
        warehouse: warehouse(fields, 1)?,
        district: district(fields, 2)?,
        order: order(fields, 3)?,
        row: OrderRow {
            customer: customer(fields, 4)?,
            entry: moment(fields, 5)?,
            carrier: carrier_or_null(fields, 6)?,
            line_count: line_number(fields, 7)?,
            all_local: number_at(fields, 8, 0, 1)? == 1,
        },
    })
}

/// `N,w,d,o`
#[tactic(auto, unfolding(crate::specs::ImageRecords::new_order_fields))]
fn new_order_record(fields: &ByteRecord) -> Result<ImageRecord, FaultKind>
    ensures { result ≡ new_order_fields (fields_of fields.now) }
{
    Ok(ImageRecord::NewOrder {
        warehouse: warehouse(fields, 1)?,
        district: district(fields, 2)?,
        order: order(fields, 3)?,
    })
}

/// `L,w,d,o,number,item,supply,delivery,quantity,amount,info`
#[tactic(auto, unfolding(crate::specs::ImageRecords::order_line_fields))]
fn order_line_record(fields: &ByteRecord) -> Result<ImageRecord, FaultKind>
    ensures { result ≡ order_line_fields (fields_of fields.now) }
{
    Ok(ImageRecord::OrderLine {
        warehouse: warehouse(fields, 1)?,
        district: district(fields, 2)?,
        order: order(fields, 3)?,
        number: line_number(fields, 4)?,
        row: OrderLineRow {
            item: item(fields, 5)?,
            supply: warehouse(fields, 6)?,
            delivery: moment_or_null(fields, 7)?,
            quantity: line_quantity(fields, 8)?,
            amount: amount(fields, 9)?,
            district_info: text(fields, 10)?,
        },
    })
}

/// `H,number,c,cd,cw,d,w,date,amount,data`
#[tactic(auto, unfolding(crate::specs::ImageRecords::history_fields))]
fn history_record(fields: &ByteRecord) -> Result<ImageRecord, FaultKind>
    ensures { result ≡ history_fields (fields_of fields.now) }
{
    let number = request_number(fields, 1)?;
    let row = HistoryRow {
        customer: customer(fields, 2)?,
        customer_district: district(fields, 3)?,
        customer_warehouse: warehouse(fields, 4)?,
        district: district(fields, 5)?,
        warehouse: warehouse(fields, 6)?,
        date: moment(fields, 7)?,
        amount: amount(fields, 8)?,
        data: text(fields, 9)?,
    };
    Ok(ImageRecord::History { number, row })
}

/// Whether a record's first field is `kind`; if so it must have `count` fields.
fn is_kind(fields: &ByteRecord, kind: &[u8], count: usize) -> Result<bool, FaultKind>
    ensures { result ≡ is_kind kind.now count (fields_of fields.now) }
{
    if !has_text(fields, 0, kind) {
        return Ok(false);
    }
    if fields.len() != count {
        return Err(FaultKind::WrongCount);
    }
    Ok(true)
}

/// The record of a district's row, which only version 2 has.
fn district_row_record(version: Version, fields: &ByteRecord) -> Result<ImageRecord, FaultKind>
    ensures { result ≡ district_row_at version (fields_of fields.now) }
{
    match version {
        Version::One => return Err(FaultKind::UnknownKind),
        Version::Two => {}
    }
    if is_kind(fields, b"Y", 4)? {
        return district_ytd_record(fields);
    }
    if is_kind(fields, b"X", 4)? {
        return district_next_record(fields);
    }
    Err(FaultKind::UnknownKind)
}

/// The record of a row that has no card.
fn row_record(version: Version, fields: &ByteRecord) -> Result<ImageRecord, FaultKind>
    ensures { result ≡ row_record_at version (fields_of fields.now) }
{
    if is_kind(fields, b"O", 9)? {
        return order_record(fields);
    }
    if is_kind(fields, b"N", 4)? {
        return new_order_record(fields);
    }
    if is_kind(fields, b"L", 11)? {
        return order_line_record(fields);
    }
    if is_kind(fields, b"H", 10)? {
        return history_record(fields);
    }
    district_row_record(version, fields)
}

/// A record that is neither the first nor the end record.
pub fn image_record(
    alloc: Global,
    version: Version,
    fields: &ByteRecord,
) -> Result<ImageRecord, RecordFault>
    ensures { Reads (record_at version (fields_of fields.now)) result }
{
    if is_kind(fields, b"W", 5)? {
        return Ok(warehouse_record(fields)?);
    }
    if is_kind(fields, b"D", district_count(version))? {
        return Ok(district_record(version, fields)?);
    }
    if is_kind(fields, b"C", 14)? {
        return customer_record(alloc, fields);
    }
    if is_kind(fields, b"I", 5)? {
        return Ok(item_record(fields)?);
    }
    if is_kind(fields, b"S", 18)? {
        return stock_record(alloc, fields);
    }
    Ok(row_record(version, fields)?)
}
