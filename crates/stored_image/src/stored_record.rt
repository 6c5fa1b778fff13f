//! Writes the records of an image.
ghost use Rattle.std.specs.Prelude.{◌≡◌, ◌∷◌, [], IfOk, OnOk, Some, None, if◌then◌else◌, map, option_map};
ghost use Rattle.catalog.specs.StockCards.{district_info};
ghost use Rattle.csv.specs.Records.{fields_of, partial_of};
ghost use Rattle.records.specs.Spelling.{AddsFields};
ghost use Rattle.tpcc_rows.specs.Limits.{ten};
ghost use Rattle.tpcc_rows.specs.References.{row_of};
ghost use Rattle.stored_image.specs.StoredImage.{card_said, row_said, said_at};
ghost use Rattle.stored_image.specs.declared.stored_record.RowPart.TheVariants as row_part;
ghost use Rattle.stored_image.specs.StoredRecords.{credit_text, written_customer, written_district, written_district_next, written_district_ytd, written_end, written_first, written_history, written_item, written_new_order, written_order, written_order_line, written_record, written_stock, written_warehouse};

use catalog::card::{Card, Credit, CustomerCard, DistrictCard, ItemCard, StockCard, WarehouseCard};
use csv::ByteRecord;
use records::record_text::{push, push_number, push_number_or_dash, push_signed};
use row_store::PointedStore;
use tpcc_rows::id::{DistrictId, LineNumber, OrderId, RequestNumber, WarehouseId};
use tpcc_rows::key::RowKey;
use tpcc_rows::memory::Memory;
use tpcc_rows::row::{
    CustomerRow, DistrictNextRow, DistrictYtdRow, HistoryRow, OrderLineRow, OrderRow, StockRow,
    WarehouseRow,
};
use tpcc_rows::row_ref::RowRef;

/// Groups of rows as they follow each other in an image: unlike in key order, the districts' rows come first.
#[derive(Clone, Copy)]
pub enum RowPart {
    /// The districts' rows.
    Districts,
    /// The orders, the new orders, the order lines and the history.
    Others,
}

/// Begins a record of the given kind.
fn begin(fields: &mut ByteRecord, kind: &[u8]) -> Result<(), Memory>
    ensures kind { OnOk result (fields_of fields.new ≡ kind.now ∷ []) }
    ensures whole { OnOk result (partial_of fields.new ≡ []) }
{
    fields.clear();
    push(fields, kind)
}

/// `W,w,name,tax,ytd`
#[tactic(auto, unfolding(crate::specs::StoredRecords::written_warehouse))]
fn write_warehouse(
    fields: &mut ByteRecord,
    card: &WarehouseCard,
    row: &WarehouseRow,
) -> Result<(), Memory>
    ensures { OnOk result (fields_of fields.new ≡ written_warehouse card.now row.now) }
{
    begin(fields, b"W")?;
    push_number(fields, u64::from(card.warehouse.number()))?;
    push(fields, card.name.as_bytes())?;
    push_number(fields, u64::from(card.tax.value()))?;
    push_signed(fields, row.ytd.amount())
}

/// `D,w,d,name,tax`
#[tactic(auto, unfolding(crate::specs::StoredRecords::written_district))]
fn write_district(fields: &mut ByteRecord, card: &DistrictCard) -> Result<(), Memory>
    ensures { OnOk result (fields_of fields.new ≡ written_district card.now) }
{
    begin(fields, b"D")?;
    push_number(fields, u64::from(card.warehouse.number()))?;
    push_number(fields, u64::from(card.district.number()))?;
    push(fields, card.name.as_bytes())?;
    push_number(fields, u64::from(card.tax.value()))
}

/// `Y,w,d,ytd`
#[tactic(auto, unfolding(crate::specs::StoredRecords::written_district_ytd))]
fn write_district_ytd(
    fields: &mut ByteRecord,
    warehouse: WarehouseId,
    district: DistrictId,
    row: &DistrictYtdRow,
) -> Result<(), Memory>
    ensures { OnOk result (fields_of fields.new ≡ written_district_ytd warehouse district row.now) }
{
    begin(fields, b"Y")?;
    push_number(fields, u64::from(warehouse.number()))?;
    push_number(fields, u64::from(district.number()))?;
    push_signed(fields, row.ytd.amount())
}

/// `X,w,d,next`
#[tactic(auto, unfolding(crate::specs::StoredRecords::written_district_next))]
fn write_district_next(
    fields: &mut ByteRecord,
    warehouse: WarehouseId,
    district: DistrictId,
    row: &DistrictNextRow,
) -> Result<(), Memory>
    ensures { OnOk result (fields_of fields.new ≡ written_district_next warehouse district row.now) }
{
    begin(fields, b"X")?;
    push_number(fields, u64::from(warehouse.number()))?;
    push_number(fields, u64::from(district.number()))?;
    push_number(fields, u64::from(row.next_order.number()))
}

fn credit_text(credit: Credit) -> &'static [u8]
    ensures { result.now ≡ credit_text credit }
{
    match credit {
        Credit::Good => b"GC",
        Credit::Bad => b"BC",
    }
}

/// `C,w,d,c,last,middle,first,credit,discount,balance,ytd_payment,payment_cnt,delivery_cnt,data`
#[tactic(auto, unfolding(crate::specs::StoredRecords::written_customer))]
fn write_customer(
    fields: &mut ByteRecord,
    card: &CustomerCard,
    row: &CustomerRow,
) -> Result<(), Memory>
    ensures { OnOk result (fields_of fields.new ≡ written_customer card.now row.now) }
{
    begin(fields, b"C")?;
    push_number(fields, u64::from(card.warehouse.number()))?;
    push_number(fields, u64::from(card.district.number()))?;
    push_number(fields, u64::from(card.customer.number()))?;
    push(fields, card.last.as_bytes())?;
    push(fields, card.middle.as_bytes())?;
    push(fields, card.first.as_bytes())?;
    push(fields, credit_text(card.credit))?;
    push_number(fields, u64::from(card.discount.value()))?;
    push_signed(fields, row.balance.amount())?;
    push_signed(fields, row.ytd_payment.amount())?;
    push_number(fields, u64::from(row.payment_count.value()))?;
    push_number(fields, u64::from(row.delivery_count.value()))?;
    push(fields, row.data.as_bytes())
}

/// `I,i,name,price,data`
#[tactic(auto, unfolding(crate::specs::StoredRecords::written_item))]
fn write_item(fields: &mut ByteRecord, card: &ItemCard) -> Result<(), Memory>
    ensures { OnOk result (fields_of fields.new ≡ written_item card.now) }
{
    begin(fields, b"I")?;
    push_number(fields, u64::from(card.item.number()))?;
    push(fields, card.name.as_bytes())?;
    push_number(fields, u64::from(card.price.cents()))?;
    push(fields, card.data.as_bytes())
}

/// S_DIST_01 to S_DIST_10.
fn push_district_infos(fields: &mut ByteRecord, card: &StockCard) -> Result<(), Memory>
    requires { partial_of fields.old ≡ [] }
    ensures { OnOk result (AddsFields fields.old fields.new (map (district_info card.now) ten)) }
{
    for district in &DistrictId::all() {
        push(fields, card.district_info(*district).as_bytes())?;
    }
    Ok(())
}

/// `S,w,i,quantity,ytd,order_cnt,remote_cnt,data,dist01,..,dist10`
#[tactic(auto, unfolding(crate::specs::StoredRecords::written_stock))]
fn write_stock(fields: &mut ByteRecord, card: &StockCard, row: &StockRow) -> Result<(), Memory>
    ensures { OnOk result (fields_of fields.new ≡ written_stock card.now row.now) }
{
    begin(fields, b"S")?;
    push_number(fields, u64::from(card.warehouse.number()))?;
    push_number(fields, u64::from(card.item.number()))?;
    push_signed(fields, i64::from(row.quantity.value()))?;
    push_number(fields, u64::from(row.ytd.value()))?;
    push_number(fields, u64::from(row.order_count.value()))?;
    push_number(fields, u64::from(row.remote_count.value()))?;
    push(fields, card.data.as_bytes())?;
    push_district_infos(fields, card)
}

/// `O,w,d,o,c,entry,carrier,ol_cnt,all_local`
#[tactic(auto, unfolding(crate::specs::StoredRecords::written_order))]
fn write_order(
    fields: &mut ByteRecord,
    warehouse: WarehouseId,
    district: DistrictId,
    order: OrderId,
    row: &OrderRow,
) -> Result<(), Memory>
    ensures { OnOk result (fields_of fields.new ≡ written_order warehouse district order row.now) }
{
    let carrier = row.carrier.map(|carrier| u64::from(carrier.number()));
    begin(fields, b"O")?;
    push_number(fields, u64::from(warehouse.number()))?;
    push_number(fields, u64::from(district.number()))?;
    push_number(fields, u64::from(order.number()))?;
    push_number(fields, u64::from(row.customer.number()))?;
    push_number(fields, row.entry.seconds())?;
    push_number_or_dash(fields, carrier)?;
    push_number(fields, u64::from(row.line_count.number()))?;
    push_number(fields, u64::from(row.all_local))
}

/// `N,w,d,o`
#[tactic(auto, unfolding(crate::specs::StoredRecords::written_new_order))]
fn write_new_order(
    fields: &mut ByteRecord,
    warehouse: WarehouseId,
    district: DistrictId,
    order: OrderId,
) -> Result<(), Memory>
    ensures { OnOk result (fields_of fields.new ≡ written_new_order warehouse district order) }
{
    begin(fields, b"N")?;
    push_number(fields, u64::from(warehouse.number()))?;
    push_number(fields, u64::from(district.number()))?;
    push_number(fields, u64::from(order.number()))
}

/// `L,w,d,o,number,item,supply,delivery,quantity,amount,info`
#[tactic(auto, unfolding(crate::specs::StoredRecords::written_order_line))]
fn write_order_line(
    fields: &mut ByteRecord,
    warehouse: WarehouseId,
    district: DistrictId,
    order: OrderId,
    number: LineNumber,
    row: &OrderLineRow,
) -> Result<(), Memory>
    ensures { OnOk result (fields_of fields.new ≡ written_order_line warehouse district order number row.now) }
{
    begin(fields, b"L")?;
    push_number(fields, u64::from(warehouse.number()))?;
    push_number(fields, u64::from(district.number()))?;
    push_number(fields, u64::from(order.number()))?;
    push_number(fields, u64::from(number.number()))?;
    push_number(fields, u64::from(row.item.number()))?;
    push_number(fields, u64::from(row.supply.number()))?;
    push_number_or_dash(fields, row.delivery.map(|moment| moment.seconds()))?;
    push_number(fields, u64::from(row.quantity.value()))?;
    push_number(fields, u64::from(row.amount.cents()))?;
    push(fields, row.district_info.as_bytes())
}

/// `H,number,c,cd,cw,d,w,date,amount,data`
#[tactic(auto, unfolding(crate::specs::StoredRecords::written_history))]
fn write_history(
    fields: &mut ByteRecord,
    number: RequestNumber,
    row: &HistoryRow,
) -> Result<(), Memory>
    ensures { OnOk result (fields_of fields.new ≡ written_history number row.now) }
{
    begin(fields, b"H")?;
    push_number(fields, number.number())?;
    push_number(fields, u64::from(row.customer.number()))?;
    push_number(fields, u64::from(row.customer_district.number()))?;
    push_number(fields, u64::from(row.customer_warehouse.number()))?;
    push_number(fields, u64::from(row.district.number()))?;
    push_number(fields, u64::from(row.warehouse.number()))?;
    push_number(fields, row.date.seconds())?;
    push_number(fields, u64::from(row.amount.cents()))?;
    push(fields, row.data.as_bytes())
}

/// The record of a card, together with its row if it has one. False if that row is missing.
pub(crate) fn card_record(
    fields: &mut ByteRecord,
    store: &PointedStore,
    card: &Card,
) -> Result<bool, Memory>
    ensures { IfOk result (λ said. option_map written_record (card_said store.now.rows card.now)
        ≡ (if said then Some (fields_of fields.new) else None)) }
{
    let rows = store.rows();
    match card {
        Card::Warehouse(card) => match rows.warehouse(card.warehouse) {
            Some(row) => write_warehouse(fields, card, row)?,
            None => return Ok(false),
        },
        Card::District(card) => write_district(fields, card)?,
        Card::Customer(card) => {
            match rows.customer(card.warehouse, card.district, card.customer) {
                Some(row) => write_customer(fields, card, row)?,
                None => return Ok(false),
            }
        }
        Card::Stock(card) => match rows.stock(card.warehouse, card.item) {
            Some(row) => write_stock(fields, card, row)?,
            None => return Ok(false),
        },
        Card::Item(card) => write_item(fields, card)?,
    }
    Ok(true)
}

/// The record of a district's row. False if the row is another kind's.
fn district_row_record(
    fields: &mut ByteRecord,
    key: &RowKey,
    row: RowRef<'_>,
) -> Result<bool, Memory>
    ensures { IfOk result (λ said. option_map written_record (row_said row_part.Districts (key.now, row_of row.entry))
        ≡ (if said then Some (fields_of fields.new) else None)) }
{
    match (key, row) {
        (
            RowKey::DistrictYtd {
                warehouse,
                district,
            },
            RowRef::DistrictYtd(row),
        ) => write_district_ytd(fields, *warehouse, *district, row)?,
        (
            RowKey::DistrictNext {
                warehouse,
                district,
            },
            RowRef::DistrictNext(row),
        ) => write_district_next(fields, *warehouse, *district, row)?,
        _ => return Ok(false),
    }
    Ok(true)
}

/// The record of an order, a new order, an order line or a history row. False if the row is another kind's.
fn other_row_record(fields: &mut ByteRecord, key: &RowKey, row: RowRef<'_>) -> Result<bool, Memory>
    ensures { IfOk result (λ said. option_map written_record (row_said row_part.Others (key.now, row_of row.entry))
        ≡ (if said then Some (fields_of fields.new) else None)) }
{
    match (key, row) {
        (
            RowKey::Order {
                warehouse,
                district,
                order,
            },
            RowRef::Order(row),
        ) => write_order(fields, *warehouse, *district, *order, row)?,
        (
            RowKey::NewOrder {
                warehouse,
                district,
                order,
            },
            _,
        ) => write_new_order(fields, *warehouse, *district, *order)?,
        (
            RowKey::OrderLine {
                warehouse,
                district,
                order,
                number,
            },
            RowRef::OrderLine(row),
        ) => write_order_line(fields, *warehouse, *district, *order, *number, row)?,
        (RowKey::History { number }, RowRef::History(row)) => write_history(fields, *number, row)?,
        _ => return Ok(false),
    }
    Ok(true)
}

/// The record of one of a part's rows. False if the row is the other part's, or is in its card's record.
fn row_record(
    fields: &mut ByteRecord,
    part: RowPart,
    key: &RowKey,
    row: RowRef<'_>,
) -> Result<bool, Memory>
    ensures { IfOk result (λ said. option_map written_record (row_said part (key.now, row_of row.entry))
        ≡ (if said then Some (fields_of fields.new) else None)) }
{
    match part {
        RowPart::Districts => district_row_record(fields, key, row),
        RowPart::Others => other_row_record(fields, key, row),
    }
}

/// The record of a key's row, if it is one of the part's. False otherwise.
pub(crate) fn record_at(
    fields: &mut ByteRecord,
    rows: &PointedStore,
    part: RowPart,
    key: &RowKey,
) -> Result<bool, Memory>
    ensures { IfOk result (λ said. option_map written_record (said_at part rows.now.rows key.now)
        ≡ (if said then Some (fields_of fields.new) else None)) }
{
    match rows.get(key) {
        Some(row) => row_record(fields, part, key, row),
        None => Ok(false),
    }
}

/// `eve-tpcc,2`
#[tactic(auto, unfolding(crate::specs::StoredRecords::written_first))]
pub(crate) fn first_record(fields: &mut ByteRecord) -> Result<(), Memory>
    ensures { OnOk result (fields_of fields.new ≡ written_first) }
{
    begin(fields, b"eve-tpcc")?;
    push(fields, b"2")
}

/// `E,count`
#[tactic(auto, unfolding(crate::specs::StoredRecords::written_end))]
pub(crate) fn end_record(fields: &mut ByteRecord, count: u64) -> Result<(), Memory>
    ensures { OnOk result (fields_of fields.new ≡ written_end count) }
{
    begin(fields, b"E")?;
    push_number(fields, count)
}
