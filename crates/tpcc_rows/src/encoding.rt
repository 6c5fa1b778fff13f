//! The bytes of rows.
ghost use Rattle.std.specs.Prelude.{◌≡◌, ◌≤◌, ◌+◌, ◌++◌, length};
ghost use Rattle.tpcc_rows.specs.Encodings.{maybe_moment, row_body, row_bytes, sized};
ghost use Rattle.tpcc_rows.specs.References.{row_of};
ghost use Rattle.tpcc_rows.specs.declared.key.RowKey.{RowKey};
ghost use Rattle.tpcc_rows.specs.declared.row.Row.TheVariants.{Customer, DistrictNext, DistrictYtd, History, Order, OrderLine, Stock, Warehouse};

use crate::codes::{code, customer_code, line_code, stock_code};
use crate::key::RowKey;
use crate::number::{Carrier, Moment};
use crate::row::{
    CustomerRow, DistrictNextRow, DistrictYtdRow, HistoryRow, OrderLineRow, OrderRow, StockRow,
    WarehouseRow,
};
use crate::row_buf::{ByteBuf, RowBuf};
use crate::row_ref::RowRef;

#[tactic(auto, using(crate::proofs::Lengths::lengths))]
fn push_warehouse<const N: usize>(row: &WarehouseRow, out: &mut ByteBuf<N>)
    requires { length out.old + 528 ≤ N }
    ensures { out.new ≡ out.old ++ sized (row_body (Warehouse row.now)) }
{
    out.push_16(8);
    out.push_64(row.ytd.amount().cast_unsigned());
}

#[tactic(auto, using(crate::proofs::Lengths::lengths))]
fn push_district_ytd<const N: usize>(row: &DistrictYtdRow, out: &mut ByteBuf<N>)
    requires { length out.old + 528 ≤ N }
    ensures { out.new ≡ out.old ++ sized (row_body (DistrictYtd row.now)) }
{
    out.push_16(8);
    out.push_64(row.ytd.amount().cast_unsigned());
}

#[tactic(auto, using(crate::proofs::Lengths::lengths))]
fn push_district_next<const N: usize>(row: &DistrictNextRow, out: &mut ByteBuf<N>)
    requires { length out.old + 528 ≤ N }
    ensures { out.new ≡ out.old ++ sized (row_body (DistrictNext row.now)) }
{
    out.push_16(4);
    out.push_32(row.next_order.number());
}

#[tactic(auto, using(crate::proofs::Lengths::lengths))]
fn push_customer<const N: usize>(row: &CustomerRow, out: &mut ByteBuf<N>)
    requires { length out.old + 528 ≤ N }
    ensures { out.new ≡ out.old ++ sized (row_body (Customer row.now)) }
{
    let data = row.data.as_bytes();
    let data_len = data.len() as u16;
    out.push_16(26 + data_len);
    out.push_64(row.balance.amount().cast_unsigned());
    out.push_64(row.ytd_payment.amount().cast_unsigned());
    out.push_32(row.payment_count.value());
    out.push_32(row.delivery_count.value());
    out.push_16(data_len);
    out.push(data);
}

#[tactic(auto, using(crate::proofs::Lengths::lengths))]
fn push_stock<const N: usize>(row: &StockRow, out: &mut ByteBuf<N>)
    requires { length out.old + 528 ≤ N }
    ensures { out.new ≡ out.old ++ sized (row_body (Stock row.now)) }
{
    out.push_16(16);
    out.push_32(i32::from(row.quantity.value()).cast_unsigned());
    out.push_32(row.ytd.value());
    out.push_32(row.order_count.value());
    out.push_32(row.remote_count.value());
}

#[tactic(auto, using(crate::proofs::Lengths::lengths))]
fn push_order<const N: usize>(row: &OrderRow, out: &mut ByteBuf<N>)
    requires { length out.old + 528 ≤ N }
    ensures { out.new ≡ out.old ++ sized (row_body (Order row.now)) }
{
    out.push_16(13);
    out.push_16(row.customer.number());
    out.push_64(row.entry.seconds());
    out.push_8(row.carrier.map_or(0, Carrier::number));
    out.push_8(row.line_count.number());
    out.push_8(u8::from(row.all_local));
}

/// A byte 0 or 1, then the moment or 0.
#[tactic(auto, using(crate::proofs::Lengths::lengths))]
pub fn push_maybe_moment<const N: usize>(moment: Option<Moment>, out: &mut ByteBuf<N>)
    requires { length out.old + 9 ≤ N }
    ensures value { out.new ≡ out.old ++ maybe_moment moment }
    ensures len { length out.new ≡ length out.old + 9 }
{
    match moment {
        None => {
            out.push_8(0);
            out.push_64(0);
        }
        Some(moment) => {
            out.push_8(1);
            out.push_64(moment.seconds());
        }
    }
}

#[tactic(auto, using(crate::proofs::Lengths::lengths))]
fn push_order_line<const N: usize>(row: &OrderLineRow, out: &mut ByteBuf<N>)
    requires { length out.old + 528 ≤ N }
    ensures { out.new ≡ out.old ++ sized (row_body (OrderLine row.now)) }
{
    let district_info = row.district_info.as_bytes();
    out.push_16(20 + district_info.len() as u16);
    out.push_32(row.item.number());
    out.push_8(row.supply.number());
    push_maybe_moment(row.delivery, out);
    out.push_8(row.quantity.value());
    out.push_32(row.amount.cents());
    out.push_short(district_info);
}

#[tactic(auto, using(crate::proofs::Lengths::lengths))]
fn push_history<const N: usize>(row: &HistoryRow, out: &mut ByteBuf<N>)
    requires { length out.old + 528 ≤ N }
    ensures { out.new ≡ out.old ++ sized (row_body (History row.now)) }
{
    let data = row.data.as_bytes();
    out.push_16(19 + data.len() as u16);
    out.push_16(row.customer.number());
    out.push_8(row.customer_district.number());
    out.push_8(row.customer_warehouse.number());
    out.push_8(row.district.number());
    out.push_8(row.warehouse.number());
    out.push_64(row.date.seconds());
    out.push_32(row.amount.cents());
    out.push_short(data);
}

fn push_row<const N: usize>(row: RowRef<'_>, out: &mut ByteBuf<N>)
    requires { length out.old + 528 ≤ N }
    ensures { out.new ≡ out.old ++ sized (row_body (row_of row.entry)) }
{
    match row {
        RowRef::Warehouse(row) => push_warehouse(row, out),
        RowRef::Customer(row) => push_customer(row, out),
        RowRef::Stock(row) => push_stock(row, out),
        RowRef::Order(row) => push_order(row, out),
        RowRef::NewOrder => out.push_16(0),
        RowRef::OrderLine(row) => push_order_line(row, out),
        RowRef::History(row) => push_history(row, out),
        RowRef::DistrictYtd(row) => push_district_ytd(row, out),
        RowRef::DistrictNext(row) => push_district_next(row, out),
    }
}

#[inline(never)]
#[tactic(auto, unfolding(crate::specs::Encodings::row_bytes))]
fn append_any<const N: usize>(key: &RowKey, row: RowRef<'_>, out: &mut ByteBuf<N>)
    requires { length out.old + 536 ≤ N }
    ensures { out.new ≡ out.old ++ row_bytes key.now (row_of row.entry) }
{
    out.push_64(code(key));
    push_row(row, out);
}

#[inline(never)]
#[tactic(auto, unfolding(crate::specs::Encodings::row_bytes))]
fn append_customer_or_any<const N: usize>(key: &RowKey, row: RowRef<'_>, out: &mut ByteBuf<N>)
    requires { length out.old + 536 ≤ N }
    ensures { out.new ≡ out.old ++ row_bytes key.now (row_of row.entry) }
{
    match (key, row) {
        (
            RowKey::Customer {
                warehouse,
                district,
                customer,
            },
            RowRef::Customer(row),
        ) => {
            out.push_64(customer_code(*warehouse, *district, *customer));
            push_customer(row, out);
        }
        _ => append_any(key, row, out),
    }
}

/// Appends the bytes of a row. The three commonest kinds are told apart by comparisons, the key's kind first, which the
/// processor predicts; a jump table would wait for the row to come from memory.
#[tactic(auto, unfolding(crate::specs::Encodings::row_bytes))]
pub fn append_row<const N: usize>(key: &RowKey, row: RowRef<'_>, out: &mut ByteBuf<N>)
    requires { length out.old + 536 ≤ N }
    ensures { out.new ≡ out.old ++ row_bytes key.now (row_of row.entry) }
{
    match (key, row) {
        (
            RowKey::OrderLine {
                warehouse,
                district,
                order,
                number,
            },
            RowRef::OrderLine(row),
        ) => {
            out.push_64(line_code(*warehouse, *district, *order, *number));
            push_order_line(row, out);
        }
        (RowKey::Stock { warehouse, item }, RowRef::Stock(row)) => {
            out.push_64(stock_code(*warehouse, *item));
            push_stock(row, out);
        }
        _ => append_customer_or_any(key, row, out),
    }
}

/// Replaces the buffer's content by the bytes of a row.
pub fn encode_row(key: &RowKey, row: RowRef<'_>, out: &mut RowBuf)
    ensures { out.new ≡ row_bytes key.now (row_of row.entry) }
{
    out.clear();
    append_row(key, row, out);
}

/// Enough bytes for a row, whatever its key; exact for customers, whose texts are long.
#[tactic(auto, using(crate::proofs::Lengths::lengths), unfolding(crate::specs::Encodings::row_bytes))]
pub fn enough_bytes(row: RowRef<'_>) -> usize
    ensures enough { (k : RowKey) → length (row_bytes k (row_of row.entry)) ≤ result }
    ensures small { result ≤ 536 }
{
    match row {
        RowRef::Customer(row) => 36 + row.data.as_bytes().len(),
        RowRef::OrderLine(row) => 30 + row.district_info.capacity(),
        RowRef::History(row) => 30 + row.data.capacity(),
        _ => 54,
    }
}
