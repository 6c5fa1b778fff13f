//! The records of replies.
ghost use Rattle.std.specs.Prelude.{◌≡◌, ◌++◌, ◌∷◌, [], OnOk, OnErr, IfOk, decimal, map};
ghost use Rattle.std.specs.Fmt.{signed_decimal};
ghost use Rattle.std.specs.List.{flat_map};
ghost use Rattle.csv.specs.Records.{fields_of, partial_of};
ghost use Rattle.records.specs.Spelling.{AddsFields, number_or_dash};
ghost use Rattle.requests.specs.Replies.{brand_text, credit_fields, customer_fields, kind_text, last_order_fields, line_reply_fields, new_order_fields, order_status_fields, outcome_fields, payment_fields, refusal_code, refusal_fields, refusal_text, reply_fields, reply_text, shown_line_fields, shown_order_fields};

use crate::reply::{
    Brand, LineReply, NewOrderReply, OrderStatusReply, PaymentReply, Reply, RequestRefusal,
    ShownCredit, ShownLine, ShownOrder,
};
use crate::request::RequestKind;
use csv::ByteRecord;
use records::record_text::{push, push_number, push_number_or_dash, push_signed, record_text};
use std::alloc::Global;
use tpcc_rows::id::{OrderId, RequestNumber};
use tpcc_rows::memory::Memory;

fn brand_text(brand: Brand) -> &'static [u8]
    ensures { result.now ≡ brand_text brand }
{
    match brand {
        Brand::Brand => b"B",
        Brand::Generic => b"G",
    }
}

fn push_line_reply(fields: &mut ByteRecord, line: LineReply) -> Result<(), Memory>
    requires { partial_of fields.old ≡ [] }
    ensures { OnOk result (AddsFields fields.old fields.new (line_reply_fields line)) }
{
    push_signed(fields, i64::from(line.stock.value()))?;
    push(fields, brand_text(line.brand))?;
    push_number(fields, u64::from(line.amount.cents()))
}

fn push_line_replies(fields: &mut ByteRecord, lines: &[LineReply]) -> Result<(), Memory>
    requires { partial_of fields.old ≡ [] }
    ensures { OnOk result (AddsFields fields.old fields.new (flat_map line_reply_fields lines.now)) }
{
    for line in lines {
        push_line_reply(fields, *line)?;
    }
    Ok(())
}

fn push_new_order(fields: &mut ByteRecord, reply: &NewOrderReply) -> Result<(), Memory>
    requires { partial_of fields.old ≡ [] }
    ensures { OnOk result (AddsFields fields.old fields.new (new_order_fields reply.now)) }
{
    push_number(fields, u64::from(reply.order.number()))?;
    push_signed(fields, reply.total.amount())?;
    push_line_replies(fields, reply.lines.as_slice())
}

fn push_credit(fields: &mut ByteRecord, credit: &ShownCredit) -> Result<(), Memory>
    requires { partial_of fields.old ≡ [] }
    ensures { OnOk result (AddsFields fields.old fields.new (credit_fields credit.now)) }
{
    match credit {
        ShownCredit::Good => push(fields, b"GC"),
        ShownCredit::Bad { data } => {
            push(fields, b"BC")?;
            push(fields, data.as_bytes())
        }
    }
}

fn push_payment(fields: &mut ByteRecord, reply: &PaymentReply) -> Result<(), Memory>
    requires { partial_of fields.old ≡ [] }
    ensures { OnOk result (AddsFields fields.old fields.new (payment_fields reply.now)) }
{
    push_number(fields, u64::from(reply.customer.number()))?;
    push_signed(fields, reply.balance.amount())?;
    push_credit(fields, &reply.credit)
}

fn push_shown_line(fields: &mut ByteRecord, line: ShownLine) -> Result<(), Memory>
    requires { partial_of fields.old ≡ [] }
    ensures { OnOk result (AddsFields fields.old fields.new (shown_line_fields line)) }
{
    push_number(fields, u64::from(line.item.number()))?;
    push_number(fields, u64::from(line.supply.number()))?;
    push_number(fields, u64::from(line.quantity.value()))?;
    push_number(fields, u64::from(line.amount.cents()))?;
    push_number_or_dash(fields, line.delivery.map(|moment| moment.seconds()))
}

fn push_shown_lines(fields: &mut ByteRecord, lines: &[ShownLine]) -> Result<(), Memory>
    requires { partial_of fields.old ≡ [] }
    ensures { OnOk result (AddsFields fields.old fields.new (flat_map shown_line_fields lines.now)) }
{
    for line in lines {
        push_shown_line(fields, *line)?;
    }
    Ok(())
}

fn push_shown_order(fields: &mut ByteRecord, order: &ShownOrder) -> Result<(), Memory>
    requires { partial_of fields.old ≡ [] }
    ensures { OnOk result (AddsFields fields.old fields.new (shown_order_fields order.now)) }
{
    let carrier = order.carrier.map(|carrier| u64::from(carrier.number()));
    push_number(fields, u64::from(order.order.number()))?;
    push_number(fields, order.entry.seconds())?;
    push_number_or_dash(fields, carrier)?;
    push_shown_lines(fields, order.lines.as_slice())
}

fn push_last_order(fields: &mut ByteRecord, order: &Option<ShownOrder>) -> Result<(), Memory>
    requires { partial_of fields.old ≡ [] }
    ensures { OnOk result (AddsFields fields.old fields.new (last_order_fields order.now)) }
{
    match order {
        Some(order) => push_shown_order(fields, order),
        None => push(fields, b"-"),
    }
}

fn push_customer(fields: &mut ByteRecord, reply: &OrderStatusReply) -> Result<(), Memory>
    requires { partial_of fields.old ≡ [] }
    ensures { OnOk result (AddsFields fields.old fields.new (customer_fields reply.now)) }
{
    push_number(fields, u64::from(reply.customer.number()))?;
    push(fields, reply.first.as_bytes())?;
    push(fields, reply.middle.as_bytes())?;
    push(fields, reply.last.as_bytes())?;
    push_signed(fields, reply.balance.amount())
}

fn push_order_status(fields: &mut ByteRecord, reply: &OrderStatusReply) -> Result<(), Memory>
    requires { partial_of fields.old ≡ [] }
    ensures { OnOk result (AddsFields fields.old fields.new (order_status_fields reply.now)) }
{
    push_customer(fields, reply)?;
    push_last_order(fields, &reply.order)
}

/// The order delivered in each district, or a dash.
fn push_orders(fields: &mut ByteRecord, orders: &[Option<OrderId>]) -> Result<(), Memory>
    requires { partial_of fields.old ≡ [] }
    ensures { OnOk result (AddsFields fields.old fields.new (map number_or_dash orders.now)) }
{
    for order in orders {
        push_number_or_dash(fields, order.map(|order| u64::from(order.number())))?;
    }
    Ok(())
}

fn kind_text(kind: RequestKind) -> &'static [u8]
    ensures { result.now ≡ kind_text kind }
{
    match kind {
        RequestKind::NewOrder => b"new-order",
        RequestKind::Payment => b"payment",
        RequestKind::OrderStatus => b"order-status",
        RequestKind::Delivery => b"delivery",
        RequestKind::StockLevel => b"stock-level",
    }
}

fn refusal_code(refusal: RequestRefusal) -> &'static [u8]
    ensures { result.now ≡ refusal_code refusal }
{
    match refusal {
        RequestRefusal::ItemNotValid => b"1",
        RequestRefusal::UnknownKey => b"2",
        RequestRefusal::LimitReached => b"3",
    }
}

fn refusal_text(refusal: RequestRefusal) -> &'static [u8]
    ensures { result.now ≡ refusal_text refusal }
{
    match refusal {
        RequestRefusal::ItemNotValid => b"Item number is not valid",
        RequestRefusal::UnknownKey => b"Unknown key",
        RequestRefusal::LimitReached => b"Limit reached",
    }
}

fn push_refusal(fields: &mut ByteRecord, refusal: RequestRefusal) -> Result<(), Memory>
    requires { partial_of fields.old ≡ [] }
    ensures { OnOk result (AddsFields fields.old fields.new (refusal_fields refusal)) }
{
    push(fields, refusal_code(refusal))?;
    push(fields, refusal_text(refusal))
}

/// The kind of a request, and its status.
fn push_status(fields: &mut ByteRecord, kind: RequestKind, status: &[u8]) -> Result<(), Memory>
    requires { partial_of fields.old ≡ [] }
    ensures { OnOk result (AddsFields fields.old fields.new (kind_text kind ∷ status.now ∷ [])) }
{
    push(fields, kind_text(kind))?;
    push(fields, status)
}

fn push_outcome(fields: &mut ByteRecord, reply: &Reply) -> Result<(), Memory>
    requires { partial_of fields.old ≡ [] }
    ensures { OnOk result (AddsFields fields.old fields.new (outcome_fields reply.now)) }
{
    match reply {
        Reply::NewOrder(reply) => {
            push_status(fields, RequestKind::NewOrder, b"ok")?;
            push_new_order(fields, reply)
        }
        Reply::Payment(reply) => {
            push_status(fields, RequestKind::Payment, b"ok")?;
            push_payment(fields, reply)
        }
        Reply::OrderStatus(reply) => {
            push_status(fields, RequestKind::OrderStatus, b"ok")?;
            push_order_status(fields, reply)
        }
        Reply::Delivery(reply) => {
            push_status(fields, RequestKind::Delivery, b"ok")?;
            push_orders(fields, &reply.orders)
        }
        Reply::StockLevel(reply) => {
            push_status(fields, RequestKind::StockLevel, b"ok")?;
            push_number(fields, u64::from(reply.low_stock))
        }
        Reply::Refused { kind, refusal } => {
            push_status(fields, *kind, b"refused")?;
            push_refusal(fields, *refusal)
        }
    }
}

/// Replaces the record by that of a reply, so that one record serves for many. If memory is refused, it has some of the reply's
/// fields, which the next call replaces too.
pub fn fill_record(
    fields: &mut ByteRecord,
    number: RequestNumber,
    reply: &Reply,
) -> Result<(), Memory>
    ensures { OnOk result (fields_of fields.new ≡ reply_fields number reply.now) }
{
    fields.clear();
    push_number(fields, number.number())?;
    push_outcome(fields, reply)
}

/// The record of a reply.
fn reply_record(alloc: Global, number: RequestNumber, reply: &Reply) -> Result<ByteRecord, Memory>
    ensures { IfOk result (λ fields. fields_of fields ≡ reply_fields number reply.now) }
{
    let mut fields = ByteRecord::new(alloc);
    fill_record(&mut fields, number, reply)?;
    Ok(fields)
}

/// Appends the record of a reply; on refusal nothing changes.
pub fn write_reply(
    alloc: Global,
    number: RequestNumber,
    reply: &Reply,
    out: &mut Vec<u8>,
) -> Result<(), Memory>
    ensures ok { OnOk result (out.new.items ≡ out.old.items ++ reply_text number reply.now) }
    ensures err { OnErr result (out.new.items ≡ out.old.items) }
{
    let fields = reply_record(alloc, number, reply)?;
    let text = record_text(alloc, &fields)?;
    out.extend_from_slice(text.as_slice())?;
    Ok(())
}
