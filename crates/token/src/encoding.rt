//! The bytes of replies.
ghost use Rattle.std.specs.Prelude.{◌≡◌, ◌≤◌, ◌+◌, ◌*◌, ◌++◌, ◌∷◌, [], length};
ghost use Rattle.std.specs.List.{flat_map};
ghost use Rattle.requests.specs.Replies.{brand_text};
ghost use Rattle.tpcc_model.specs.Tokens.{credit_bytes, kind_code, last_order_bytes, line_reply_bytes, new_order_bytes, order_or_zero, order_status_bytes, outcome_bytes, payment_bytes, refusal_status, reply_bytes, shown_line_bytes, shown_order_bytes};

use requests::reply::{
    Brand, LineReply, NewOrderReply, OrderStatusReply, PaymentReply, Reply, RequestRefusal,
    ShownCredit, ShownLine, ShownOrder,
};
use requests::request::RequestKind;
use tpcc_rows::encoding::push_maybe_moment;
use tpcc_rows::id::OrderId;
use tpcc_rows::number::Carrier;
use tpcc_rows::row_buf::RowBuf;

fn kind_code(kind: RequestKind) -> u8
    ensures { result ≡ kind_code kind }
{
    match kind {
        RequestKind::NewOrder => 1,
        RequestKind::Payment => 2,
        RequestKind::OrderStatus => 3,
        RequestKind::Delivery => 4,
        RequestKind::StockLevel => 5,
    }
}

fn refusal_status(refusal: RequestRefusal) -> u8
    ensures { result ≡ refusal_status refusal }
{
    match refusal {
        RequestRefusal::ItemNotValid => 1,
        RequestRefusal::UnknownKey => 2,
        RequestRefusal::LimitReached => 3,
    }
}

fn brand_text(brand: Brand) -> [u8; 1]
    ensures { result ≡ brand_text brand }
{
    match brand {
        Brand::Brand => *b"B",
        Brand::Generic => *b"G",
    }
}

#[tactic(auto, using(tpcc_rows::proofs::Lengths::lengths))]
fn push_line_reply(line: LineReply, out: &mut RowBuf)
    requires { length out.old + 9 ≤ 536 }
    ensures value { out.new ≡ out.old ++ line_reply_bytes line }
    ensures len { length out.new ≡ length out.old + 9 }
{
    out.push_32(i32::from(line.stock.value()).cast_unsigned());
    out.push(brand_text(line.brand).as_slice());
    out.push_32(line.amount.cents());
}

fn push_line_replies(lines: &[LineReply], out: &mut RowBuf)
    requires { length out.old + 9 * length lines.now ≤ 536 }
    ensures { out.new ≡ out.old ++ flat_map line_reply_bytes lines.now }
{
    for line in lines {
        push_line_reply(*line, out);
    }
}

#[tactic(auto, using(tpcc_rows::proofs::Lengths::lengths))]
fn push_new_order(reply: &NewOrderReply, out: &mut RowBuf)
    requires { length out.old ≤ 10 }
    ensures { out.new ≡ out.old ++ new_order_bytes reply.now }
{
    let lines = reply.lines.as_slice();
    out.push_32(reply.order.number());
    out.push_64(reply.total.amount().cast_unsigned());
    out.push_8(lines.len() as u8);
    push_line_replies(lines, out);
}

#[tactic(auto, using(tpcc_rows::proofs::Lengths::lengths))]
fn push_credit(credit: &ShownCredit, out: &mut RowBuf)
    requires { length out.old ≤ 20 }
    ensures { out.new ≡ out.old ++ credit_bytes credit.now }
{
    match credit {
        ShownCredit::Good => out.push(b"GC"),
        ShownCredit::Bad { data } => {
            out.push(b"BC");
            out.push_short(data.as_bytes());
        }
    }
}

#[tactic(auto, using(tpcc_rows::proofs::Lengths::lengths))]
fn push_payment(reply: &PaymentReply, out: &mut RowBuf)
    requires { length out.old ≤ 10 }
    ensures { out.new ≡ out.old ++ payment_bytes reply.now }
{
    out.push_16(reply.customer.number());
    out.push_64(reply.balance.amount().cast_unsigned());
    push_credit(&reply.credit, out);
}

#[tactic(auto, using(tpcc_rows::proofs::Lengths::lengths))]
fn push_shown_line(line: ShownLine, out: &mut RowBuf)
    requires { length out.old ≤ 490 }
    ensures value { out.new ≡ out.old ++ shown_line_bytes line }
    ensures len { length out.new ≡ length out.old + 19 }
{
    out.push_32(line.item.number());
    out.push_8(line.supply.number());
    out.push_8(line.quantity.value());
    out.push_32(line.amount.cents());
    push_maybe_moment(line.delivery, out);
}

fn push_shown_lines(lines: &[ShownLine], out: &mut RowBuf)
    requires { length out.old + 19 * length lines.now ≤ 490 }
    ensures { out.new ≡ out.old ++ flat_map shown_line_bytes lines.now }
{
    for line in lines {
        push_shown_line(*line, out);
    }
}

#[tactic(auto, using(tpcc_rows::proofs::Lengths::lengths))]
fn push_shown_order(order: &ShownOrder, out: &mut RowBuf)
    requires { length out.old ≤ 60 }
    ensures { out.new ≡ out.old ++ shown_order_bytes order.now }
{
    let lines = order.lines.as_slice();
    out.push_32(order.order.number());
    out.push_64(order.entry.seconds());
    out.push_8(order.carrier.map_or(0, Carrier::number));
    out.push_8(lines.len() as u8);
    push_shown_lines(lines, out);
}

/// Whether there is an order, in one byte, and the order.
#[tactic(auto, using(tpcc_rows::proofs::Lengths::lengths))]
fn push_last_order(order: &Option<ShownOrder>, out: &mut RowBuf)
    requires { length out.old ≤ 58 }
    ensures { out.new ≡ out.old ++ last_order_bytes order.now }
{
    match order {
        None => out.push_8(0),
        Some(order) => {
            out.push_8(1);
            push_shown_order(order, out);
        }
    }
}

#[tactic(auto, using(tpcc_rows::proofs::Lengths::lengths))]
fn push_order_status(reply: &OrderStatusReply, out: &mut RowBuf)
    requires { length out.old ≤ 10 }
    ensures { out.new ≡ out.old ++ order_status_bytes reply.now }
{
    out.push_16(reply.customer.number());
    out.push_short(reply.first.as_bytes());
    out.push_short(reply.middle.as_bytes());
    out.push_short(reply.last.as_bytes());
    out.push_64(reply.balance.amount().cast_unsigned());
    push_last_order(&reply.order, out);
}

/// The orders by district, each by its number, or 0 where the district had none to deliver.
fn push_orders(orders: &[Option<OrderId>], out: &mut RowBuf)
    requires { length out.old + 4 * length orders.now ≤ 536 }
    ensures { out.new ≡ out.old ++ flat_map order_or_zero orders.now }
{
    for order in orders {
        out.push_32(order.map_or(0, OrderId::number));
    }
}

/// The kind of a request, and 0 for what was done or the code of its refusal.
#[tactic(auto, using(tpcc_rows::proofs::Lengths::lengths))]
fn push_status(kind: RequestKind, status: u8, out: &mut RowBuf)
    requires { length out.old ≤ 8 }
    ensures value { out.new ≡ out.old ++ kind_code kind ∷ status ∷ [] }
    ensures len { length out.new ≡ length out.old + 2 }
{
    out.push_8(kind_code(kind));
    out.push_8(status);
}

#[tactic(auto, using(tpcc_rows::proofs::Lengths::lengths))]
fn push_outcome(reply: &Reply, out: &mut RowBuf)
    requires { length out.old ≤ 8 }
    ensures { out.new ≡ out.old ++ outcome_bytes reply.now }
{
    match reply {
        Reply::NewOrder(reply) => {
            push_status(RequestKind::NewOrder, 0, out);
            push_new_order(reply, out);
        }
        Reply::Payment(reply) => {
            push_status(RequestKind::Payment, 0, out);
            push_payment(reply, out);
        }
        Reply::OrderStatus(reply) => {
            push_status(RequestKind::OrderStatus, 0, out);
            push_order_status(reply, out);
        }
        Reply::Delivery(reply) => {
            push_status(RequestKind::Delivery, 0, out);
            push_orders(&reply.orders, out);
        }
        Reply::StockLevel(reply) => {
            push_status(RequestKind::StockLevel, 0, out);
            out.push_32(reply.low_stock);
        }
        Reply::Refused { kind, refusal } => push_status(*kind, refusal_status(*refusal), out),
    }
}

/// Fills the buffer anew with the bytes of a reply.
#[tactic(auto, unfolding(tpcc_model::specs::Tokens::reply_bytes))]
pub(crate) fn encode_reply(number: u64, reply: &Reply, out: &mut RowBuf)
    ensures { out.new ≡ reply_bytes number reply.now }
{
    out.clear();
    out.push_64(number);
    push_outcome(reply, out);
}
