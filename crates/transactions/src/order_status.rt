//! Order-Status (TPC-C clause 2.6): the card of the customer is found, then its row, then its latest order is shown with
//! its lines. It changes nothing.
ghost use Rattle.std.specs.Prelude.{◌≡◌, IfOk};
ghost use Rattle.requests.specs.declared.request.RequestKind.TheVariants as kind;
ghost use Rattle.tpcc_model.specs.OrderStatuses.{last_order, order_status, order_status_reply, shown_line, shown_lines, shown_order};
ghost use Rattle.tpcc_model.specs.Steps.{order_status_outcome};
ghost use Rattle.tpcc_model.specs.Touches.{order_status_touch};
ghost use Rattle.tpcc_rows.specs.Picks.{latest};
ghost use Rattle.transactions.specs.Lending.{lent};
ghost use Rattle.transactions.specs.OnViews.{AnswersOn, ExecutesOn};
ghost use Rattle.transactions.specs.Outcomes.{concluded};

use crate::fault::Fault;
use crate::lent::{self, Lent};
use catalog::{Catalog, CustomerCard};
use requests::reply::{OrderStatusReply, Reply, RequestRefusal, ShownLine, ShownLines, ShownOrder};
use requests::request::OrderStatus;
use std::alloc::Global;
use tpcc_model::choice::chosen_customer;
use tpcc_model::number::line_number;
use tpcc_rows::delta::Delta;
use tpcc_rows::id::{CustomerId, LineNumber, OrderId};
use tpcc_rows::memory::Memory;
use tpcc_rows::row::{CustomerRow, OrderLineRow, OrderRow};
use worker_rows::{KeyedRows, RowView, order_row};

#[tactic(auto, unfolding(tpcc_model::specs::OrderStatuses::shown_line))]
fn shown_line(line: &OrderLineRow) -> ShownLine
    ensures { result ≡ shown_line line.now }
{
    ShownLine {
        item: line.item,
        supply: line.supply,
        quantity: line.quantity,
        amount: line.amount,
        delivery: line.delivery,
    }
}

/// The order's lines, in the order of their numbers.
#[tactic(auto, unfolding(tpcc_model::specs::OrderStatuses::shown_lines))]
fn shown_lines<V: RowView>(
    alloc: Global,
    view: &V,
    p: &OrderStatus,
    order: OrderId,
    count: LineNumber,
) -> Result<ShownLines, Memory>
    ensures { IfOk result (λ lines. lines ≡ shown_lines (lent (V.sees view.now)) p.now order count) }
{
    let rows = Lent { view };
    let found = rows.order_lines(p.warehouse, p.district, order);
    let count = usize::from(count.number());
    let mut lines = ShownLines::with_capacity(alloc, count)?;
    for index in 0..count {
        if let Some(line) = found.get(line_number(index + 1)) {
            lines.push(shown_line(line))?;
        }
    }
    Ok(lines)
}

#[tactic(auto, unfolding(tpcc_model::specs::OrderStatuses::shown_order))]
fn shown_order<V: RowView>(
    alloc: Global,
    view: &V,
    p: &OrderStatus,
    number: OrderId,
    order: &OrderRow,
) -> Result<ShownOrder, Memory>
    ensures { IfOk result (λ shown. shown ≡ shown_order (lent (V.sees view.now)) p.now number order.now) }
{
    Ok(ShownOrder {
        order: number,
        entry: order.entry,
        carrier: order.carrier,
        lines: shown_lines(alloc, view, p, number, order.line_count)?,
    })
}

/// The customer's order with the greatest number, which is this one.
#[tactic(auto, unfolding(tpcc_model::specs::OrderStatuses::last_order))]
fn last_order<V: RowView>(
    alloc: Global,
    view: &V,
    p: &OrderStatus,
    customer: CustomerId,
    last: Option<OrderId>,
) -> Result<Option<ShownOrder>, Memory>
    requires { last ≡ latest (lent (V.sees view.now)) p.now.warehouse p.now.district customer }
    ensures { IfOk result (λ shown. shown ≡ last_order (lent (V.sees view.now)) p.now customer) }
{
    let Some(number) = last else {
        return Ok(None);
    };
    let rows = Lent { view };
    match order_row(&rows, p.warehouse, p.district, number) {
        Some(order) => Ok(Some(shown_order(alloc, view, p, number, order)?)),
        None => Ok(None),
    }
}

#[tactic(auto, unfolding(tpcc_model::specs::OrderStatuses::order_status_reply))]
fn order_status_reply<V: RowView>(
    alloc: Global,
    view: &V,
    p: &OrderStatus,
    customer: CustomerId,
    card: &CustomerCard,
    row: &CustomerRow,
    last: Option<OrderId>,
) -> Result<OrderStatusReply, Memory>
    requires { last ≡ latest (lent (V.sees view.now)) p.now.warehouse p.now.district customer }
    ensures { IfOk result (λ reply. reply ≡ order_status_reply (lent (V.sees view.now)) p.now customer card.now row.now) }
{
    Ok(OrderStatusReply {
        customer,
        first: card.first.copied(),
        middle: card.middle.copied(),
        last: card.last.copied(),
        balance: row.balance,
        order: last_order(alloc, view, p, customer, last)?,
    })
}

/// What is shown.
#[tactic(auto, using(crate::proofs::LentTouches::covers_asked), unfolding(tpcc_model::specs::Touches::order_status_touch, tpcc_model::specs::Touches::asked_customer, tpcc_model::specs::OrderStatuses::order_status))]
fn order_status<V: RowView>(
    alloc: Global,
    catalog: &Catalog,
    p: &OrderStatus,
    view: &V,
) -> Result<OrderStatusReply, Fault>
    ensures { AnswersOn (λ shown. shown) (λ db. order_status_touch db p.now) (λ db. order_status db p.now) catalog.now (V.sees view.now) result }
{
    let customer = chosen_customer(catalog, p.warehouse, p.district, &p.customer).ok_or(
        RequestRefusal::UnknownKey,
    )?;
    let card = catalog
        .customer(p.warehouse, p.district, customer)
        .ok_or(RequestRefusal::UnknownKey)?;
    let row = lent::read_customer(view, p.warehouse, p.district, customer)?;
    let last = lent::last_order(view, p.warehouse, p.district, customer)?;
    let row = row.ok_or(RequestRefusal::UnknownKey)?;
    let reply = order_status_reply(alloc, view, p, customer, card, row, last)?;
    Ok(reply)
}

/// The reply to a question for a customer's last order, and no changes.
pub(crate) fn execute<V: RowView>(
    alloc: Global,
    catalog: &Catalog,
    p: &OrderStatus,
    view: &V,
) -> Result<(Reply, Delta), Fault>
    ensures { ExecutesOn (λ db. order_status_touch db p.now) (λ db. order_status_outcome (order_status db p.now)) catalog.now (V.sees view.now)
        (concluded kind.OrderStatus result) }
{
    let reply = order_status(alloc, catalog, p, view)?;
    Ok((Reply::OrderStatus(reply), Delta::new(alloc)))
}
