//! Delivery (TPC-C clause 2.7): the card of the warehouse is found, then the oldest new order of each district, what its lines
//! come to and its customer. No district reads what another one writes, so all of it is read before anything is written.
ghost use Rattle.std.specs.Prelude.{◌≡◌, ◌≤◌, ◌++◌, is_ok, length, map, option_copied, option_map, IfOk, OnOk};
ghost use Rattle.std.specs.FinMap as map;
ghost use Rattle.std.specs.List.{list_all, sum_by};
ghost use Rattle.requests.specs.declared.request.RequestKind.TheVariants as kind;
ghost use Rattle.tpcc_model.specs.Deliveries.{credited, delivery, districts_delivered};
ghost use Rattle.tpcc_model.specs.Staging.{within};
ghost use Rattle.tpcc_model.specs.Steps.{delivery_outcome};
ghost use Rattle.tpcc_model.specs.Touches.{credited_touch, delivery_touch, district_touch, delivered_touch};
ghost use Rattle.tpcc_rows.specs.Limits.{ten};
ghost use Rattle.tpcc_rows.specs.Picks.{oldest};
ghost use Rattle.tpcc_rows.specs.RowMap.{Changes, Rows};
ghost use Rattle.transactions.specs.DeliveryParts.{credited_customer, dated_line, dated_lines, delivered_of, found_oldest, found_order, found_order_of, one_dated};
ghost use Rattle.transactions.specs.DeliveryParts.{carried_as, lines_written, oldest_written, order_written, orders_of, orders_written};
ghost use Rattle.transactions.specs.Faults.{AnswersBy};
ghost use Rattle.transactions.specs.InPlace.{AnswersInPlace, loaned, whole};
ghost use Rattle.transactions.specs.Lending.{lent};
ghost use Rattle.transactions.specs.OnViews.{AnswersOn, ExecutesOn};
ghost use Rattle.transactions.specs.Outcomes.{concluded};
ghost use Rattle.worker_rows.specs.Views.{covers};
ghost use Rattle.worker_rows.specs.Writers.{KeepsPoints};

use crate::fault::Fault;
use crate::lent::{self, Lent};
use catalog::Catalog;
use requests::reply::{DeliveryReply, Reply, RequestRefusal};
use requests::request::Delivery;
use row_store::PointedStore;
use std::alloc::Global;
use tpcc_model::number::line_number;
use tpcc_rows::delta::Delta;
use tpcc_rows::footprint::Footprint;
use tpcc_rows::granule::Granule;
use tpcc_rows::id::{CustomerId, DistrictId, LineNumber, OrderId, WarehouseId};
use tpcc_rows::key::RowKey;
use tpcc_rows::memory::Memory;
use tpcc_rows::number::Moment;
use tpcc_rows::row::{CustomerRow, OrderLineRow, OrderRow};
use worker_rows::{KeyedRows, Loan, RowView, RowWriter, Strayed, Whole, customer_row, order_row};

/// Room for what a delivery changes: in each of ten districts an order, its mark as new, its customer and at most fifteen lines.
const ROOM: usize = 10 * (3 + 15);

/// A line of an order that is delivered: its number, and its row with the date.
#[derive(Drop)]
pub(crate) struct DatedLine {
    pub number: LineNumber,
    pub row: OrderLineRow,
}

/// An order that is delivered: its row with the carrier, its customer's new row, and its lines.
#[derive(Drop)]
pub(crate) struct DeliveredOrder {
    pub district: DistrictId,
    pub order: OrderId,
    pub row: OrderRow,
    pub customer: CustomerRow,
    pub lines: Vec<DatedLine>,
}

/// What a delivery writes: what is delivered in each district.
#[derive(Drop)]
pub(crate) struct DeliveredOrders {
    pub warehouse: WarehouseId,
    pub orders: Vec<Option<DeliveredOrder>>,
}

fn dated_line(line: &OrderLineRow, number: LineNumber, moment: Moment) -> DatedLine
    ensures { result ≡ dated_line moment number line.now }
{
    let mut dated = line.copied();
    dated.delivery = Some(moment);
    DatedLine { number, row: dated }
}

/// Adds the line, where it is there.
fn add_dated(
    lines: &mut Vec<DatedLine>,
    line: Option<&OrderLineRow>,
    number: LineNumber,
    moment: Moment,
) -> Result<(), Memory>
    ensures { OnOk result (lines.new.items ≡ lines.old.items ++ one_dated moment number (option_copied line.entry)) }
{
    if let Some(line) = line {
        lines.push(dated_line(line, number, moment))?;
    }
    Ok(())
}

/// The order's lines, as many as these, each where it is there.
fn dated_lines<V: RowView>(
    alloc: Global,
    view: &V,
    p: &Delivery,
    moment: Moment,
    district: DistrictId,
    order: OrderId,
    count: LineNumber,
) -> Result<Vec<DatedLine>, Memory>
    ensures lines { IfOk result (λ lines. lines.items ≡ dated_lines (lent (V.sees view.now)) p.now moment district order count) }
    ensures few { IfOk result (λ lines. length lines.items ≤ 15) }
{
    let rows = Lent { view };
    let found = rows.order_lines(p.warehouse, district, order);
    let count = usize::from(count.number());
    let mut lines = Vec::with_capacity(alloc, count)?;
    for index in 0..count {
        let number = line_number(index + 1);
        let line = found.get(number);
        add_dated(&mut lines, line, number, moment)?;
    }
    Ok(lines)
}

/// The sum of OL_AMOUNT.
fn amount_of(lines: &[DatedLine]) -> u32
    requires { length lines.now ≤ 15 }
    ensures { result ≡ sum_by (λ line. line.row.amount) lines.now }
{
    lines.iter().map(|line| line.row.amount.cents()).sum()
}

/// None where a limit is passed.
#[tactic(auto, unfolding(tpcc_model::specs::Deliveries::credited))]
fn credited(old: CustomerRow, amount: u32) -> Option<CustomerRow>
    ensures { within result ≡ credited old amount }
{
    let balance = old.balance.raised(amount)?;
    let delivery_count = old.delivery_count.raised(1)?;
    Some(CustomerRow {
        balance,
        ytd_payment: old.ytd_payment,
        payment_count: old.payment_count,
        delivery_count,
        data: old.data,
    })
}

/// The customer's row, with this amount more.
#[tactic(auto, unfolding(crate::specs::DeliveryParts::credited_customer))]
fn credited_customer<V: RowView>(
    view: &V,
    p: &Delivery,
    district: DistrictId,
    customer: CustomerId,
    amount: u32,
) -> Result<CustomerRow, Fault>
    ensures { AnswersBy (λ row. row) (credited_customer (lent (V.sees view.now)) p.now district customer amount) result }
{
    let rows = Lent { view };
    let Some(row) = customer_row(&rows, p.warehouse, district, customer) else {
        return Err(Fault::Refused(RequestRefusal::UnknownKey));
    };
    let row = row.copied()?;
    match credited(row, amount) {
        Some(new) => Ok(new),
        None => Err(Fault::Refused(RequestRefusal::LimitReached)),
    }
}

/// What delivering the order writes.
#[tactic(auto, using(crate::proofs::DeliveredOrders::finds, crate::proofs::DeliveredOrders::refuses, crate::proofs::DeliveredOrders::unknown))]
fn found_order<V: RowView>(
    alloc: Global,
    view: &V,
    p: &Delivery,
    moment: Moment,
    district: DistrictId,
    order: OrderId,
) -> Result<DeliveredOrder, Fault>
    ensures { AnswersBy found_order_of (found_order (lent (V.sees view.now)) p.now moment district order) result }
{
    let rows = Lent { view };
    let Some(row) = order_row(&rows, p.warehouse, district, order) else {
        return Err(Fault::Refused(RequestRefusal::UnknownKey));
    };
    let lines = dated_lines(alloc, view, p, moment, district, order, row.line_count)?;
    let amount = amount_of(&lines);
    let customer = credited_customer(view, p, district, row.customer, amount)?;
    let row = OrderRow {
        carrier: Some(p.carrier),
        ..*row
    };
    Ok(DeliveredOrder {
        district,
        order,
        row,
        customer,
        lines,
    })
}

/// A district without a new order is skipped.
fn found_oldest<V: RowView>(
    alloc: Global,
    view: &V,
    p: &Delivery,
    moment: Moment,
    district: DistrictId,
    oldest: Option<OrderId>,
) -> Result<Option<DeliveredOrder>, Fault>
    ensures { AnswersBy (option_map found_order_of) (found_oldest (lent (V.sees view.now)) p.now moment district oldest) result }
{
    match oldest {
        Some(order) => Ok(Some(found_order(alloc, view, p, moment, district, order)?)),
        None => Ok(None),
    }
}

/// Whether the customer of the order, where it is there, may be written.
fn may_credit<V: RowView>(
    view: &V,
    p: &Delivery,
    district: DistrictId,
    order: Option<&OrderRow>,
) -> bool
    ensures { result ≡ covers (V.sees view.now) (credited_touch p.now district (option_copied order.entry)) }
{
    match order {
        Some(order) => {
            let customer = Granule::Customer {
                warehouse: p.warehouse,
                district,
                customer: order.customer,
            };
            lent::may_write(view, &customer)
        }
        None => true,
    }
}

/// Whether what the delivery of the order changes may be written.
#[tactic(auto, using(crate::proofs::LentTouches::covers_oldest))]
fn may_deliver<V: RowView>(view: &V, p: &Delivery, district: DistrictId, order: OrderId) -> bool
    ensures { result ≡ covers (V.sees view.now) (delivered_touch (lent (V.sees view.now)) p.now district (Some order)) }
{
    let book = Granule::Book {
        warehouse: p.warehouse,
        district,
    };
    lent::may_write(view, &book)
        && may_credit(
            view,
            p,
            district,
            order_row(&Lent { view }, p.warehouse, district, order),
        )
}

/// The oldest new order of the district, where it may be delivered.
#[tactic(auto, using(crate::proofs::LentTouches::covers_book))]
fn oldest_order<V: RowView>(
    view: &V,
    p: &Delivery,
    district: DistrictId,
) -> Result<Option<OrderId>, Strayed>
    ensures strays { is_ok result ≡ covers (V.sees view.now) (district_touch (lent (V.sees view.now)) p.now district) }
    ensures order { IfOk result (λ order. order ≡ oldest (lent (V.sees view.now)) p.now.warehouse district) }
{
    let oldest = lent::oldest_new(view, p.warehouse, district)?;
    match oldest {
        Some(order) if !may_deliver(view, p, district, order) => Err(Strayed),
        _ => Ok(oldest),
    }
}

/// The oldest new order of each district, where all of them may be delivered.
fn oldest_orders<V: RowView>(view: &V, p: &Delivery) -> Result<[Option<OrderId>; 10], Strayed>
    ensures strays { is_ok result ≡ list_all (λ d. covers (V.sees view.now) (district_touch (lent (V.sees view.now)) p.now d)) ten }
    ensures orders { IfOk result (λ orders. orders ≡ map (oldest (lent (V.sees view.now)) p.now.warehouse) ten) }
{
    let mut orders = [None; 10];
    for (index, district) in DistrictId::all().iter().enumerate() {
        orders[index] = oldest_order(view, p, *district)?;
    }
    Ok(orders)
}

/// What delivering these orders, one of each district, writes.
fn found_orders<V: RowView>(
    alloc: Global,
    view: &V,
    p: &Delivery,
    moment: Moment,
    orders: &[Option<OrderId>; 10],
) -> Result<Vec<Option<DeliveredOrder>>, Fault>
    requires { orders.now ≡ map (oldest (lent (V.sees view.now)) p.now.warehouse) ten }
    ensures { AnswersBy (λ found. orders_written p.now.warehouse (orders_of found.items) map.empty)
        (districts_delivered (lent (V.sees view.now)) p.now moment ten map.empty) result }
{
    let mut found = Vec::with_capacity(alloc, orders.len())?;
    for (index, district) in DistrictId::all().iter().enumerate() {
        let delivered = found_oldest(alloc, view, p, moment, *district, orders[index])?;
        found.push(delivered)?;
    }
    Ok(found)
}

/// The reply to a delivery, and what is to be written.
#[tactic(auto, using(crate::proofs::LentTouches::covers_ten), unfolding(tpcc_model::specs::Touches::delivery_touch, tpcc_model::specs::Deliveries::delivery))]
pub(crate) fn delivery<V: RowView>(
    alloc: Global,
    catalog: &Catalog,
    p: &Delivery,
    moment: Moment,
    view: &V,
) -> Result<(DeliveryReply, DeliveredOrders), Fault>
    ensures { AnswersOn delivered_of (λ db. delivery_touch db p.now) (λ db. delivery db p.now moment) catalog.now (V.sees view.now) result }
{
    let Some(_) = catalog.warehouse(p.warehouse) else {
        return Err(Fault::Refused(RequestRefusal::UnknownKey));
    };
    let orders = oldest_orders(view, p)?;
    let delivered = DeliveredOrders {
        warehouse: p.warehouse,
        orders: found_orders(alloc, view, p, moment, &orders)?,
    };
    Ok((DeliveryReply { orders }, delivered))
}

/// The order is no new order any more, and has its new row.
fn write_carried<W: RowWriter>(
    warehouse: WarehouseId,
    delivered: &DeliveredOrder,
    writer: &mut W,
) -> Result<(), Memory>
    ensures made { (rows : Rows) (changes : Changes) → W.Stands rows changes writer.old
        → OnOk result (W.Stands rows (carried_as warehouse delivered.now.district delivered.now.order delivered.now.row changes) writer.new) }
    ensures kept { (first : W) → W.Keeps first writer.old → W.Keeps first writer.new }
{
    let DeliveredOrder {
        district,
        order,
        ..
    } = *delivered;
    let new_order_key = RowKey::NewOrder {
        warehouse,
        district,
        order,
    };
    writer.remove(new_order_key)?;
    let order_key = RowKey::Order {
        warehouse,
        district,
        order,
    };
    writer.put(order_key, delivered.row)
}

fn write_lines<W: RowWriter>(
    warehouse: WarehouseId,
    district: DistrictId,
    order: OrderId,
    lines: Vec<DatedLine>,
    writer: &mut W,
) -> Result<(), Memory>
    ensures made { (rows : Rows) (changes : Changes) → W.Stands rows changes writer.old
        → OnOk result (W.Stands rows (lines_written warehouse district order lines.items changes) writer.new) }
    ensures kept { (first : W) → W.Keeps first writer.old → W.Keeps first writer.new }
{
    for line in lines {
        let key = RowKey::OrderLine {
            warehouse,
            district,
            order,
            number: line.number,
        };
        writer.put(key, line.row)?;
    }
    Ok(())
}

fn customer_key(warehouse: WarehouseId, delivered: &DeliveredOrder) -> RowKey
    ensures { result ≡ RowKey.Customer warehouse delivered.now.district delivered.now.row.customer }
{
    RowKey::Customer {
        warehouse,
        district: delivered.district,
        customer: delivered.row.customer,
    }
}

/// Writes the order, its lines and its customer.
fn write_order<W: RowWriter>(
    warehouse: WarehouseId,
    delivered: DeliveredOrder,
    writer: &mut W,
) -> Result<(), Memory>
    ensures made { (rows : Rows) (changes : Changes) → W.Stands rows changes writer.old
        → OnOk result (W.Stands rows (order_written warehouse (found_order_of delivered) changes) writer.new) }
    ensures kept { (first : W) → W.Keeps first writer.old → W.Keeps first writer.new }
{
    write_carried(warehouse, &delivered, writer)?;
    let key = customer_key(warehouse, &delivered);
    let DeliveredOrder {
        district,
        order,
        customer,
        lines,
        ..
    } = delivered;
    write_lines(warehouse, district, order, lines, writer)?;
    writer.put(key, customer)
}

/// Where nothing is delivered, nothing is written.
fn write_oldest<W: RowWriter>(
    warehouse: WarehouseId,
    delivered: Option<DeliveredOrder>,
    writer: &mut W,
) -> Result<(), Memory>
    ensures made { (rows : Rows) (changes : Changes) → W.Stands rows changes writer.old
        → OnOk result (W.Stands rows (oldest_written warehouse (option_map found_order_of delivered) changes) writer.new) }
    ensures kept { (first : W) → W.Keeps first writer.old → W.Keeps first writer.new }
{
    match delivered {
        Some(order) => write_order(warehouse, order, writer),
        None => Ok(()),
    }
}

/// Writes what is delivered in each district, in turn.
fn write_orders<W: RowWriter>(
    warehouse: WarehouseId,
    delivered: Vec<Option<DeliveredOrder>>,
    writer: &mut W,
) -> Result<(), Memory>
    ensures made { (rows : Rows) (changes : Changes) → W.Stands rows changes writer.old
        → OnOk result (W.Stands rows (orders_written warehouse (orders_of delivered.items) changes) writer.new) }
    ensures kept { (first : W) → W.Keeps first writer.old → W.Keeps first writer.new }
{
    for order in delivered {
        write_oldest(warehouse, order, writer)?;
    }
    Ok(())
}

impl DeliveredOrders {
    /// Writes the changes.
    pub(crate) fn write<W: RowWriter>(self, writer: &mut W) -> Result<(), Memory>
        ensures made { (rows : Rows) (changes : Changes) → W.Stands rows changes writer.old
            → OnOk result (W.Stands rows (orders_written self.warehouse (orders_of self.orders.items) changes) writer.new) }
        ensures kept { (first : W) → W.Keeps first writer.old → W.Keeps first writer.new }
    {
        write_orders(self.warehouse, self.orders, writer)
    }
}

/// The reply to a delivery, and the rows that it changes.
pub(crate) fn execute<V: RowView>(
    alloc: Global,
    catalog: &Catalog,
    p: &Delivery,
    moment: Moment,
    view: &V,
) -> Result<(Reply, Delta), Fault>
    ensures { ExecutesOn (λ db. delivery_touch db p.now) (λ db. delivery_outcome (delivery db p.now moment)) catalog.now (V.sees view.now)
        (concluded kind.Delivery result) }
{
    let (reply, delivered) = delivery(alloc, catalog, p, moment, view)?;
    let mut changes = Delta::with_room(alloc, ROOM)?;
    delivered.write(&mut changes)?;
    Ok((Reply::Delivery(reply), changes))
}

/// The reply to a delivery on all rows of a store, whose changes are made in their places.
pub(crate) fn execute_in_place(
    alloc: Global,
    catalog: &Catalog,
    p: &Delivery,
    moment: Moment,
    store: &mut PointedStore,
) -> Result<Reply, Fault>
    ensures answer { AnswersInPlace (λ answer. ExecutesOn (λ db. delivery_touch db p.now) (λ db. delivery_outcome (delivery db p.now moment))
        catalog.now (whole store.old.rows) (concluded kind.Delivery answer)) store.old.rows store.new.rows result }
    ensures kept { KeepsPoints store.old store.new }
{
    let view = Whole { store: &*store };
    let (reply, delivered) = delivery(alloc, catalog, p, moment, &view)?;
    delivered.write(store)?;
    Ok(Reply::Delivery(reply))
}

/// The reply to a delivery, and what is to be written, on the rows that a footprint lends. A loan is large, so it has a function of
/// its own.
#[inline(never)]
fn delivery_on_loan(
    alloc: Global,
    catalog: &Catalog,
    p: &Delivery,
    moment: Moment,
    footprint: &Footprint,
    store: &PointedStore,
) -> Result<(DeliveryReply, DeliveredOrders), Fault>
    ensures { AnswersOn delivered_of (λ db. delivery_touch db p.now) (λ db. delivery db p.now moment) catalog.now
        (loaned store.now.rows footprint.now) result }
{
    let loan = Loan::new(store, footprint);
    delivery(alloc, catalog, p, moment, &loan)
}

/// The reply to a delivery on the rows that a footprint lends, whose changes are made in their places.
pub(crate) fn execute_in_place_within(
    alloc: Global,
    catalog: &Catalog,
    p: &Delivery,
    moment: Moment,
    footprint: &Footprint,
    store: &mut PointedStore,
) -> Result<Reply, Fault>
    ensures answer { AnswersInPlace (λ answer. ExecutesOn (λ db. delivery_touch db p.now) (λ db. delivery_outcome (delivery db p.now moment))
        catalog.now (loaned store.old.rows footprint.now) (concluded kind.Delivery answer)) store.old.rows store.new.rows result }
    ensures kept { KeepsPoints store.old store.new }
{
    let (reply, delivered) = delivery_on_loan(alloc, catalog, p, moment, footprint, store)?;
    delivered.write(store)?;
    Ok(Reply::Delivery(reply))
}
