//! New-Order (TPC-C clause 2.4): the cards of its keys are found, then the number that its district has next, then its
//! lines are done in order, each on the rows as the earlier ones leave them. Nothing is written until the whole order is
//! decided. A delta keeps its changes in key order, and appends faster than it inserts. So the rows are put kind by kind,
//! in that order: the stocks, the order, the new order, its lines, and last the district's next number.
ghost use Rattle.std.specs.Prelude.{◌≡◌, ◌<◌, ◌≤◌, ◌+◌, ◌==◌, ◌&&◌, [], length, map, option_map, Some, IfOk, OnOk};
ghost use Rattle.std.specs.FinMap.{get, insert};
ghost use Rattle.std.specs.List.{list_all, sum_by};
ghost use Rattle.requests.specs.declared.request.RequestKind.TheVariants as kind;
ghost use Rattle.tpcc_model.specs.NewOrders.{all_local, lines_done, new_order, opened, order_of, raised_district};
ghost use Rattle.tpcc_model.specs.Staging.{within};
ghost use Rattle.tpcc_model.specs.Steps.{new_order_outcome};
ghost use Rattle.tpcc_model.specs.Touches.{new_order_touch, ordered_touch, placed_touch};
ghost use Rattle.transactions.specs.InPlace.{AnswersInPlace, whole};
ghost use Rattle.transactions.specs.Lending.{lent};
ghost use Rattle.transactions.specs.NewOrderParts.{AreOwnCards, IsPlaced, amount_of, line_cards_of, order_done_of, placed_order_of, so_far_of, stock_changes, stock_done, stocks_done, total_of, with_lines, with_order, with_placed, with_stocks};
ghost use Rattle.transactions.specs.OnViews.{AnswersOn, ExecutesOn};
ghost use Rattle.transactions.specs.Outcomes.{concluded, viewed};
ghost use Rattle.tpcc_rows.specs.Changing.{after};
ghost use Rattle.tpcc_rows.specs.RowMap.{Changes, Rows};
ghost use Rattle.tpcc_rows.specs.Rows.{stock_row};
ghost use Rattle.tpcc_rows.specs.declared.key.RowKey.TheVariants as key;
ghost use Rattle.tpcc_rows.specs.declared.row.DistrictNextRow.{DistrictNextRow};
ghost use Rattle.tpcc_rows.specs.declared.row.Row.TheVariants as row;
ghost use Rattle.worker_rows.specs.Views.{covers};
ghost use Rattle.worker_rows.specs.Writers.{KeepsPoints};

use crate::fault::Fault;
use crate::lent::{self, Lent};
use crate::order_line::{
    LineCards, brand_of, district_infos, found_lines, line_amount, order_line_of, ordered_stock,
    room_for,
};
use arrayvec::ArrayVec;
use catalog::{Catalog, CustomerCard, DistrictCard, WarehouseCard};
use requests::reply::{LineReplies, LineReply, NewOrderReply, Reply, RequestRefusal};
use requests::request::{NewOrder, OrderedLine};
use row_store::PointedStore;
use row_tables::table_row::NewOrderRow;
use std::alloc::Global;
use tpcc_model::number::line_number;
use tpcc_rows::delta::Delta;
use tpcc_rows::granule::Granule;
use tpcc_rows::id::{ItemId, OrderId, WarehouseId};
use tpcc_rows::key::RowKey;
use tpcc_rows::memory::Memory;
use tpcc_rows::number::{Cents, Count, Moment, StockQuantity};
use tpcc_rows::row::{DistrictNextRow, OrderRow, StockRow};
use tpcc_rows::total::total_cents;
use worker_rows::{KeyedRows, RowView, RowWriter, Whole, district_next_row};

/// The cards of a new order's own keys.
#[derive(Drop)]
pub(crate) struct OwnCards<'a> {
    pub warehouse: &'a WarehouseCard,
    pub district: &'a DistrictCard,
    pub customer: &'a CustomerCard,
}

/// None where one is unknown.
#[tactic(auto, unfolding(tpcc_model::specs::NewOrders::found_cards))]
fn own_cards<'a>(catalog: &'a Catalog, p: &NewOrder) -> Option<OwnCards<'a>>
    ensures { AreOwnCards catalog.now p.now result }
{
    let warehouse = catalog.warehouse(p.warehouse)?;
    let district = catalog.district(p.warehouse, p.district)?;
    let customer = catalog.customer(p.warehouse, p.district, p.customer)?;
    Some(OwnCards {
        warehouse,
        district,
        customer,
    })
}

/// None where the limit is passed.
#[tactic(auto, unfolding(tpcc_model::specs::NewOrders::raised_district))]
fn raised_district(old: &DistrictNextRow) -> Option<DistrictNextRow>
    ensures { within result ≡ raised_district old.now }
{
    let next_order = old.next_order.next()?;
    Some(DistrictNextRow { next_order })
}

fn all_local(warehouse: WarehouseId, lines: &[OrderedLine]) -> bool
    ensures { result ≡ all_local warehouse lines.now }
{
    lines.iter().all(|line| line.supply == warehouse)
}

#[tactic(auto, unfolding(tpcc_model::specs::NewOrders::order_of))]
fn order_of(p: &NewOrder, moment: Moment) -> OrderRow
    ensures { result ≡ order_of p.now moment }
{
    let lines = p.lines.as_slice();
    OrderRow {
        customer: p.customer,
        entry: moment,
        carrier: None,
        line_count: line_number(lines.len()),
        all_local: all_local(p.warehouse, lines),
    }
}

/// A stock of a line, with its new row.
#[derive(Clone, Copy)]
pub(crate) struct NewStock {
    pub warehouse: WarehouseId,
    pub item: ItemId,
    pub row: StockRow,
}

/// Fills a list's unused places.
impl Default for NewStock {
    fn default() -> NewStock {
        let none = Count::new(0).unwrap();
        NewStock {
            warehouse: WarehouseId::new(1).unwrap(),
            item: ItemId::new(1).unwrap(),
            row: StockRow {
                quantity: StockQuantity::new(0).unwrap(),
                ytd: none,
                order_count: none,
                remote_count: none,
            },
        }
    }
}

/// What is made so far: the stocks of the lines, each with its new row, and what is answered for the lines.
#[derive(Drop)]
struct OrderSoFar {
    stocks: ArrayVec<NewStock, 15>,
    lines: LineReplies,
}

fn is_of(stock: &NewStock, warehouse: WarehouseId, item: ItemId) -> bool
    ensures { result ≡ ((stock.now.warehouse == warehouse) && (stock.now.item == item)) }
{
    stock.item == item && stock.warehouse == warehouse
}

/// The row that the last of these has for the stock.
fn earlier_stock(stocks: &[NewStock], warehouse: WarehouseId, item: ItemId) -> Option<StockRow>
    ensures { option_map (λ new. Some (row.Stock new)) result ≡ get (stock_changes stocks.now) (key.Stock warehouse item) }
{
    let mut found = None;
    for stock in stocks {
        if is_of(stock, warehouse, item) {
            found = Some(stock.row);
        }
    }
    found
}

/// The row of a line's stock, as the earlier lines leave it.
#[tactic(auto, using(tpcc_rows::proofs::Changes::seen))]
fn stock_now<V: RowView>(view: &V, stocks: &[NewStock], line: &OrderedLine) -> Option<StockRow>
    ensures { result ≡ stock_row (after (lent (V.sees view.now)) (stock_changes stocks.now)) line.now.supply line.now.item }
{
    match earlier_stock(stocks, line.supply, line.item) {
        Some(row) => Some(row),
        None => Lent { view }.stock_row(line.supply, line.item).copied(),
    }
}

/// The stock of a line, where it has this row, and what is answered for the line.
#[tactic(auto, unfolding(crate::specs::NewOrderParts::stock_done), using(crate::proofs::NewStocks::one_more))]
fn stock_done(
    p: &NewOrder,
    line: &LineCards<'_>,
    old: &StockRow,
    so_far: &mut OrderSoFar,
) -> Result<(), RequestRefusal>
    requires stocks { length so_far.old.stocks.items < 15 }
    requires lines { length so_far.old.lines < 15 }
    ensures answer { viewed (λ done. so_far_of so_far.new) result ≡ stock_done p.now (line_cards_of line.now) old.now (so_far_of so_far.old) }
    ensures one_stock { OnOk result (length so_far.new.stocks.items ≡ length so_far.old.stocks.items + 1) }
    ensures one_line { OnOk result (length so_far.new.lines ≡ length so_far.old.lines + 1) }
{
    let row = ordered_stock(p.warehouse, line.ordered, old).ok_or(RequestRefusal::LimitReached)?;
    let amount = line_amount(line).ok_or(RequestRefusal::LimitReached)?;
    let reply = LineReply {
        stock: row.quantity,
        brand: brand_of(line),
        amount,
    };
    let stock = NewStock {
        warehouse: line.ordered.supply,
        item: line.ordered.item,
        row,
    };
    so_far.stocks.push(stock);
    so_far.lines.push(reply);
    Ok(())
}

/// The stocks of all lines, each on the rows as the earlier ones leave them.
fn stocks_done<V: RowView>(
    view: &V,
    p: &NewOrder,
    lines: &[LineCards<'_>],
    so_far: &mut OrderSoFar,
) -> Result<(), RequestRefusal>
    requires few { length lines.now ≤ 15 }
    requires no_stocks { so_far.old.stocks.items ≡ [] }
    requires no_lines { so_far.old.lines ≡ [] }
    ensures { viewed (λ done. so_far_of so_far.new) result
        ≡ stocks_done (lent (V.sees view.now)) p.now (map line_cards_of lines.now) (so_far_of so_far.old) }
{
    for line in lines {
        let row = stock_now(view, so_far.stocks.as_slice(), line.ordered);
        let old = row.ok_or(RequestRefusal::UnknownKey)?;
        stock_done(p, line, &old, so_far)?;
    }
    Ok(())
}

/// The sum of OL_AMOUNT.
fn sum_of(lines: &[LineReply]) -> u32
    requires { length lines.now ≤ 15 }
    ensures { result ≡ sum_by (λ line. line.amount) lines.now }
{
    lines.iter().map(|line| line.amount.cents()).sum()
}

fn total_of(own: &OwnCards<'_>, lines: &[LineReply]) -> Cents
    requires { length lines.now ≤ 15 }
    ensures { result ≡ total_of own.now lines.now }
{
    let total = total_cents(
        sum_of(lines),
        own.customer.discount,
        own.warehouse.tax,
        own.district.tax,
    );
    Cents::new(total).unwrap()
}

/// An order that is decided, and not yet written: its rows, and the reply to it.
#[derive(Drop)]
pub(crate) struct PlacedOrder<'a> {
    p: &'a NewOrder,
    moment: Moment,
    next_row: DistrictNextRow,
    lines: Vec<LineCards<'a>>,
    stocks: ArrayVec<NewStock, 15>,
    pub reply: NewOrderReply,
}

/// The order with this number, which leaves this row of its district's next number.
fn placed<'a, V: RowView>(
    own: &OwnCards<'_>,
    p: &'a NewOrder,
    moment: Moment,
    view: &V,
    order: OrderId,
    next_row: DistrictNextRow,
    lines: Vec<LineCards<'a>>,
) -> Result<PlacedOrder<'a>, RequestRefusal>
    requires few { length lines.items ≤ 15 }
    ensures answer { viewed order_done_of result
        ≡ lines_done (lent (V.sees view.now)) p.now order 1 (map line_cards_of lines.entry.items) (opened p.now moment order next_row) }
    ensures placed { IfOk result IsPlaced }
    ensures order { IfOk result (λ placed. placed.reply.order ≡ order) }
    ensures total { IfOk result (λ placed. placed.reply.total ≡ total_of own.now placed.reply.lines) }
{
    let mut so_far = OrderSoFar {
        stocks: ArrayVec::new(),
        lines: LineReplies::new(),
    };
    stocks_done(view, p, &lines, &mut so_far)?;
    let total = total_of(own, so_far.lines.as_slice());
    Ok(PlacedOrder {
        p,
        moment,
        next_row,
        lines,
        stocks: so_far.stocks,
        reply: NewOrderReply {
            order,
            total,
            lines: so_far.lines,
        },
    })
}

/// Whether the line's stock may be written.
fn may_take<V: RowView>(view: &V, line: &OrderedLine) -> bool
    ensures { result ≡ covers (V.sees view.now) (ordered_touch line.now) }
{
    let stock = Granule::Stock {
        warehouse: line.supply,
        item: line.item,
    };
    lent::may_write(view, &stock)
}

fn may_take_all<V: RowView>(view: &V, lines: &[OrderedLine]) -> bool
    ensures { result ≡ list_all (λ line. covers (V.sees view.now) (ordered_touch line)) lines.now }
{
    lines.iter().all(|line| may_take(view, line))
}

/// Whether what the order changes may be written.
#[tactic(auto, using(crate::proofs::LentTouches::covers_placed))]
fn may_place<V: RowView>(view: &V, p: &NewOrder) -> bool
    ensures { result ≡ covers (V.sees view.now) (placed_touch p.now) }
{
    let (warehouse, district) = (p.warehouse, p.district);
    let next = Granule::DistrictNext {
        warehouse,
        district,
    };
    let book = Granule::Book {
        warehouse,
        district,
    };
    lent::may_write(view, &next)
        && lent::may_write(view, &book)
        && may_take_all(view, p.lines.as_slice())
}

/// Decides the order, on the rows that the view lends.
#[tactic(auto, unfolding(tpcc_model::specs::Touches::new_order_touch, tpcc_model::specs::NewOrders::new_order, tpcc_model::specs::NewOrders::found_cards, tpcc_model::specs::NewOrders::new_order_reply))]
pub(crate) fn placed_order<'a, V: RowView>(
    alloc: Global,
    catalog: &'a Catalog,
    p: &'a NewOrder,
    moment: Moment,
    view: &V,
) -> Result<PlacedOrder<'a>, Fault>
    ensures answer { AnswersOn placed_order_of (λ db. new_order_touch db p.now) (λ db. new_order db p.now moment) catalog.now (V.sees view.now) result }
    ensures placed { IfOk result IsPlaced }
{
    let Some(own) = own_cards(catalog, p) else {
        return Err(Fault::Refused(RequestRefusal::UnknownKey));
    };
    let lines = p.lines.as_slice();
    let lines = found_lines(alloc, catalog, lines, room_for(catalog, view, lines))?;
    if !may_place(view, p) {
        return Err(Fault::Strayed);
    }
    let rows = Lent { view };
    let Some(old) = district_next_row(&rows, p.warehouse, p.district) else {
        return Err(Fault::Refused(RequestRefusal::UnknownKey));
    };
    let Some(raised) = raised_district(old) else {
        return Err(Fault::Refused(RequestRefusal::LimitReached));
    };
    Ok(placed(&own, p, moment, view, old.next_order, raised, lines)?)
}

/// Puts the new rows of the stocks.
fn put_stocks<W: RowWriter>(stocks: &[NewStock], writer: &mut W) -> Result<(), Memory>
    ensures made { (rows : Rows) (changes : Changes) → W.Stands rows changes writer.old
        → OnOk result (W.Stands rows (with_stocks stocks.now changes) writer.new) }
    ensures kept { (first : W) → W.Keeps first writer.old → W.Keeps first writer.new }
{
    for stock in stocks {
        let stock_key = RowKey::Stock {
            warehouse: stock.warehouse,
            item: stock.item,
        };
        writer.put(stock_key, stock.row)?;
    }
    Ok(())
}

/// Puts the rows of the order and the new order.
fn put_order<W: RowWriter>(
    p: &NewOrder,
    moment: Moment,
    order: OrderId,
    writer: &mut W,
) -> Result<(), Memory>
    ensures made { (rows : Rows) (changes : Changes) → W.Stands rows changes writer.old
        → OnOk result (W.Stands rows (with_order p.now moment order changes) writer.new) }
    ensures kept { (first : W) → W.Keeps first writer.old → W.Keeps first writer.new }
{
    let (warehouse, district) = (p.warehouse, p.district);
    let order_key = RowKey::Order {
        warehouse,
        district,
        order,
    };
    writer.put_new(order_key, order_of(p, moment))?;
    let new_order_key = RowKey::NewOrder {
        warehouse,
        district,
        order,
    };
    writer.put_new(new_order_key, NewOrderRow)
}

/// Puts the rows of all lines, with the amounts that the replies to them have.
fn put_lines<W: RowWriter>(
    p: &NewOrder,
    order: OrderId,
    lines: &[LineCards<'_>],
    replies: &[LineReply],
    writer: &mut W,
) -> Result<(), Memory>
    requires few { length lines.now ≤ 15 }
    requires amounts { map (λ reply. reply.amount) replies.now ≡ map amount_of (map line_cards_of lines.now) }
    ensures made { (rows : Rows) (changes : Changes) → W.Stands rows changes writer.old
        → OnOk result (W.Stands rows (with_lines p.now order 1 (map line_cards_of lines.now) changes) writer.new) }
    ensures kept { (first : W) → W.Keeps first writer.old → W.Keeps first writer.new }
{
    let infos = district_infos(lines, p.district);
    for (index, line) in lines.iter().enumerate() {
        let line_key = RowKey::OrderLine {
            warehouse: p.warehouse,
            district: p.district,
            order,
            number: line_number(index + 1),
        };
        let line_row = order_line_of(p, line, &infos[index], replies[index].amount);
        writer.put_new(line_key, line_row)?;
    }
    Ok(())
}

/// Puts the row of the district's next number.
fn put_next<W: RowWriter>(
    p: &NewOrder,
    next_row: DistrictNextRow,
    writer: &mut W,
) -> Result<(), Memory>
    ensures made { (rows : Rows) (changes : Changes) → W.Stands rows changes writer.old
        → OnOk result (W.Stands rows (insert changes (key.DistrictNext p.now.warehouse p.now.district) (Some (row.DistrictNext next_row))) writer.new) }
    ensures kept { (first : W) → W.Keeps first writer.old → W.Keeps first writer.new }
{
    let next_key = RowKey::DistrictNext {
        warehouse: p.warehouse,
        district: p.district,
    };
    writer.put(next_key, next_row)
}

/// Writes the rows of the order. After a refusal some of them may have been written.
pub(crate) fn write<W: RowWriter>(placed: &PlacedOrder<'_>, writer: &mut W) -> Result<(), Memory>
    requires { IsPlaced placed.now }
    ensures made { (rows : Rows) (changes : Changes) → W.Stands rows changes writer.old
        → OnOk result (W.Stands rows (with_placed placed.now changes) writer.new) }
    ensures kept { (first : W) → W.Keeps first writer.old → W.Keeps first writer.new }
{
    let (p, order) = (placed.p, placed.reply.order);
    let replies = placed.reply.lines.as_slice();
    put_stocks(placed.stocks.as_slice(), writer)?;
    put_order(p, placed.moment, order, writer)?;
    put_lines(p, order, &placed.lines, replies, writer)?;
    put_next(p, placed.next_row, writer)
}

/// The reply to a new order, and the rows that it changes.
pub(crate) fn execute<V: RowView>(
    alloc: Global,
    catalog: &Catalog,
    p: &NewOrder,
    moment: Moment,
    view: &V,
) -> Result<(Reply, Delta), Fault>
    ensures { ExecutesOn (λ db. new_order_touch db p.now) (λ db. new_order_outcome (new_order db p.now moment)) catalog.now (V.sees view.now)
        (concluded kind.NewOrder result) }
{
    let placed = placed_order(alloc, catalog, p, moment, view)?;
    let mut changes = Delta::with_room(alloc, 3 + 2 * placed.lines.len())?;
    write(&placed, &mut changes)?;
    Ok((Reply::NewOrder(placed.reply), changes))
}

/// Reads where the ranks of the order and its lines are listed, side by side, so that writing its rows needn't wait for memory.
fn prefetch_lists(placed: &PlacedOrder<'_>, store: &mut PointedStore)
    requires { IsPlaced placed.now }
    ensures { store.new ≡ store.old }
{
    let (p, order) = (placed.p, placed.reply.order);
    let (warehouse, district) = (p.warehouse, p.district);
    store.prefetch_list(&RowKey::Order {
        warehouse,
        district,
        order,
    });
    store.prefetch_list(&RowKey::NewOrder {
        warehouse,
        district,
        order,
    });
    for index in 0..placed.lines.len() {
        store.prefetch_list(&RowKey::OrderLine {
            warehouse,
            district,
            order,
            number: line_number(index + 1),
        });
    }
}

/// The reply to a new order on all rows of a store, whose changes are made in their places.
pub(crate) fn execute_in_place(
    alloc: Global,
    catalog: &Catalog,
    p: &NewOrder,
    moment: Moment,
    store: &mut PointedStore,
) -> Result<Reply, Fault>
    ensures answer { AnswersInPlace (λ answer. ExecutesOn (λ db. new_order_touch db p.now) (λ db. new_order_outcome (new_order db p.now moment))
        catalog.now (whole store.old.rows) (concluded kind.NewOrder answer)) store.old.rows store.new.rows result }
    ensures kept { KeepsPoints store.old store.new }
{
    let placed = placed_order(alloc, catalog, p, moment, &Whole { store: &*store })?;
    prefetch_lists(&placed, store);
    write(&placed, store)?;
    Ok(Reply::NewOrder(placed.reply))
}
