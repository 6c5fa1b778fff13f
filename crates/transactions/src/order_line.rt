//! One line of a new order (TPC-C clause 2.4.2.2): its cards, its stock after it, its brand and its row.
ghost use Rattle.std.specs.Prelude.{◌≡◌, ◌≤◌, Err, false, is_ok, is_some, length, map, if◌then◌else◌, IfOk};
ghost use Rattle.std.specs.List.{list_all};
ghost use Rattle.catalog.specs.Lookups.{item_card};
ghost use Rattle.catalog.specs.StockCards.{district_info};
ghost use Rattle.tpcc_model.specs.NewOrders.{brand_of, found_lines, is_original, left_quantity, line_amount, order_line_of, ordered_stock, remote_orders};
ghost use Rattle.tpcc_model.specs.Staging.{for_each, within};
ghost use Rattle.transactions.specs.Faults.{AnswersBy};
ghost use Rattle.transactions.specs.NewOrderParts.{found_line, line_cards_of};
ghost use Rattle.transactions.specs.Outcomes.{viewed};

use crate::fault::Fault;
use arrayvec::ArrayVec;
use catalog::{Catalog, ItemCard, StockCard};
use requests::number::OrderedQuantity;
use requests::reply::{Brand, RequestRefusal};
use requests::request::{NewOrder, OrderedLine};
use std::alloc::Global;
use tpcc_rows::id::{DistrictId, WarehouseId};
use tpcc_rows::number::{Amount, LineQuantity, StockQuantity};
use tpcc_rows::row::{OrderLineRow, StockRow};
use tpcc_rows::text::Text;
use worker_rows::RowView;

/// A line with its item's card and its stock's.
#[derive(Drop)]
pub(crate) struct LineCards<'a> {
    pub ordered: &'a OrderedLine,
    pub item: &'a ItemCard,
    pub stock: &'a StockCard,
}

/// The line with its cards.
#[tactic(auto, unfolding(tpcc_model::specs::NewOrders::found_item, tpcc_model::specs::NewOrders::found_stock))]
fn found_line<'a>(
    catalog: &'a Catalog,
    line: &'a OrderedLine,
) -> Result<LineCards<'a>, RequestRefusal>
    ensures { viewed line_cards_of result ≡ found_line catalog.now line.now }
{
    let item = catalog.item(line.item).ok_or(RequestRefusal::ItemNotValid)?;
    let stock = catalog
        .stock(line.supply, line.item)
        .ok_or(RequestRefusal::UnknownKey)?;
    Ok(LineCards {
        ordered: line,
        item,
        stock,
    })
}

/// Whether each line's item has a card.
fn have_items(catalog: &Catalog, lines: &[OrderedLine]) -> bool
    ensures { result ≡ list_all (λ line. is_some (item_card catalog.now line.item)) lines.now }
{
    lines.iter().all(|line| catalog.item(line.item).is_some())
}

/// Why the lines have no cards, if one of them has none. Each item is looked for before any stock.
fn why_not_found(catalog: &Catalog, lines: &[OrderedLine]) -> RequestRefusal
    requires { is_ok (for_each (found_line catalog.now) lines.now) ≡ false }
    ensures { found_lines catalog.now lines.now ≡ Err result }
{
    if have_items(catalog, lines) {
        RequestRefusal::UnknownKey
    } else {
        RequestRefusal::ItemNotValid
    }
}

/// The number of lines, or one more. Computing it reads where the cards and the stocks of all lines are expected, side by side, so that
/// finding them needn't wait for memory.
pub(crate) fn room_for<V: RowView>(catalog: &Catalog, view: &V, lines: &[OrderedLine]) -> usize {
    let mut read = 0usize;
    for line in lines {
        read = read
            .wrapping_add(catalog.prefetch(line.supply, line.item))
            .wrapping_add(view.prefetch_stock(line.supply, line.item));
    }
    lines.len().wrapping_add(read % 2)
}

/// The lines with their cards. Memory is taken for so many lines at first.
pub(crate) fn found_lines<'a>(
    alloc: Global,
    catalog: &'a Catalog,
    lines: &'a [OrderedLine],
    room: usize,
) -> Result<Vec<LineCards<'a>>, Fault>
    ensures answer { AnswersBy (λ found. map line_cards_of found.items) (found_lines catalog.now lines.now) result }
    ensures len { IfOk result (λ found. length found.items ≡ length lines.now) }
{
    let mut found = Vec::with_capacity(alloc, room)?;
    for line in lines {
        match found_line(catalog, line) {
            Ok(cards) => found.push(cards)?,
            Err(_) => return Err(Fault::Refused(why_not_found(catalog, lines))),
        }
    }
    Ok(found)
}

fn left_quantity(have: StockQuantity, quantity: OrderedQuantity) -> i16
    ensures { result ≡ left_quantity have quantity }
{
    let left = have.value() - i16::from(quantity.value());
    if left >= 10 { left } else { left + 91 }
}

fn remote_orders(warehouse: WarehouseId, line: &OrderedLine) -> u8
    ensures { result ≡ remote_orders warehouse line.now }
{
    if line.supply == warehouse { 0 } else { 1 }
}

/// None where a limit is passed.
#[tactic(auto, unfolding(tpcc_model::specs::NewOrders::ordered_stock))]
pub(crate) fn ordered_stock(
    warehouse: WarehouseId,
    line: &OrderedLine,
    old: &StockRow,
) -> Option<StockRow>
    ensures { within result ≡ ordered_stock warehouse line.now old.now }
{
    let left = left_quantity(old.quantity, line.quantity);
    let quantity = StockQuantity::new(left)?;
    let ytd = old.ytd.raised(line.quantity.value())?;
    let order_count = old.order_count.raised(1)?;
    let remote_count = old.remote_count.raised(remote_orders(warehouse, line))?;
    Some(StockRow {
        quantity,
        ytd,
        order_count,
        remote_count,
    })
}

/// None where the limit is passed.
#[tactic(auto, unfolding(tpcc_model::specs::NewOrders::line_amount))]
pub(crate) fn line_amount(line: &LineCards<'_>) -> Option<Amount>
    ensures { within result ≡ line_amount (line_cards_of line.now) }
{
    let quantity = u32::from(line.ordered.quantity.value());
    Amount::new(quantity * line.item.price.cents())
}

#[tactic(auto, unfolding(tpcc_model::specs::NewOrders::is_original))]
fn is_original(text: &[u8]) -> bool
    ensures { result ≡ is_original text.now }
{
    for start in 0..text.len() {
        // Mostly the first byte tells that the word doesn't begin there.
        if text[start] == b'O' && text[start..].starts_with(b"ORIGINAL") {
            return true;
        }
    }
    false
}

#[tactic(auto, unfolding(tpcc_model::specs::NewOrders::brand_of))]
pub(crate) fn brand_of(line: &LineCards<'_>) -> Brand
    ensures { result ≡ brand_of (line_cards_of line.now) }
{
    if is_original(line.item.data.as_bytes()) && is_original(line.stock.data.as_bytes()) {
        Brand::Brand
    } else {
        Brand::Generic
    }
}

// OL_QUANTITY, whose limits are wider than those of an ordered quantity.
fn line_quantity(quantity: OrderedQuantity) -> LineQuantity
    ensures { result ≡ quantity }
{
    LineQuantity::new(quantity.value()).unwrap()
}

/// S_DIST_nn of each line's stock, for the order's district. They are copied in one short loop, so that they come from memory side
/// by side.
pub(crate) fn district_infos(
    lines: &[LineCards<'_>],
    district: DistrictId,
) -> ArrayVec<Text<24>, 15>
    requires { length lines.now ≤ 15 }
    ensures { result.items ≡ map (λ line. district_info line.stock.now district) lines.now }
{
    let mut infos = ArrayVec::new();
    for line in lines {
        infos.push(line.stock.district_info(district));
    }
    infos
}

#[tactic(auto, unfolding(tpcc_model::specs::NewOrders::order_line_of))]
pub(crate) fn order_line_of(
    p: &NewOrder,
    line: &LineCards<'_>,
    info: &Text<24>,
    amount: Amount,
) -> OrderLineRow
    requires { info.now ≡ district_info line.now.stock.now p.now.district }
    ensures { result ≡ order_line_of p.now (line_cards_of line.now) amount }
{
    OrderLineRow {
        item: line.ordered.item,
        supply: line.ordered.supply,
        delivery: None,
        quantity: line_quantity(line.ordered.quantity),
        amount,
        district_info: info.copied(),
    }
}
