//! Stock-Level (TPC-C clause 2.8): if the district has a card, it reads the district's next order number and book, and the
//! stock of each item in the lines of the district's last twenty orders, and of its orders earlier in the batch.
ghost use Rattle.std.specs.Prelude.{◌≡◌, ◌<◌, Some, length, map, option_copied, IfOk, OnOk};
ghost use Rattle.catalog.specs.Lookups.{stock_card};
ghost use Rattle.profiles.specs.Declarations.{earlier_touch, later_stock_level, ordered_item_touch, ordered_items_touch};
ghost use Rattle.profiles.specs.Earlier.{before, last_order_of};
ghost use Rattle.serializability.specs.Footprints.{joined, joined_all};
ghost use Rattle.tpcc_model.specs.Database.{database};
ghost use Rattle.tpcc_model.specs.Touches.{counted_touch, item_touch, line_touch, lines_touch, recent_touch};

use crate::earlier::Counted;
use crate::new_order::has_cards;
use catalog::Catalog;
use requests::request::{NewOrder, OrderedLine, Request, StockLevel};
use row_store::PointedStore;
use std::alloc::Global;
use tpcc_model::number::{line_number, order_id};
use tpcc_rows::footprint::Footprint;
use tpcc_rows::granule::Granule;
use tpcc_rows::id::{ItemId, OrderId};
use tpcc_rows::memory::Memory;
use tpcc_rows::row::{DistrictNextRow, OrderLineRow};
use worker_rows::{KeyedRows, district_next_row};

/// The stock of an item, if it has a card.
fn touch_item(
    catalog: &Catalog,
    p: &StockLevel,
    item: ItemId,
    footprint: &mut Footprint,
) -> Result<(), Memory>
    ensures { OnOk result (footprint.new ≡ joined footprint.old (item_touch p.now item (stock_card catalog.now p.now.warehouse item))) }
{
    let warehouse = p.warehouse;
    match catalog.stock(warehouse, item) {
        Some(_) => footprint.read(Granule::Stock { warehouse, item }),
        None => Ok(()),
    }
}

/// The stock of the line's item.
fn touch_line(
    catalog: &Catalog,
    p: &StockLevel,
    line: Option<&OrderLineRow>,
    footprint: &mut Footprint,
) -> Result<(), Memory>
    ensures { OnOk result (footprint.new ≡ joined footprint.old (line_touch catalog.now p.now (option_copied line.entry))) }
{
    match line {
        Some(line) => touch_item(catalog, p, line.item, footprint),
        None => Ok(()),
    }
}

/// The order's lines, of which there are at most fifteen.
fn touch_lines(
    catalog: &Catalog,
    p: &StockLevel,
    store: &PointedStore,
    order: OrderId,
    footprint: &mut Footprint,
) -> Result<(), Memory>
    ensures { OnOk result (footprint.new ≡ joined footprint.old (lines_touch (database catalog.now store.now.rows) p.now order 15)) }
{
    let lines = store.order_lines(p.warehouse, p.district, order);
    for index in 0..15 {
        let line = lines.get(line_number(index + 1));
        touch_line(catalog, p, line, footprint)?;
    }
    Ok(())
}

/// The last twenty orders of the district.
fn touch_recent(
    catalog: &Catalog,
    p: &StockLevel,
    store: &PointedStore,
    district: &DistrictNextRow,
    footprint: &mut Footprint,
) -> Result<(), Memory>
    ensures { OnOk result (footprint.new ≡ joined footprint.old (recent_touch (database catalog.now store.now.rows) p.now (Some district.now))) }
{
    let next = district.next_order.number();
    let first = next.saturating_sub(20).max(1);
    for order in first..next {
        touch_lines(catalog, p, store, order_id(order), footprint)?;
    }
    Ok(())
}

/// The stocks of the ordered items.
fn touch_items(
    catalog: &Catalog,
    p: &StockLevel,
    lines: &[OrderedLine],
    footprint: &mut Footprint,
) -> Result<(), Memory>
    ensures { OnOk result (footprint.new ≡ joined footprint.old (joined_all (map (ordered_item_touch catalog.now p.now) lines.now))) }
{
    for line in lines {
        touch_item(catalog, p, line.item, footprint)?;
    }
    Ok(())
}

/// The stocks of the items of an order, unless it is refused for an item or key without a card.
#[tactic(auto, unfolding(crate::specs::Declarations::ordered_items_touch))]
fn touch_order(
    catalog: &Catalog,
    p: &StockLevel,
    order: &NewOrder,
    footprint: &mut Footprint,
) -> Result<(), Memory>
    ensures { OnOk result (footprint.new ≡ joined footprint.old (ordered_items_touch catalog.now p.now order.now)) }
{
    if !has_cards(catalog, order) {
        return Ok(());
    }
    touch_items(catalog, p, order.lines.as_slice(), footprint)
}

/// The orders of the district among the requests before this place, the nearest first. `last` is what a Stock-Level at this
/// place knows of them.
fn touch_earlier(
    catalog: &Catalog,
    p: &StockLevel,
    batch: &Counted<'_>,
    place: usize,
    last: usize,
    footprint: &mut Footprint,
) -> Result<(), Memory>
    requires place { place < length batch.now.requests.now }
    requires last { last ≡ last_order_of p.now.warehouse p.now.district (before batch.now.requests.now place) }
    ensures { OnOk result (footprint.new ≡ joined footprint.old (joined_all (map (earlier_touch catalog.now p.now) (before batch.now.requests.now place)))) }
{
    let mut next = last;
    while 0 < next {
        let request = batch.request(next - 1);
        if let Request::NewOrder(order) = request {
            touch_order(catalog, p, order, footprint)?;
        }
        next = batch.known(next - 1, request);
    }
    Ok(())
}

/// What a Stock-Level at this place of the batch declares. `last` is what it knows of the orders before it.
#[tactic(auto, unfolding(crate::specs::Declarations::later_stock_level))]
pub(crate) fn declare(
    alloc: Global,
    catalog: &Catalog,
    p: &StockLevel,
    batch: &Counted<'_>,
    place: usize,
    last: usize,
    store: &PointedStore,
) -> Result<Footprint, Memory>
    requires place { place < length batch.now.requests.now }
    requires last { last ≡ last_order_of p.now.warehouse p.now.district (before batch.now.requests.now place) }
    ensures { IfOk result (λ footprint. footprint ≡ later_stock_level (database catalog.now store.now.rows) (before batch.now.requests.now place) p.now) }
{
    let mut footprint = Footprint::new(alloc);
    let (warehouse, district) = (p.warehouse, p.district);
    if catalog.district(warehouse, district).is_none() {
        return Ok(footprint);
    }
    footprint.read(Granule::DistrictNext {
        warehouse,
        district,
    })?;
    footprint.read(Granule::Book {
        warehouse,
        district,
    })?;
    if let Some(row) = district_next_row(store, warehouse, district) {
        touch_recent(catalog, p, store, row, &mut footprint)?;
    }
    touch_earlier(catalog, p, batch, place, last, &mut footprint)?;
    Ok(footprint)
}
