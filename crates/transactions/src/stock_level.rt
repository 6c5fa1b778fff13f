//! Stock-Level (TPC-C clause 2.8): the card of its district is found, then the number that the district has next, then
//! the lines of the last twenty orders are read. It changes nothing.
ghost use Rattle.std.specs.Prelude.{◌≡◌, ◌+◌, ◌≤◌, nat_eq, ◌∷◌, Some, is_ok, length, option_copied, IfOk, OnOk};
ghost use Rattle.std.specs.Set.{distinct_count};
ghost use Rattle.catalog.specs.Lookups.{stock_card};
ghost use Rattle.requests.specs.declared.request.RequestKind.TheVariants as kind;
ghost use Rattle.tpcc_model.specs.StockLevels.{is_low, stock_level, with_line, with_lines};
ghost use Rattle.tpcc_model.specs.Steps.{stock_level_outcome};
ghost use Rattle.tpcc_model.specs.Touches.{item_touch, line_touch, lines_touch, recent_touch, stock_level_touch};
ghost use Rattle.transactions.specs.Faults.{EndsWithin};
ghost use Rattle.transactions.specs.LowItems.{HoldsToo, recent_items};
ghost use Rattle.transactions.specs.OnViews.{AnswersOn, ExecutesOn, lent_database};
ghost use Rattle.transactions.specs.Outcomes.{concluded};
ghost use Rattle.worker_rows.specs.Views.{covers};

use crate::fault::Fault;
use crate::lent::{self, Lent};
use catalog::Catalog;
use requests::reply::{Reply, RequestRefusal, StockLevelReply};
use requests::request::StockLevel;
use std::alloc::{AllocError, Global};
use std::collections::BTreeSet;
use tpcc_model::number::{line_number, order_id};
use tpcc_rows::delta::Delta;
use tpcc_rows::id::{ItemId, OrderId};
use tpcc_rows::row::{DistrictNextRow, OrderLineRow};
use worker_rows::{KeyedRows, RowView, Strayed};

/// Whether the item's stock in the warehouse is low. One without a card is not looked at; few are low, so that the row is read before
/// the card is looked for.
#[tactic(auto, using(crate::proofs::LentTouches::covers_reading), unfolding(tpcc_model::specs::StockLevels::is_low))]
fn is_low<V: RowView>(
    catalog: &Catalog,
    view: &V,
    p: &StockLevel,
    item: ItemId,
) -> Result<bool, Strayed>
    ensures strays { is_ok result ≡ covers (V.sees view.now) (item_touch p.now item (stock_card catalog.now p.now.warehouse item)) }
    ensures low { IfOk result (λ low. low ≡ is_low (lent_database catalog.now (V.sees view.now)) p.now item) }
{
    match lent::read_stock(view, p.warehouse, item) {
        Ok(Some(stock)) if stock.quantity.value() < i16::from(p.threshold.value()) => {
            Ok(catalog.stock(p.warehouse, item).is_some())
        }
        Ok(_) => Ok(false),
        Err(Strayed) if catalog.stock(p.warehouse, item).is_some() => Err(Strayed),
        Err(Strayed) => Ok(false),
    }
}

/// One item more, unless it is there already.
fn hold(items: &mut BTreeSet<ItemId>, item: ItemId) -> Result<(), AllocError>
    ensures held { OnOk result (HoldsToo (λ xs. item ∷ xs) items.old items.new) }
    ensures len { length items.new.keys ≤ length items.old.keys + 1 }
{
    items.insert(item)?;
    Ok(())
}

/// Holds the item of the line too, where it is low.
fn hold_line<V: RowView>(
    catalog: &Catalog,
    view: &V,
    p: &StockLevel,
    line: Option<&OrderLineRow>,
    items: &mut BTreeSet<ItemId>,
) -> Result<(), Fault>
    ensures within { EndsWithin (covers (V.sees view.now) (line_touch catalog.now p.now (option_copied line.entry))) result }
    ensures held { OnOk result (HoldsToo (with_line (lent_database catalog.now (V.sees view.now)) p.now (option_copied line.entry)) items.old items.new) }
    ensures len { length items.new.keys ≤ length items.old.keys + 1 }
{
    if let Some(line) = line {
        if is_low(catalog, view, p, line.item)? {
            hold(items, line.item)?;
        }
    }
    Ok(())
}

/// Holds the low items of the order's lines too.
fn hold_lines<V: RowView>(
    catalog: &Catalog,
    view: &V,
    p: &StockLevel,
    order: OrderId,
    items: &mut BTreeSet<ItemId>,
) -> Result<(), Fault>
    ensures within { EndsWithin (covers (V.sees view.now) (lines_touch (lent_database catalog.now (V.sees view.now)) p.now order 15)) result }
    ensures held { OnOk result (HoldsToo (with_lines (lent_database catalog.now (V.sees view.now)) p.now order 15) items.old items.new) }
    ensures len { length items.new.keys ≤ length items.old.keys + 15 }
{
    let rows = Lent { view };
    let lines = rows.order_lines(p.warehouse, p.district, order);
    for index in 0..15 {
        let line = lines.get(line_number(index + 1));
        hold_line(catalog, view, p, line, items)?;
    }
    Ok(())
}

/// How many distinct low items the lines of the last twenty orders have.
fn low_stock<V: RowView>(
    alloc: Global,
    catalog: &Catalog,
    view: &V,
    p: &StockLevel,
    district: &DistrictNextRow,
) -> Result<u32, Fault>
    ensures within { EndsWithin (covers (V.sees view.now) (recent_touch (lent_database catalog.now (V.sees view.now)) p.now (Some district.now))) result }
    ensures count { IfOk result (λ n. n ≡ distinct_count nat_eq (recent_items (lent_database catalog.now (V.sees view.now)) p.now district.now)) }
{
    let next = district.next_order.number();
    let first = next.saturating_sub(20).max(1);
    let mut items = BTreeSet::new(alloc);
    for order in first..next {
        hold_lines(catalog, view, p, order_id(order), &mut items)?;
    }
    Ok(items.len() as u32)
}

#[tactic(auto, using(crate::proofs::LentTouches::covers_counted), unfolding(tpcc_model::specs::Touches::stock_level_touch, tpcc_model::specs::StockLevels::stock_level))]
fn stock_level<V: RowView>(
    alloc: Global,
    catalog: &Catalog,
    p: &StockLevel,
    view: &V,
) -> Result<StockLevelReply, Fault>
    ensures { AnswersOn (λ counted. counted) (λ db. stock_level_touch db p.now) (λ db. stock_level db p.now) catalog.now (V.sees view.now) result }
{
    catalog
        .district(p.warehouse, p.district)
        .ok_or(RequestRefusal::UnknownKey)?;
    let district = lent::read_district_next(view, p.warehouse, p.district)?;
    // The book is looked at, whether or not there are lines in it.
    lent::book(view, p.warehouse, p.district)?;
    let district = district.ok_or(RequestRefusal::UnknownKey)?;
    let low_stock = low_stock(alloc, catalog, view, p, district)?;
    Ok(StockLevelReply { low_stock })
}

/// The reply to a question for low stocks, and no changes.
pub(crate) fn execute<V: RowView>(
    alloc: Global,
    catalog: &Catalog,
    p: &StockLevel,
    view: &V,
) -> Result<(Reply, Delta), Fault>
    ensures { ExecutesOn (λ db. stock_level_touch db p.now) (λ db. stock_level_outcome (stock_level db p.now)) catalog.now (V.sees view.now)
        (concluded kind.StockLevel result) }
{
    let reply = stock_level(alloc, catalog, p, view)?;
    Ok((Reply::StockLevel(reply), Delta::new(alloc)))
}
