//! New-Order (TPC-C clause 2.4): if each of its keys has a card, it writes its district's next order number, the district's
//! book, and the stock of each line.
ghost use Rattle.std.specs.Prelude.{◌≡◌, is_ok, map, IfOk, OnOk};
ghost use Rattle.std.specs.List.{list_all};
ghost use Rattle.serializability.specs.Footprints.{joined, joined_all};
ghost use Rattle.profiles.specs.Found.{has_cards};
ghost use Rattle.tpcc_model.specs.Database.{database};
ghost use Rattle.tpcc_model.specs.NewOrders.{found_cards};
ghost use Rattle.tpcc_model.specs.Touches.{new_order_touch, ordered_touch};
ghost use Rattle.tpcc_rows.specs.RowMap.{Rows};

use catalog::Catalog;
use requests::request::{NewOrder, OrderedLine};
use std::alloc::Global;
use tpcc_rows::footprint::Footprint;
use tpcc_rows::granule::Granule;
use tpcc_rows::memory::Memory;

/// Whether the item of the line and its stock have cards.
fn has_line_cards(catalog: &Catalog, line: &OrderedLine) -> bool
    ensures { result ≡ has_cards catalog.now line.now }
{
    catalog.item(line.item).is_some() && catalog.stock(line.supply, line.item).is_some()
}

fn have_cards(catalog: &Catalog, lines: &[OrderedLine]) -> bool
    ensures { result ≡ list_all (has_cards catalog.now) lines.now }
{
    lines.iter().all(|line| has_line_cards(catalog, line))
}

/// Whether each key of the order has a card.
#[tactic(auto, using(crate::proofs::FoundCards::all_found))]
pub(crate) fn has_cards(catalog: &Catalog, p: &NewOrder) -> bool
    ensures { result ≡ is_ok (found_cards catalog.now p.now) }
{
    catalog.warehouse(p.warehouse).is_some()
        && catalog.district(p.warehouse, p.district).is_some()
        && catalog
            .customer(p.warehouse, p.district, p.customer)
            .is_some()
        && have_cards(catalog, p.lines.as_slice())
}

/// The stock of each line.
fn touch_stocks(lines: &[OrderedLine], footprint: &mut Footprint) -> Result<(), Memory>
    ensures { OnOk result (footprint.new ≡ joined footprint.old (joined_all (map ordered_touch lines.now))) }
{
    for line in lines {
        footprint.write(Granule::Stock {
            warehouse: line.supply,
            item: line.item,
        })?;
    }
    Ok(())
}

/// What a New-Order touches, whatever the rows are.
#[tactic(auto, unfolding(tpcc_model::specs::Touches::new_order_touch))]
pub(crate) fn declare(alloc: Global, catalog: &Catalog, p: &NewOrder) -> Result<Footprint, Memory>
    ensures { (rows : Rows) → IfOk result (λ footprint. footprint ≡ new_order_touch (database catalog.now rows) p.now) }
{
    let mut footprint = Footprint::new(alloc);
    if !has_cards(catalog, p) {
        return Ok(footprint);
    }
    let (warehouse, district) = (p.warehouse, p.district);
    footprint.write(Granule::DistrictNext {
        warehouse,
        district,
    })?;
    footprint.write(Granule::Book {
        warehouse,
        district,
    })?;
    touch_stocks(p.lines.as_slice(), &mut footprint)?;
    Ok(footprint)
}
