//! Delivery (TPC-C clause 2.7): if the warehouse has a card, it writes the book of each district in which it delivers an order,
//! and the customer of that order; the book of a district with no order to deliver is only read.
ghost use Rattle.std.specs.Prelude.{◌≡◌, ◌+◌, option_copied, IfOk, OnOk};
ghost use Rattle.profiles.specs.Declarations.{districts_touch, later_delivery, nth_new_order};
ghost use Rattle.serializability.specs.Footprints.{joined};
ghost use Rattle.catalog.specs.CardMap.{Cards};
ghost use Rattle.tpcc_model.specs.Database.{database};
ghost use Rattle.tpcc_model.specs.Soundness.{IsSound};
ghost use Rattle.tpcc_model.specs.Touches.{credited_touch, delivered_touch};
ghost use Rattle.tpcc_rows.specs.Limits.{between};

use catalog::Catalog;
use requests::request::Delivery;
use row_store::PointedStore;
use std::alloc::Global;
use tpcc_rows::footprint::Footprint;
use tpcc_rows::granule::Granule;
use tpcc_rows::id::{DistrictId, OrderId, WarehouseId};
use tpcc_rows::key::RowKey;
use tpcc_rows::memory::Memory;
use tpcc_rows::row::OrderRow;
use worker_rows::order_row;

/// The customer of the order, if the order exists.
fn touch_customer(
    p: &Delivery,
    district: DistrictId,
    order: Option<&OrderRow>,
    footprint: &mut Footprint,
) -> Result<(), Memory>
    ensures { OnOk result (footprint.new ≡ joined footprint.old (credited_touch p.now district (option_copied order.entry))) }
{
    match order {
        Some(order) => footprint.write(Granule::Customer {
            warehouse: p.warehouse,
            district,
            customer: order.customer,
        }),
        None => Ok(()),
    }
}

/// The order number that is `n` above this one.
fn number_above(order: OrderId, n: usize) -> Option<OrderId>
    ensures { result ≡ between 1 9999999 (order + n) }
{
    let above = u32::try_from(n).ok()?;
    OrderId::new(order.number().checked_add(above)?)
}

/// The district's new order that `n` others precede. On a sound database new orders are numbered without gaps (TPC-C clause
/// 3.3.2.3).
fn nth_new_order(
    store: &PointedStore,
    warehouse: WarehouseId,
    district: DistrictId,
    n: usize,
) -> Option<OrderId>
    ensures { (cards : Cards) → IsSound (database cards store.now.rows) → result ≡ nth_new_order store.now.rows warehouse district n }
{
    let oldest = store.rows().oldest_new(warehouse, district)?;
    let order = number_above(oldest, n)?;
    let key = RowKey::NewOrder {
        warehouse,
        district,
        order,
    };
    store.get(&key)?;
    Some(order)
}

/// The district's book, and the customer who is credited for its order, if one is delivered.
fn touch_district(
    p: &Delivery,
    district: DistrictId,
    order: Option<OrderId>,
    store: &PointedStore,
    footprint: &mut Footprint,
) -> Result<(), Memory>
    ensures { OnOk result (footprint.new ≡ joined footprint.old (delivered_touch store.now.rows p.now district order)) }
{
    let warehouse = p.warehouse;
    let book = Granule::Book {
        warehouse,
        district,
    };
    match order {
        Some(order) => {
            footprint.write(book)?;
            let order = order_row(store, warehouse, district, order);
            touch_customer(p, district, order, footprint)
        }
        None => footprint.read(book),
    }
}

/// The ten districts, in each of which `n` new orders are delivered before.
fn touch_districts(
    p: &Delivery,
    n: usize,
    store: &PointedStore,
    footprint: &mut Footprint,
) -> Result<(), Memory>
    ensures { (cards : Cards) → IsSound (database cards store.now.rows)
        → OnOk result (footprint.new ≡ joined footprint.old (districts_touch store.now.rows n p.now)) }
{
    for district in &DistrictId::all() {
        let order = nth_new_order(store, p.warehouse, *district, n);
        touch_district(p, *district, order, store, footprint)?;
    }
    Ok(())
}

/// What a Delivery declares that `n` others of its warehouse precede in the batch.
#[tactic(auto, unfolding(crate::specs::Declarations::later_delivery))]
pub(crate) fn declare(
    alloc: Global,
    catalog: &Catalog,
    p: &Delivery,
    n: usize,
    store: &PointedStore,
) -> Result<Footprint, Memory>
    ensures { IsSound (database catalog.now store.now.rows)
        → IfOk result (λ footprint. footprint ≡ later_delivery (database catalog.now store.now.rows) n p.now) }
{
    let mut footprint = Footprint::new(alloc);
    if catalog.warehouse(p.warehouse).is_none() {
        return Ok(footprint);
    }
    touch_districts(p, n, store, &mut footprint)?;
    Ok(footprint)
}
