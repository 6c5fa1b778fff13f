//! Order-Status (TPC-C clause 2.6): if the customer has a card, it reads the customer and the district's book.
ghost use Rattle.std.specs.Prelude.{◌≡◌, IfOk};
ghost use Rattle.tpcc_model.specs.Database.{database};
ghost use Rattle.tpcc_model.specs.Touches.{asked_customer, order_status_touch};
ghost use Rattle.tpcc_rows.specs.RowMap.{Rows};

use catalog::Catalog;
use requests::reply::RequestRefusal;
use requests::request::OrderStatus;
use std::alloc::Global;
use tpcc_model::choice::chosen_customer;
use tpcc_rows::footprint::Footprint;
use tpcc_rows::granule::Granule;
use tpcc_rows::id::CustomerId;
use tpcc_rows::memory::Memory;

/// The customer who is asked about, if there is such a card.
#[tactic(auto, unfolding(tpcc_model::specs::Touches::asked_customer))]
fn asked_customer(catalog: &Catalog, p: &OrderStatus) -> Result<CustomerId, RequestRefusal>
    ensures { result ≡ asked_customer catalog.now p.now }
{
    let chosen = chosen_customer(catalog, p.warehouse, p.district, &p.customer);
    let customer = chosen.ok_or(RequestRefusal::UnknownKey)?;
    catalog
        .customer(p.warehouse, p.district, customer)
        .ok_or(RequestRefusal::UnknownKey)?;
    Ok(customer)
}

/// What an Order-Status touches, whatever the rows are.
#[tactic(auto, unfolding(tpcc_model::specs::Touches::order_status_touch))]
pub(crate) fn declare(
    alloc: Global,
    catalog: &Catalog,
    p: &OrderStatus,
) -> Result<Footprint, Memory>
    ensures { (rows : Rows) → IfOk result (λ footprint. footprint ≡ order_status_touch (database catalog.now rows) p.now) }
{
    let mut footprint = Footprint::new(alloc);
    let Ok(customer) = asked_customer(catalog, p) else {
        return Ok(footprint);
    };
    let (warehouse, district) = (p.warehouse, p.district);
    footprint.read(Granule::Customer {
        warehouse,
        district,
        customer,
    })?;
    footprint.read(Granule::Book {
        warehouse,
        district,
    })?;
    Ok(footprint)
}
