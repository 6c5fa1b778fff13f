//! Payment (TPC-C clause 2.5): if each of its keys has a card, it writes the totals of its warehouse and its district, and the
//! customer, who may be of another district.
ghost use Rattle.std.specs.Prelude.{◌≡◌, IfOk};
ghost use Rattle.profiles.specs.Found.{paying_customer};
ghost use Rattle.tpcc_model.specs.Database.{database};
ghost use Rattle.tpcc_model.specs.Staging.{known};
ghost use Rattle.tpcc_model.specs.Touches.{payment_touch};
ghost use Rattle.tpcc_rows.specs.RowMap.{Rows};

use catalog::Catalog;
use requests::request::Payment;
use std::alloc::Global;
use tpcc_model::choice::chosen_customer;
use tpcc_rows::footprint::Footprint;
use tpcc_rows::granule::Granule;
use tpcc_rows::id::CustomerId;
use tpcc_rows::memory::Memory;

/// The customer who pays, if each key of the payment has a card.
#[tactic(auto, unfolding(tpcc_model::specs::Payments::found_cards))]
fn paying_customer(catalog: &Catalog, p: &Payment) -> Option<CustomerId>
    ensures { known result ≡ paying_customer catalog.now p.now }
{
    let (warehouse, district) = (p.customer_warehouse, p.customer_district);
    catalog.warehouse(p.warehouse)?;
    catalog.district(p.warehouse, p.district)?;
    let customer = chosen_customer(catalog, warehouse, district, &p.customer)?;
    catalog.customer(warehouse, district, customer)?;
    Some(customer)
}

/// What a Payment touches, whatever the rows are.
#[tactic(auto, unfolding(tpcc_model::specs::Touches::payment_touch))]
pub(crate) fn declare(alloc: Global, catalog: &Catalog, p: &Payment) -> Result<Footprint, Memory>
    ensures { (rows : Rows) → IfOk result (λ footprint. footprint ≡ payment_touch (database catalog.now rows) p.now) }
{
    let mut footprint = Footprint::new(alloc);
    let Some(customer) = paying_customer(catalog, p) else {
        return Ok(footprint);
    };
    footprint.write(Granule::Warehouse {
        warehouse: p.warehouse,
    })?;
    footprint.write(Granule::DistrictYtd {
        warehouse: p.warehouse,
        district: p.district,
    })?;
    footprint.write(Granule::Customer {
        warehouse: p.customer_warehouse,
        district: p.customer_district,
        customer,
    })?;
    Ok(footprint)
}
