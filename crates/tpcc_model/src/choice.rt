//! The choice of a customer (TPC-C clauses 2.5.1.2 and 2.6.1.2).
ghost use Rattle.std.specs.Prelude.{◌≡◌};
ghost use Rattle.tpcc_model.specs.Choices.{chosen_customer};

use catalog::Catalog;
use requests::request::CustomerChoice;
use tpcc_rows::id::{CustomerId, DistrictId, WarehouseId};

/// The number of the customer of the district that a request chooses.
pub fn chosen_customer(
    catalog: &Catalog,
    warehouse: WarehouseId,
    district: DistrictId,
    choice: &CustomerChoice,
) -> Option<CustomerId>
    ensures { result ≡ chosen_customer catalog.now warehouse district choice.now }
{
    match choice {
        CustomerChoice::Number(customer) => Some(*customer),
        CustomerChoice::LastName(last) => catalog.by_last(warehouse, district, last),
    }
}
