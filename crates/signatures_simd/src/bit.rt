//! The bit of a granule.
ghost use Rattle.std.specs.Prelude.{◌≡◌, ◌<◌};
ghost use Rattle.signatures_simd.specs.Bits.{bit, pack, packed};

use tpcc_rows::granule::Granule;
use tpcc_rows::id::WarehouseId;

/// 2^64 over the golden ratio, rounded down: Knuth's multiplier for multiplicative hashing.
pub const MULTIPLIER: u64 = 0x9E37_79B9_7F4A_7C15;

fn place_pack(kind: u64, warehouse: WarehouseId, district: u64, number: u64) -> u64
    requires kind { kind < 8 }
    requires district { district < 11 }
    requires number { number < 1000000 }
    ensures { result ≡ pack kind warehouse district number }
{
    (kind << 48) + (u64::from(warehouse.number()) << 32) + (district << 24) + number
}

/// A granule as one number: its kind, warehouse, district and number, with 0 for what it doesn't have.
pub fn packed(granule: &Granule) -> u64
    ensures { result ≡ packed granule.now }
{
    match *granule {
        Granule::Warehouse { warehouse } => place_pack(1, warehouse, 0, 0),
        Granule::Customer {
            warehouse,
            district,
            customer,
        } => {
            let number = u64::from(customer.number());
            place_pack(3, warehouse, u64::from(district.number()), number)
        }
        Granule::Stock { warehouse, item } => place_pack(4, warehouse, 0, u64::from(item.number())),
        Granule::Book {
            warehouse,
            district,
        } => place_pack(5, warehouse, u64::from(district.number()), 0),
        Granule::DistrictYtd {
            warehouse,
            district,
        } => place_pack(6, warehouse, u64::from(district.number()), 0),
        Granule::DistrictNext {
            warehouse,
            district,
        } => place_pack(7, warehouse, u64::from(district.number()), 0),
    }
}

/// The bit of a granule in a signature, from 0 to 511.
#[tactic(auto, unfolding(crate::specs::Bits::bit))]
pub fn granule_bit(granule: &Granule) -> usize
    ensures value { result ≡ bit granule.now }
    ensures below { result < 512 }
{
    (packed(granule).wrapping_mul(MULTIPLIER) >> 55) as usize
}
