//! Where a footprint's list has its granules: hints, on which nothing relies.
ghost use Rattle.std.specs.Prelude.{◌≡◌, ◌<◌, IsTrue, length, true};
ghost use Rattle.std.specs.List.{list_any};
ghost use Rattle.tpcc_rows.specs.Granules.{same_granule};

use tpcc_rows::granule::Granule;
use tpcc_rows::id::{DistrictId, WarehouseId};

/// The most granules that are searched from the first on.
const FEW: usize = 16;

/// The most granules that have hints.
const MOST: usize = 65_536;

/// The number of hints.
const HINTS: usize = 1024;

/// 2^64 over the golden ratio: numbers of items are often alike in their last bits, their multiples' middle bits aren't.
const MULTIPLIER: usize = 0x9E37_79B9_7F4A_7C15;

/// How many hints may be a granule's.
const TRIES: usize = 8;

/// Where a list of many granules may have one: the hint that its number leads to says so, or, if that was taken, one of the next. 0
/// stands for none, too. A Stock-Level declares some two hundred granules, and ten of each earlier order of its district.
#[derive(Clone, Copy)]
pub(crate) struct Hints {
    places: [u16; HINTS],
    /// How many hints are looked at: none for a list of few.
    tries: usize,
}

/// A number of a district.
fn district_number(warehouse: WarehouseId, district: DistrictId) -> usize {
    usize::from(warehouse.number()) * 16 + usize::from(district.number())
}

/// The first hint for a granule.
fn hint_of(granule: &Granule) -> usize
    ensures { result < HINTS }
{
    let number = match granule {
        Granule::Warehouse { warehouse } => usize::from(warehouse.number()),
        Granule::Customer { customer, .. } => usize::from(customer.number()),
        Granule::Stock { item, .. } => item.number() as usize,
        Granule::Book {
            warehouse,
            district,
        }
        | Granule::DistrictYtd {
            warehouse,
            district,
        }
        | Granule::DistrictNext {
            warehouse,
            district,
        } => district_number(*warehouse, *district),
    };
    (number.wrapping_mul(MULTIPLIER) >> 32) % HINTS
}

/// Whether the list has the granule at this place.
fn is_at(granule: &Granule, granules: &[Granule], place: usize) -> bool
    ensures { IsTrue result → list_any (same_granule granule.now) granules.now ≡ true }
{
    match granules.get(place) {
        Some(other) => *granule == *other,
        None => false,
    }
}

/// Notes where the list has a granule in the first of its hints that is free, unless one has it already.
fn note(places: &mut [u16; HINTS], granules: &[Granule], place: u16)
    requires { place < length granules.now }
{
    let granule = &granules[usize::from(place)];
    let hint = hint_of(granule);
    for step in 0..TRIES {
        let next = (hint + step) % HINTS;
        if places[next] == 0 {
            places[next] = place;
            return;
        }
        if is_at(granule, granules, places[next] as usize) {
            return;
        }
    }
}

impl Hints {
    /// Hints for a list, if it is long.
    pub(crate) fn new(granules: &[Granule]) -> Hints {
        let mut places = [0; HINTS];
        if granules.len() <= FEW {
            return Hints { places, tries: 0 };
        }
        for place in 0..granules.len().min(MOST) {
            note(&mut places, granules, place as u16);
        }
        Hints {
            places,
            tries: TRIES,
        }
    }

    /// Whether the list has the granule where a hint says.
    pub(crate) fn leads_to(&self, granule: &Granule, granules: &[Granule]) -> bool
        ensures { IsTrue result → list_any (same_granule granule.now) granules.now ≡ true }
    {
        let hint = hint_of(granule);
        for step in 0..self.tries {
            let place = self.places[hint.wrapping_add(step) % HINTS] as usize;
            if is_at(granule, granules, place) {
                return true;
            }
        }
        false
    }
}
