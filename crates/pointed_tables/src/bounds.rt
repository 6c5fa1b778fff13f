//! Which new orders' rows a log may have noted.
ghost use Rattle.std.specs.Prelude.{◌≡◌, ◌+◌, ◌*◌, is_some, true};
ghost use Rattle.pointed_tables.specs.Bounds.{IsLowered, may_be_noted};

use std::alloc::Global;
use tpcc_rows::id::{DistrictId, WarehouseId};
use tpcc_rows::key::RowKey;
use tpcc_rows::memory::Memory;
use tpcc_rows::row::Row;

/// The number of places, which go to 10 * 100 + 10.
const PLACES: usize = 1_011;

/// For each district a number that isn't above that of any new order of which a log has noted a row. Until a log begins, there are no
/// numbers, and any row may be noted.
#[derive(Drop)]
pub struct Bounds {
    least: Vec<u32>,
}

/// The place of a district's number.
fn place_of(warehouse: WarehouseId, district: DistrictId) -> usize
    ensures { result ≡ 10 * warehouse + district }
{
    10 * usize::from(warehouse.number()) + usize::from(district.number())
}

impl Bounds {
    pub(crate) fn new(alloc: Global) -> Bounds {
        Bounds {
            least: Vec::new(alloc),
        }
    }

    /// No new order's row is noted.
    pub(crate) fn begin(&mut self) -> Result<(), Memory> {
        self.least.clear();
        self.least.resize(PLACES, u32::MAX)?;
        Ok(())
    }

    /// Notes that the key had a row.
    fn note_row(&mut self, key: &RowKey)
        ensures noted { may_be_noted self.new key.now ≡ true }
        ensures lowered { IsLowered self.old self.new }
    {
        if let RowKey::NewOrder {
            warehouse,
            district,
            order,
        } = *key
        {
            let place = place_of(warehouse, district);
            let number = order.number();
            if place < self.least.len() && number < self.least[place] {
                self.least[place] = number;
            }
        }
    }

    /// Notes what a key had.
    pub(crate) fn note(&mut self, was: &(RowKey, Option<Row>))
        ensures noted { is_some was.now.1 ≡ true → may_be_noted self.new was.now.0 ≡ true }
        ensures lowered { IsLowered self.old self.new }
    {
        if was.1.is_some() {
            self.note_row(&was.0);
        }
    }

    /// Whether a row of the key may have been noted.
    pub(crate) fn may_be_noted(&self, key: &RowKey) -> bool
        ensures { result ≡ may_be_noted self.now key.now }
    {
        match *key {
            RowKey::NewOrder {
                warehouse,
                district,
                order,
            } => match self.least.get(place_of(warehouse, district)) {
                Some(least) => *least <= order.number(),
                None => true,
            },
            _ => true,
        }
    }
}
