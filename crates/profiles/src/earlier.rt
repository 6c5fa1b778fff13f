//! What a request has to know of those before it in its batch, counted in one pass.
ghost use Rattle.std.specs.Prelude.{◌≡◌, ◌+◌, ◌*◌, ◌<◌, ◌^◌, ◌∷◌, List, [], IfOk, Some, length, slice_get};
ghost use Rattle.profiles.specs.Earlier.{AreCounts, all_known, before, known_of, last_order_of};
ghost use Rattle.requests.specs.declared.request.Request.{Request};
ghost use Rattle.tpcc_rows.specs.Limits.{IsBetween};

use requests::request::Request;
use std::alloc::Global;
use tpcc_rows::id::{DistrictId, WarehouseId};
use tpcc_rows::memory::Memory;

/// A warehouse's index is its number, from 1 to 100.
const WAREHOUSES: usize = 101;

/// A district's index is ten times its warehouse's number, plus its own.
const DISTRICTS: usize = 1_011;

/// The requests of a batch, and what each has to know of those before it: a Delivery, how many others of its warehouse there
/// are; a New-Order or a Stock-Level, 1 more than the place of the last New-Order of its district, or 0 if there is none.
#[derive(Clone, Copy)]
pub(crate) struct Counted<'a> {
    pub requests: &'a [Request],
    pub known: &'a [usize],
    pub ghost counted: { known.now ≡ all_known requests.now },
}

impl Counted<'_> {
    pub fn request(&self, place: usize) -> &Request
        requires { place < length self.now.requests.now }
        ensures { slice_get self.now.requests.now place ≡ Some result.now }
    {
        &self.requests[place]
    }

    /// What the request at this place has to know.
    pub fn known(&self, place: usize, request: &Request) -> usize
        requires { slice_get self.now.requests.now place ≡ Some request.now }
        ensures { result ≡ known_of (before self.now.requests.now place) request.now }
    {
        self.known[place]
    }
}

/// What the requests so far come to: the number of Deliveries by warehouse, and 1 more than the place of the last New-Order by
/// district.
#[derive(Drop)]
struct Counts {
    deliveries: [usize; WAREHOUSES],
    orders: [usize; DISTRICTS],
}

fn place_of(warehouse: WarehouseId, district: DistrictId) -> usize
    ensures value { result ≡ warehouse * 10 + district }
    ensures small { result < DISTRICTS }
    ensures range { IsBetween 1 10 district }
{
    usize::from(warehouse.number()) * 10 + usize::from(district.number())
}

impl Counts {
    fn new() -> Counts
        ensures { AreCounts result.deliveries result.orders [] }
    {
        Counts {
            deliveries: [0; WAREHOUSES],
            orders: [0; DISTRICTS],
        }
    }

    fn last_order(&self, warehouse: WarehouseId, district: DistrictId) -> usize
        ensures { (earlier : List Request) → AreCounts self.now.deliveries self.now.orders earlier → result ≡ last_order_of warehouse district earlier }
    {
        self.orders[place_of(warehouse, district)]
    }

    /// What the next request has to know.
    fn known_of(&self, request: &Request) -> usize
        ensures { (earlier : List Request) → AreCounts self.now.deliveries self.now.orders earlier → result ≡ known_of earlier request.now }
    {
        match request {
            Request::Delivery(p) => self.deliveries[usize::from(p.warehouse.number())],
            Request::NewOrder(p) => self.last_order(p.warehouse, p.district),
            Request::StockLevel(p) => self.last_order(p.warehouse, p.district),
            _ => 0,
        }
    }

    /// Counts the request at this place.
    fn add(&mut self, place: usize, request: &Request)
        requires { place + 1 < 2 ^ 64 }
        ensures { (earlier : List Request) → length earlier ≡ place → AreCounts self.old.deliveries self.old.orders earlier
            → AreCounts self.new.deliveries self.new.orders (request.now ∷ earlier) }
    {
        match request {
            Request::Delivery(p) => {
                let warehouse = usize::from(p.warehouse.number());
                self.deliveries[warehouse] = self.deliveries[warehouse].saturating_add(1);
            }
            Request::NewOrder(p) => self.orders[place_of(p.warehouse, p.district)] = place + 1,
            _ => {}
        }
    }
}

/// What each request has to know.
pub(crate) fn count(alloc: Global, requests: &[Request]) -> Result<Vec<usize>, Memory>
    ensures { IfOk result (λ known. known.items ≡ all_known requests.now) }
{
    let mut known = Vec::with_capacity(alloc, requests.len())?;
    let mut counts = Counts::new();
    for (place, request) in requests.iter().enumerate() {
        known.push(counts.known_of(request))?;
        counts.add(place, request);
    }
    Ok(known)
}
