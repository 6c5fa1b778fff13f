//! What the requests of a batch declare, computed on several threads.
ghost use Rattle.std.specs.Prelude.{◌≡◌, ◌<◌, All, IfOk, None, Some, length, map, slice_get};
ghost use Rattle.profiles.specs.Declarations.{declared, declared_after};
ghost use Rattle.profiles.specs.Earlier.{before};
ghost use Rattle.profiles.specs.Places.{AreDeclared, IsDeclared};
ghost use Rattle.tpcc_model.specs.Database.{database};
ghost use Rattle.tpcc_model.specs.Soundness.{IsSound};

use crate::asked::Asked;
use crate::declaration::Declaration;
use crate::earlier::{Counted, count};
use crate::{delivery, new_order, order_status, payment, stock_level};
use catalog::Catalog;
use requests::request::Request;
use row_store::PointedStore;
use std::alloc::Global;
use std::thread::{self, Threads};
use tpcc_rows::footprint::Footprint;
use tpcc_rows::memory::Memory;

/// The fewest requests that are worth starting a thread for.
const REQUESTS_A_THREAD: usize = 64;

/// The number of threads on which to declare these many requests: at least one, and otherwise at most `most`.
pub(crate) fn threads_for(requests: usize, most: usize) -> usize
    ensures { 0 < result }
{
    (requests / REQUESTS_A_THREAD).clamp(1, most.max(1))
}

/// What the request at this place of the batch declares.
#[tactic(auto, unfolding(tpcc_model::specs::Touches::touch))]
fn declare_at(
    alloc: Global,
    catalog: &Catalog,
    request: &Request,
    batch: &Counted<'_>,
    place: usize,
    store: &PointedStore,
) -> Result<Footprint, Memory>
    requires place { place < length batch.now.requests.now }
    requires there { slice_get batch.now.requests.now place ≡ Some request.now }
    ensures { IsSound (database catalog.now store.now.rows)
        → IfOk result (λ footprint. footprint ≡ declared_after (database catalog.now store.now.rows) (before batch.now.requests.now place) request.now) }
{
    let known = batch.known(place, request);
    match request {
        Request::NewOrder(p) => new_order::declare(alloc, catalog, p),
        Request::Payment(p) => payment::declare(alloc, catalog, p),
        Request::OrderStatus(p) => order_status::declare(alloc, catalog, p),
        Request::Delivery(p) => delivery::declare(alloc, catalog, p, known, store),
        Request::StockLevel(p) => {
            stock_level::declare(alloc, catalog, p, batch, place, known, store)
        }
    }
}

/// What the request at this place of the batch declares. Not inlined, since the room for a footprint is cleared where it is.
#[inline(never)]
fn told_at(
    alloc: Global,
    catalog: &Catalog,
    batch: &Counted<'_>,
    place: usize,
    store: &PointedStore,
) -> Result<Declaration, Memory>
    requires { place < length batch.now.requests.now }
    ensures { IfOk result (λ told. IsDeclared (database catalog.now store.now.rows) batch.now.requests.now place told) }
{
    let request = batch.request(place);
    let footprint = declare_at(alloc, catalog, request, batch, place, store)?;
    Declaration::of(alloc, footprint)
}

/// Puts what the request at this place of the batch declares into its empty place, which stays empty if the request isn't asked,
/// or if memory is refused.
fn tell_at(
    alloc: Global,
    catalog: &Catalog,
    batch: &Counted<'_>,
    place: usize,
    store: &PointedStore,
    asked: Asked,
    told: &mut Declaration,
)
    requires place { place < length batch.now.requests.now }
    requires empty { told.old ≡ None }
    ensures { IsDeclared (database catalog.now store.now.rows) batch.now.requests.now place told.new }
{
    if !asked.has(batch.request(place)) {
        return;
    }
    if let Ok(declaration) = told_at(alloc, catalog, batch, place, store) {
        *told = declaration;
    }
}

/// Empty places for what this number of requests declare.
fn places(alloc: Global, count: usize) -> Result<Vec<Declaration>, Memory>
    ensures count { IfOk result (λ places. length places.items ≡ count) }
    ensures empty { IfOk result (λ places. All (λ place. place ≡ None) places.items) }
{
    let mut places = Vec::with_capacity(alloc, count)?;
    places.resize_with(count, || Declaration::none())?;
    Ok(places)
}

/// Puts what each request declares into its empty place, on at most `threads` threads. The place of a request that isn't asked
/// stays empty, and so does one for which memory is refused.
fn fill<R: Threads + Sync>(
    rt: &R,
    alloc: Global,
    catalog: &Catalog,
    batch: &Counted<'_>,
    store: &PointedStore,
    places: &mut [Declaration],
    threads: usize,
    asked: Asked,
)
    requires threads { 0 < threads }
    requires each { length places.old ≡ length batch.now.requests.now }
    requires empty { All (λ place. place ≡ None) places.old }
    ensures { AreDeclared (database catalog.now store.now.rows) batch.now.requests.now places.new }
{
    thread::for_each_mut(
        rt,
        places,
        threads,
        &|n: usize, place: &mut Declaration|
            requires { (n < length batch.now.requests.now) × (place.old ≡ None) }
            ensures { IsDeclared (database catalog.entry.now store.entry.now.rows) batch.entry.now.requests.now n place.new }
        {
            tell_at(alloc, catalog, batch, n, store, asked, place);
        },
    );
}

/// What each request declares; `None` for one that isn't asked, or for which memory is refused.
pub(crate) fn tell<R: Threads + Sync>(
    rt: &R,
    alloc: Global,
    catalog: &Catalog,
    requests: &[Request],
    store: &PointedStore,
    threads: usize,
    asked: Asked,
) -> Result<Vec<Declaration>, Memory>
    requires threads { 0 < threads }
    ensures { IfOk result (λ told. AreDeclared (database catalog.now store.now.rows) requests.now told.items) }
{
    let known = count(alloc, requests)?;
    let batch = Counted {
        requests,
        known: known.as_slice(),
    };
    let mut places = places(alloc, requests.len())?;
    fill(
        rt,
        alloc,
        catalog,
        &batch,
        store,
        &mut places,
        threads,
        asked,
    );
    Ok(places)
}

/// The footprints of all places, or `Memory` if a place is empty.
fn taken(alloc: Global, places: Vec<Declaration>) -> Result<Vec<Footprint>, Memory>
    ensures { IfOk result (λ footprints. map Some footprints.items ≡ places.items) }
{
    let mut footprints = Vec::with_capacity(alloc, places.len())?;
    for place in places {
        footprints.push(place.into_footprint().ok_or(Memory)?)?;
    }
    Ok(footprints)
}

/// What each request of a batch will read and write, declared when the batch begins. At most `threads` threads compute it.
pub fn declare_batch<R: Threads + Sync>(
    rt: &R,
    alloc: Global,
    catalog: &Catalog,
    requests: &[Request],
    store: &PointedStore,
    threads: usize,
) -> Result<Vec<Footprint>, Memory>
    ensures declared { IsSound (database catalog.now store.now.rows)
        → IfOk result (λ footprints. footprints.items ≡ declared (database catalog.now store.now.rows) requests.now) }
    ensures each { IfOk result (λ footprints. length footprints.items ≡ length requests.now) }
{
    let threads = threads_for(requests.len(), threads);
    let told = tell(rt, alloc, catalog, requests, store, threads, Asked::All)?;
    taken(alloc, told)
}
