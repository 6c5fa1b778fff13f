//! What the deliveries of a batch declare. Where a batch is executed in order, no other request can stray.
ghost use Rattle.std.specs.Prelude.{◌≡◌, IfOk, OnOk, is_some, length, map};
ghost use Rattle.profiles.specs.Declarations.{declared};
ghost use Rattle.profiles.specs.Told.{is_delivery, told_of_deliveries};
ghost use Rattle.tpcc_model.specs.Database.{database};
ghost use Rattle.tpcc_model.specs.Soundness.{IsSound};

use crate::asked::{Asked, is_delivery};
use crate::batch::{tell, threads_for};
use crate::declaration::Declaration;
use catalog::Catalog;
use requests::request::Request;
use row_store::PointedStore;
use std::alloc::Global;
use std::thread::Threads;
use tpcc_rows::memory::Memory;

/// The number of deliveries.
fn deliveries_among(requests: &[Request]) -> usize {
    let mut count = 0usize;
    for request in requests {
        if is_delivery(request) {
            count = count.saturating_add(1);
        }
    }
    count
}

/// Checks that exactly the deliveries have declared; otherwise memory was refused.
fn all_told(requests: &[Request], told: &[Declaration]) -> Result<(), Memory>
    requires { length told.now ≡ length requests.now }
    ensures { OnOk result (map is_some told.now ≡ map is_delivery requests.now) }
{
    for (place, request) in requests.iter().enumerate() {
        if told[place].footprint().is_some() != is_delivery(request) {
            return Err(Memory);
        }
    }
    Ok(())
}

/// What each delivery of a batch will read and write, declared when the batch begins; nothing of any other request. At most
/// `threads` threads compute it.
pub fn declare_deliveries<R: Threads + Sync>(
    rt: &R,
    alloc: Global,
    catalog: &Catalog,
    requests: &[Request],
    store: &PointedStore,
    threads: usize,
) -> Result<Vec<Declaration>, Memory>
    ensures told { IsSound (database catalog.now store.now.rows)
        → IfOk result (λ told. told.items ≡ told_of_deliveries requests.now (declared (database catalog.now store.now.rows) requests.now)) }
    ensures each { IfOk result (λ told. length told.items ≡ length requests.now) }
{
    let threads = threads_for(deliveries_among(requests), threads);
    let told = tell(
        rt,
        alloc,
        catalog,
        requests,
        store,
        threads,
        Asked::Deliveries,
    )?;
    all_told(requests, &told)?;
    Ok(told)
}
