//! The statistics of a run or a session as a JSON object.
ghost use Rattle.std.specs.Prelude.{◌≡◌};
ghost use Rattle.requests.specs.Replies.{kind_text};

use crate::stopwatch::Times;
use crate::tally::{Paths, Replies, Stray, Tally};
use requests::request::RequestKind;
use serde::Serialize;
use std::alloc::{AllocError, Global};
use tpcc_rows::granule::Granule;

/// The seconds that each part took.
#[derive(Clone, Copy, Serialize)]
struct Seconds {
    load: f64,
    read: f64,
    execute: f64,
    hash: f64,
    write: f64,
    store: f64,
}

/// A request that strayed, in words.
#[derive(Drop, Serialize)]
struct StraySummary {
    batch: u64,
    request: u64,
    kind: &'static str,
    granule: Option<String>,
}

/// The object; docs/FORMATS.md describes its members.
#[derive(Drop, Serialize)]
pub struct Summary {
    batches: u64,
    requests: u64,
    replies: Replies,
    paths: Paths,
    levels: u64,
    strays: u64,
    first_stray: Option<StraySummary>,
    dirty_leaves: u64,
    seconds: Seconds,
    peak_memory_bytes: Option<u64>,
}

/// The name of a kind, as replies have it.
fn kind_name(kind: RequestKind) -> &'static str
    ensures { result.now ≡ kind_text kind }
{
    match kind {
        RequestKind::NewOrder => "new-order",
        RequestKind::Payment => "payment",
        RequestKind::OrderStatus => "order-status",
        RequestKind::Delivery => "delivery",
        RequestKind::StockLevel => "stock-level",
    }
}

/// A granule as its kind and its numbers, such as `Stock 1 17`.
fn granule_text(alloc: Global, granule: Granule) -> Result<String, AllocError> {
    match granule {
        Granule::Warehouse { warehouse } => {
            format!(in alloc; "Warehouse {}", warehouse.number())
        }
        Granule::Customer {
            warehouse,
            district,
            customer,
        } => {
            format!(in alloc;
                "Customer {} {} {}",
                warehouse.number(),
                district.number(),
                customer.number()
            )
        }
        Granule::Stock { warehouse, item } => {
            format!(in alloc; "Stock {} {}", warehouse.number(), item.number())
        }
        Granule::Book {
            warehouse,
            district,
        } => format!(in alloc; "Book {} {}", warehouse.number(), district.number()),
        Granule::DistrictYtd {
            warehouse,
            district,
        } => format!(in alloc; "DistrictYtd {} {}", warehouse.number(), district.number()),
        Granule::DistrictNext {
            warehouse,
            district,
        } => format!(in alloc; "DistrictNext {} {}", warehouse.number(), district.number()),
    }
}

/// The text of a granule, if it is known.
fn known_text(alloc: Global, granule: Option<Granule>) -> Result<Option<String>, AllocError> {
    match granule {
        Some(granule) => Ok(Some(granule_text(alloc, granule)?)),
        None => Ok(None),
    }
}

fn stray_summary(alloc: Global, stray: &Stray) -> Result<StraySummary, AllocError> {
    let granule = known_text(alloc, stray.granule)?;
    Ok(StraySummary {
        batch: stray.batch,
        request: stray.request,
        kind: kind_name(stray.kind),
        granule,
    })
}

/// The first stray, if there is one.
fn first_summary(alloc: Global, stray: &Option<Stray>) -> Result<Option<StraySummary>, AllocError> {
    match stray {
        Some(stray) => Ok(Some(stray_summary(alloc, stray)?)),
        None => Ok(None),
    }
}

fn seconds_of(times: Times) -> Seconds {
    Seconds {
        load: times.load.as_secs_f64(),
        read: times.read.as_secs_f64(),
        execute: times.execute.as_secs_f64(),
        hash: times.hash.as_secs_f64(),
        write: times.write.as_secs_f64(),
        store: times.store.as_secs_f64(),
    }
}

impl Summary {
    /// The summary of what was counted and timed.
    pub fn new(
        alloc: Global,
        tally: &Tally,
        strays: u64,
        times: Times,
        peak_memory_bytes: Option<u64>,
    ) -> Result<Summary, AllocError> {
        let first_stray = first_summary(alloc, &tally.first_stray)?;
        Ok(Summary {
            batches: tally.batches,
            requests: tally.requests,
            replies: tally.replies,
            paths: tally.paths,
            levels: tally.levels,
            strays,
            first_stray,
            dirty_leaves: tally.dirty_leaves,
            seconds: seconds_of(times),
            peak_memory_bytes,
        })
    }
}
