//! A batch in levels.
ghost use Rattle.std.specs.Prelude.{◌≡◌, ◌+◌, ◌<◌, ◌≤◌, All, length};
ghost use Rattle.std.specs.List.Sorted.{IsStrictlyIncreasing};
ghost use Rattle.tickets.specs.declared.size.TheConstants.{MOST_PLACES};
ghost use Rattle.tpcc_rows.specs.declared.id.TheConstants.{END_OF_NUMBERS};

use catalog::Catalog;
use requests::request::Batch;
use row_store::PointedStore;
use tpcc_rows::footprint::Footprint;

/// A database: its cards and its rows.
#[derive(Clone, Copy)]
pub struct Db<'a> {
    pub catalog: &'a Catalog,
    pub store: &'a PointedStore,
}

/// A batch that isn't empty, the number of its first request, and the footprint that each request declared.
#[derive(Clone, Copy)]
pub struct Plan<'a> {
    pub batch: &'a Batch,
    pub first: u64,
    pub footprints: &'a [Footprint],
    pub ghost some: { 1 ≤ length batch.now.requests },
    pub ghost few: { length batch.now.requests ≤ MOST_PLACES },
    pub ghost each: { length footprints.now ≡ length batch.now.requests },
    pub ghost low: { 1 ≤ first },
    pub ghost high: { first + length batch.now.requests ≤ END_OF_NUMBERS },
}

/// The requests at some places of a batch, to be executed on the same rows.
#[derive(Clone, Copy)]
pub struct Level<'a> {
    pub plan: Plan<'a>,
    pub places: &'a [usize],
    pub ghost filled: { 1 ≤ length places.now },
    pub ghost short: { length places.now ≤ MOST_PLACES },
    pub ghost rising: { IsStrictlyIncreasing places.now },
    pub ghost there: { All (λ place. place < length plan.batch.now.requests) places.now },
}
