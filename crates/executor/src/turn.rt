//! A batch to execute in order, and what its requests told of what they declared.
ghost use Rattle.std.specs.Prelude.{◌≡◌, ◌+◌, ◌≤◌, length};
ghost use Rattle.executor.specs.Told.{told_by};
ghost use Rattle.executor.specs.declared.next_batch.TheConstants.{MOST_REQUESTS};
ghost use Rattle.tpcc_rows.specs.declared.id.TheConstants.{END_OF_NUMBERS};

use crate::footprints::Footprints;
use requests::request::Batch;
use tpcc_rows::footprint::Footprint;
use transactions::NumberedRequest;

/// A batch, the number of its first request, and the footprints that its requests declared.
#[derive(Clone, Copy)]
pub(crate) struct PlanInTurn<'a> {
    pub batch: &'a Batch,
    pub first: u64,
    pub told: Footprints<'a>,
    pub ghost few: { length batch.now.requests ≤ MOST_REQUESTS },
    pub ghost each: { length (told_by told) ≡ length batch.now.requests },
    pub ghost low: { 1 ≤ first },
    pub ghost high: { first + length batch.now.requests ≤ END_OF_NUMBERS },
}

/// The request at `place` in a batch, and the footprint that it declared; `None` if it can't stray.
#[derive(Clone, Copy)]
pub(crate) struct Told<'a> {
    pub place: usize,
    pub asked: NumberedRequest<'a>,
    pub footprint: Option<&'a Footprint>,
}
