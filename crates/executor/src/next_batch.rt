//! The batch to execute next.
ghost use Rattle.std.specs.Prelude.{◌+◌, ◌<◌, ◌≤◌, length};
ghost use Rattle.executor.specs.declared.next_batch.TheConstants.{LAST_NUMBER, MOST_REQUESTS};
ghost use Rattle.tpcc_rows.specs.declared.id.TheConstants.{END_OF_NUMBERS};
ghost use Rattle.executor.specs.States.{AreWithinLimits};

use crate::limits::requests_within;
use crate::stamp::Stamp;
use requests::request::Batch;
use tpcc_rows::id::END_OF_NUMBERS;

/// Maximum number of a request, and of a batch.
pub const LAST_NUMBER: u64 = END_OF_NUMBERS - 1;

/// Maximum number of requests in a batch.
pub const MOST_REQUESTS: usize = 1024;

/// A batch that isn't too long, with the stamp of the state that it meets; its number and its requests' are within their
/// limits.
#[derive(Clone, Copy)]
pub(crate) struct NextBatch<'a> {
    pub batch: &'a Batch,
    pub stamp: Stamp,
    pub ghost few: { length batch.now.requests ≤ MOST_REQUESTS },
    pub ghost low: { 1 ≤ stamp.next },
    pub ghost high: { stamp.next + length batch.now.requests ≤ END_OF_NUMBERS },
    pub ghost numbered: { stamp.sequence < LAST_NUMBER },
}

impl NextBatch<'_> {
    /// The batch is within its limits.
    pub fn keep_within(&self)
        ensures { AreWithinLimits self.now.batch.now.moment self.now.stamp.next self.now.batch.now.requests }
    {
        requests_within(&self.batch.requests);
        self.batch.moment.seconds();
    }
}
