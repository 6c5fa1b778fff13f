//! One request of a batch.
ghost use Rattle.std.specs.Prelude.{◌≡◌, ◌+◌, ◌<◌, MatchResult, Some, length, slice_get};
ghost use Rattle.serializability.specs.Levels.{job_strays};
ghost use Rattle.tpcc_model.specs.Machine.{tpcc};
ghost use Rattle.workers.specs.LevelEnds.{IsJobDone, StraysWhere, job_of, plan_jobs};

use crate::gate::Gate;
use crate::plan::{Db, Plan};
use requests::reply::Reply;
use requests::request::Request;
use std::alloc::Global;
use tpcc_rows::delta::Delta;
use tpcc_rows::footprint::Footprint;
use tpcc_rows::id::RequestNumber;
use tpcc_rows::number::Moment;
use transactions::{NumberedRequest, Stop, execute};
use worker_rows::Loan;

/// The request at `place` in a batch, with its number, its moment and the footprint that it declared.
#[derive(Clone, Copy)]
pub struct Job<'a> {
    pub place: usize,
    pub number: RequestNumber,
    pub moment: Moment,
    pub request: &'a Request,
    pub footprint: &'a Footprint,
}

/// The reply to the request at `place` in a batch, and its changes.
#[derive(Drop)]
pub struct Done {
    pub place: usize,
    pub reply: Reply,
    pub changes: Delta,
}

impl<'a> Plan<'a> {
    /// The request at a place of the batch.
    pub fn job(&self, place: usize) -> Job<'a>
        requires { place < length self.now.batch.now.requests }
        ensures job { slice_get (plan_jobs self.now) place ≡ Some (job_of result) }
        ensures place { result.place ≡ place }
        ensures number { result.number ≡ self.now.first + place }
        ensures moment { result.moment ≡ self.now.batch.now.moment }
    {
        Job {
            place,
            number: RequestNumber::new(self.first + place as u64).unwrap(),
            moment: self.batch.moment,
            request: &self.batch.requests.as_slice()[place],
            footprint: &self.footprints[place],
        }
    }
}

/// Executes a job on the rows that its footprint lends.
pub(crate) fn execute_job<G: Gate>(
    alloc: Global,
    db: Db<'_>,
    job: &Job<'_>,
    gate: &G,
) -> Result<Done, Stop>
    ensures { MatchResult result
        (IsJobDone db.entry.catalog.now db.entry.store.now.rows job.now.moment (job_of job.now) job.now.place)
        (StraysWhere (job_strays (tpcc db.entry.catalog.now job.now.moment) db.entry.store.now.rows (job_of job.now))) }
{
    let asked = NumberedRequest {
        request: job.request,
        number: job.number,
        moment: job.moment,
    };
    let view = Loan::new(db.store, job.footprint);
    gate.enter(job.place);
    let outcome = execute(alloc, db.catalog, &asked, &view);
    gate.leave(job.place);
    let (reply, changes) = outcome?;
    Ok(Done {
        place: job.place,
        reply,
        changes,
    })
}
