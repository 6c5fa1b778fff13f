//! Executes a batch in order on one thread, each request on the rows that it declared, or on all rows if it can't stray.
ghost use Rattle.std.specs.Prelude.{◌≡◌, ◌||◌, IfOk, OnOk};
ghost use Rattle.serializability.specs.Levels.{job_strays};
ghost use Rattle.executor.specs.InOrder.{job_outcome, plan_replies_in_turn, plan_rows_in_turn, plan_strays_in_turn, told_outcome, told_strays};
ghost use Rattle.rollback.specs.Pointed.{KeepsCleanLeaves};
ghost use Rattle.tpcc_model.specs.Machine.{tpcc};
ghost use Rattle.tpcc_rows.specs.Changing.{after};
ghost use Rattle.workers.specs.LevelEnds.{job_of};

use crate::turn::{PlanInTurn, Told};
use catalog::Catalog;
use requests::reply::Reply;
use row_store::PointedStore;
use std::thread::Threads;
use tpcc_rows::id::RequestNumber;
use tpcc_rows::memory::Memory;
use transactions::{NumberedRequest, Stop, execute_in_place, execute_in_place_within};
use workers::{Db, Gate, Job, Runtime, tell_stray};

/// The replies to a batch, in order, and whether a request strayed.
#[derive(Drop)]
pub(crate) struct Pass {
    pub replies: Vec<Reply>,
    pub strayed: bool,
}

/// The reply to a request, whose changes are made: on the rows that it declared, or on all rows, once this or an earlier one has
/// strayed. If an allocation fails, some of the changes may have been made.
fn execute_within<R: Threads + Sync, G: Gate>(
    runtime: &Runtime<'_, R, G>,
    catalog: &Catalog,
    job: &Job<'_>,
    store: &mut PointedStore,
    strayed: &mut bool,
) -> Result<Reply, Memory>
    ensures reply { IfOk result (λ reply. reply ≡ (job_outcome catalog.now store.old.rows job.now).reply) }
    ensures rows { OnOk result (store.new.rows ≡ after store.old.rows (job_outcome catalog.now store.old.rows job.now).changes) }
    ensures strayed { OnOk result (strayed.new ≡ (strayed.old || job_strays (tpcc catalog.now job.now.moment) store.old.rows (job_of job.now))) }
    ensures points { store.new.points ≡ store.old.points }
    ensures clean { KeepsCleanLeaves store.old store.new }
{
    let Job {
        number,
        moment,
        request,
        footprint,
        ..
    } = *job;
    let asked = NumberedRequest {
        request,
        number,
        moment,
    };
    let alloc = runtime.alloc;
    if !*strayed {
        match execute_in_place_within(alloc, catalog, &asked, footprint, store) {
            Ok(reply) => return Ok(reply),
            Err(Stop::Memory) => return Err(Memory),
            Err(Stop::Strayed) => {
                *strayed = true;
                tell_stray(runtime, Db { catalog, store }, job);
            }
        }
    }
    execute_in_place(alloc, catalog, &asked, store)
}

/// The reply to a request, whose changes are made: on the rows that it declared, or on all rows, if it can't stray or once one has
/// strayed. If an allocation fails, some of the changes may have been made.
fn execute_as_told<R: Threads + Sync, G: Gate>(
    runtime: &Runtime<'_, R, G>,
    catalog: &Catalog,
    told: &Told<'_>,
    store: &mut PointedStore,
    strayed: &mut bool,
) -> Result<Reply, Memory>
    ensures reply { IfOk result (λ reply. reply ≡ (told_outcome catalog.now store.old.rows told.now).reply) }
    ensures rows { OnOk result (store.new.rows ≡ after store.old.rows (told_outcome catalog.now store.old.rows told.now).changes) }
    ensures strayed { OnOk result (strayed.new ≡ (strayed.old || told_strays catalog.now store.old.rows told.now)) }
    ensures points { store.new.points ≡ store.old.points }
    ensures clean { KeepsCleanLeaves store.old store.new }
{
    match told.footprint {
        Some(footprint) => {
            let job = Job {
                place: told.place,
                number: told.asked.number,
                moment: told.asked.moment,
                request: told.asked.request,
                footprint,
            };
            execute_within(runtime, catalog, &job, store, strayed)
        }
        None => execute_in_place(runtime.alloc, catalog, &told.asked, store),
    }
}

/// Executes the requests of a batch one after the other, each on the rows as the earlier ones leave them. If an allocation
/// fails, some of the changes may have been made.
#[tactic(auto, unfolding(tpcc_rows::specs::Changing::after))]
pub(crate) fn execute_in_order<R: Threads + Sync, G: Gate>(
    runtime: &Runtime<'_, R, G>,
    catalog: &Catalog,
    store: &mut PointedStore,
    plan: &PlanInTurn<'_>,
) -> Result<Pass, Memory>
    ensures replies { IfOk result (λ pass. pass.replies.items ≡ plan_replies_in_turn catalog.now store.old.rows plan.now) }
    ensures rows { OnOk result (store.new.rows ≡ plan_rows_in_turn catalog.now store.old.rows plan.now) }
    ensures strayed { IfOk result (λ pass. pass.strayed ≡ plan_strays_in_turn catalog.now store.old.rows plan.now) }
    ensures points { store.new.points ≡ store.old.points }
    ensures clean { KeepsCleanLeaves store.old store.new }
{
    let mut replies = Vec::with_capacity(runtime.alloc, plan.batch.requests.len())?;
    let mut strayed = false;
    for (place, request) in plan.batch.requests.as_slice().iter().enumerate() {
        let asked = NumberedRequest {
            request,
            number: RequestNumber::new(plan.first + place as u64).unwrap(),
            moment: plan.batch.moment,
        };
        let told = Told {
            place,
            asked,
            footprint: plan.told.at(place),
        };
        match execute_as_told(runtime, catalog, &told, store, &mut strayed) {
            Ok(reply) => replies.push(reply)?,
            Err(Memory) => return Err(Memory),
        }
    }
    Ok(Pass { replies, strayed })
}
