//! Executes a batch one request after the other.
ghost use Rattle.std.specs.Prelude.{◌≡◌, IfOk, OnOk};
ghost use Rattle.executor.specs.NextBatches.{next_replies, next_rows};
ghost use Rattle.rollback.specs.Pointed.{KeepsCleanLeaves};

use crate::next_batch::NextBatch;
use catalog::Catalog;
use requests::reply::Reply;
use row_store::PointedStore;
use tpcc_rows::id::RequestNumber;
use tpcc_rows::memory::Memory;
use transactions::{NumberedRequest, execute_in_place};
use workers::{Gate, Runtime};

/// Executes the requests of a batch one after the other, each on the rows as the earlier ones leave them. If an allocation
/// fails, some of the changes have been made. The gate observes each execution.
#[tactic(auto, unfolding(tpcc_rows::specs::Changing::after))]
pub(crate) fn execute_sequential<R, G: Gate>(
    runtime: &Runtime<'_, R, G>,
    catalog: &Catalog,
    store: &mut PointedStore,
    next: &NextBatch<'_>,
) -> Result<Vec<Reply>, Memory>
    ensures replies { IfOk result (λ replies. replies.items ≡ next_replies catalog.now store.old.rows next.now) }
    ensures rows { OnOk result (store.new.rows ≡ next_rows catalog.now store.old.rows next.now) }
    ensures points { store.new.points ≡ store.old.points }
    ensures clean { KeepsCleanLeaves store.old store.new }
{
    let alloc = runtime.alloc;
    let mut replies = Vec::with_capacity(alloc, next.batch.requests.len())?;
    for (place, request) in next.batch.requests.as_slice().iter().enumerate() {
        let asked = NumberedRequest {
            request,
            number: RequestNumber::new(next.stamp.next + place as u64).unwrap(),
            moment: next.batch.moment,
        };
        runtime.gate.enter(place);
        let reply = execute_in_place(alloc, catalog, &asked, store);
        runtime.gate.leave(place);
        replies.push(reply?)?;
    }
    Ok(replies)
}
