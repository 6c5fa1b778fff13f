//! Executes a batch in order, given the footprints that its requests declared when it began.
ghost use Rattle.std.specs.Prelude.{◌≡◌, IfOk, OnOk, length};
ghost use Rattle.executor.specs.InOrder.{TellsOfStrays};
ghost use Rattle.executor.specs.LevelRuns.{declared_footprints};
ghost use Rattle.executor.specs.NextBatches.{met_on, next_replies, next_rows, next_strays};
ghost use Rattle.executor.specs.States.{IsSoundState};
ghost use Rattle.executor.specs.Told.{told_by};
ghost use Rattle.rollback.specs.Pointed.{KeepsCleanLeaves};

use crate::footprints::Footprints;
use crate::in_order::{Pass, execute_in_order};
use crate::laws::strays_in_turn;
use crate::next_batch::NextBatch;
use crate::turn::PlanInTurn;
use catalog::Catalog;
use profile_laws::only_deliveries_stray;
use profiles::declare_deliveries;
use row_store::PointedStore;
use std::thread::Threads;
use tpcc_rows::footprint::Footprint;
use tpcc_rows::memory::Memory;
use workers::{Gate, Runtime};

/// Executes a batch in order, where its requests told these footprints of those that they declared.
fn execute_told<R: Threads + Sync, G: Gate>(
    runtime: &Runtime<'_, R, G>,
    catalog: &Catalog,
    store: &mut PointedStore,
    next: &NextBatch<'_>,
    told: Footprints<'_>,
) -> Result<Pass, Memory>
    requires sound { IsSoundState catalog.now (met_on store.old.rows next.now) }
    requires each { length (told_by told) ≡ length next.now.batch.now.requests }
    requires tells { TellsOfStrays catalog.now (met_on store.old.rows next.now) next.now.batch.now (told_by told) }
    ensures strayed { IfOk result (λ pass. pass.strayed ≡ next_strays catalog.now store.old.rows next.now) }
    ensures replies { IfOk result (λ pass. pass.replies.items ≡ next_replies catalog.now store.old.rows next.now) }
    ensures rows { OnOk result (store.new.rows ≡ next_rows catalog.now store.old.rows next.now) }
    ensures points { store.new.points ≡ store.old.points }
    ensures clean { KeepsCleanLeaves store.old store.new }
{
    strays_in_turn();
    next.keep_within();
    let plan = PlanInTurn {
        batch: next.batch,
        first: next.stamp.next,
        told,
    };
    execute_in_order(runtime, catalog, store, &plan)
}

/// Executes a batch in order, where only its deliveries declare. If an allocation fails, the state of the rows is undefined.
pub(crate) fn execute_declaring_deliveries<R: Threads + Sync, G: Gate>(
    runtime: &Runtime<'_, R, G>,
    catalog: &Catalog,
    store: &mut PointedStore,
    next: &NextBatch<'_>,
) -> Result<Pass, Memory>
    requires sound { IsSoundState catalog.now (met_on store.old.rows next.now) }
    ensures strayed { IfOk result (λ pass. pass.strayed ≡ next_strays catalog.now store.old.rows next.now) }
    ensures replies { IfOk result (λ pass. pass.replies.items ≡ next_replies catalog.now store.old.rows next.now) }
    ensures rows { OnOk result (store.new.rows ≡ next_rows catalog.now store.old.rows next.now) }
    ensures points { store.new.points ≡ store.old.points }
    ensures clean { KeepsCleanLeaves store.old store.new }
{
    only_deliveries_stray();
    let requests = next.batch.requests.as_slice();
    let threads = runtime.workers.count();
    let told = declare_deliveries(runtime.rt, runtime.alloc, catalog, requests, store, threads)?;
    execute_told(
        runtime,
        catalog,
        store,
        next,
        Footprints::Deliveries(told.as_slice()),
    )
}

/// Executes a batch in order, where each request has declared its footprint. If an allocation fails, the state of the rows is
/// undefined.
pub(crate) fn execute_declared<R: Threads + Sync, G: Gate>(
    runtime: &Runtime<'_, R, G>,
    catalog: &Catalog,
    store: &mut PointedStore,
    next: &NextBatch<'_>,
    footprints: &[Footprint],
) -> Result<Pass, Memory>
    requires sound { IsSoundState catalog.now (met_on store.old.rows next.now) }
    requires each { length footprints.now ≡ length next.now.batch.now.requests }
    requires declared { footprints.now ≡ declared_footprints catalog.now (met_on store.old.rows next.now) next.now.batch.now }
    ensures strayed { IfOk result (λ pass. pass.strayed ≡ next_strays catalog.now store.old.rows next.now) }
    ensures replies { IfOk result (λ pass. pass.replies.items ≡ next_replies catalog.now store.old.rows next.now) }
    ensures rows { OnOk result (store.new.rows ≡ next_rows catalog.now store.old.rows next.now) }
    ensures points { store.new.points ≡ store.old.points }
    ensures clean { KeepsCleanLeaves store.old store.new }
{
    execute_told(runtime, catalog, store, next, Footprints::All(footprints))
}
