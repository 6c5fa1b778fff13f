//! Executes a batch level by level, where threads pay.
ghost use Rattle.std.specs.Prelude.{◌≡◌, ◌+◌, ◌<◌, All, IfErr, IfOk, IfSome, None, OnOk, false, length, map, ℕ};
ghost use Rattle.std.specs.FinMap.{find};
ghost use Rattle.std.specs.Ordering.{nat_cmp};
ghost use Rattle.executor.specs.LevelRuns.{HaveTooManyLevels, IsCutBySome, IsCutOf};
ghost use Rattle.executor.specs.declared.paying.TheConstants.{REQUESTS_A_LEVEL};
ghost use Rattle.executor.specs.NextBatches.{met_on, next_replies, next_rows, next_strays};
ghost use Rattle.executor.specs.PlannedLevels.{AwaitsOthers, plan_replies, plan_rows, plan_strays};
ghost use Rattle.executor.specs.Slots.{Awaits, HaveAlso, reply_at, with_each};
ghost use Rattle.executor.specs.States.{IsSoundState};
ghost use Rattle.gather.specs.Merged.{after_each};
ghost use Rattle.rollback.specs.Pointed.{KeepsCleanLeaves};
ghost use Rattle.workers.specs.LevelEnds.{StraysWhere, level_replies, level_rows, level_strays};

use crate::batch_replies::BatchReplies;
use crate::in_order::Pass;
use crate::laws::{cuts, declared_levels, strays_in_turn};
use crate::next_batch::NextBatch;
use crate::paying::{may_pay, paying_cut};
use crate::told::{execute_declared, execute_declaring_deliveries};
use catalog::Catalog;
use mixer::{Cut, mix};
use profiles::declare_batch;
use row_store::PointedStore;
use std::alloc::Global;
use std::thread::Threads;
use tpcc_rows::delta::Delta;
use tpcc_rows::memory::Memory;
use transactions::Stop;
use workers::{Db, Done, Gate, Level, Plan, Runtime, run_level};

/// Puts the replies of a level into their slots; returns the changes, in order.
fn put_replies(
    alloc: Global,
    outcomes: Vec<Done>,
    replies: &mut BatchReplies,
) -> Result<Vec<Delta>, Memory>
    requires { All (λ done. done.place < length replies.old) outcomes.items }
    ensures replies { OnOk result (replies.new ≡ with_each outcomes.items replies.old) }
    ensures changes { IfOk result (λ deltas. deltas.items ≡ map (λ done. done.changes) outcomes.items) }
{
    let mut deltas = Vec::with_capacity(alloc, outcomes.len())?;
    for outcome in outcomes {
        replies.put(outcome.place, outcome.reply);
        deltas.push(outcome.changes)?;
    }
    Ok(deltas)
}

/// Applies the changes of requests in turn. If memory is refused, a prefix of them is applied.
fn apply_each(store: &mut PointedStore, deltas: Vec<Delta>) -> Result<(), Memory>
    ensures rows { OnOk result (store.new.rows ≡ after_each store.old.rows deltas.items) }
    ensures points { store.new.points ≡ store.old.points }
    ensures clean { KeepsCleanLeaves store.old store.new }
{
    for delta in deltas {
        store.apply(delta)?;
    }
    Ok(())
}

/// Executes a level, puts its replies into their slots and applies its changes. If a request strays, nothing is changed.
fn settle_level<R: Threads + Sync, G: Gate>(
    runtime: &Runtime<'_, R, G>,
    catalog: &Catalog,
    store: &mut PointedStore,
    level: &Level<'_>,
    replies: &mut BatchReplies,
) -> Result<(), Stop>
    requires awaited { All (Awaits replies.old) level.now.places.now }
    ensures within { OnOk result (level_strays catalog.now store.old.rows level.now ≡ false) }
    ensures rows { OnOk result (store.new.rows ≡ level_rows catalog.now store.old.rows level.now) }
    ensures replies { OnOk result (HaveAlso level.now.plan.first (level_replies catalog.now store.old.rows level.now) replies.old replies.new) }
    ensures others { OnOk result (AwaitsOthers level.now.places.now replies.old replies.new) }
    ensures err { IfErr result (StraysWhere (level_strays catalog.now store.old.rows level.now)) }
    ensures points { store.new.points ≡ store.old.points }
    ensures clean { KeepsCleanLeaves store.old store.new }
{
    let db = Db { catalog, store };
    let outcomes = run_level(runtime, db, level)?;
    let deltas = put_replies(runtime.alloc, outcomes, replies)?;
    apply_each(store, deltas)?;
    Ok(())
}

/// The levels to execute a batch by: those by signatures if a gate listens, else those by granules, or `None` if threads don't pay.
fn cut_of<R, G: Gate>(runtime: &Runtime<'_, R, G>, plan: &Plan<'_>) -> Result<Option<Cut>, Memory>
    ensures cut { IfOk result (λ cut. IfSome cut (IsCutBySome plan.now.footprints.now)) }
    ensures none { IfOk result (λ cut. cut ≡ None → HaveTooManyLevels REQUESTS_A_LEVEL plan.now.footprints.now) }
{
    if runtime.gate.is_told() {
        return Ok(Some(mix(runtime.alloc, plan.footprints)?));
    }
    paying_cut(runtime.alloc, plan.footprints)
}

/// Executes the levels of a batch one after the other, until a request strays.
fn run_levels<R: Threads + Sync, G: Gate>(
    runtime: &Runtime<'_, R, G>,
    catalog: &Catalog,
    store: &mut PointedStore,
    plan: &Plan<'_>,
    cut: &Cut,
) -> Result<BatchReplies, Stop>
    requires { IsCutOf (length plan.now.footprints.now) cut.now }
    ensures within { OnOk result (plan_strays catalog.now store.old.rows plan.now cut.now ≡ false) }
    ensures rows { OnOk result (store.new.rows ≡ plan_rows catalog.now store.old.rows plan.now cut.now) }
    ensures size { IfOk result (λ replies. length replies ≡ length plan.now.batch.now.requests) }
    ensures replies { IfOk result (λ replies. (place : ℕ) → place < length plan.now.batch.now.requests
        → reply_at replies place ≡ find nat_cmp (plan.now.first + place) (plan_replies catalog.now store.old.rows plan.now cut.now)) }
    ensures err { IfErr result (StraysWhere (plan_strays catalog.now store.old.rows plan.now cut.now)) }
    ensures points { store.new.points ≡ store.old.points }
    ensures clean { KeepsCleanLeaves store.old store.new }
{
    let mut replies = BatchReplies::new(runtime.alloc, plan.batch.requests.len())?;
    runtime.gate.levels(cut.depth());
    for index in 0..cut.depth() {
        let places = cut.level(index).unwrap();
        let level = Level {
            plan: *plan,
            places,
        };
        settle_level(runtime, catalog, store, &level, &mut replies)?;
    }
    Ok(replies)
}

/// Executes a batch level by level, by the footprints that its requests declare on the rows that it meets. Stops if a request
/// strays; then, and if an allocation fails, the state of the rows is undefined. If threads don't pay and no gate listens, the
/// batch is executed in order instead, to its end; if that is plain beforehand, only its deliveries declare.
pub(crate) fn execute_parallel<R: Threads + Sync, G: Gate>(
    runtime: &Runtime<'_, R, G>,
    catalog: &Catalog,
    store: &mut PointedStore,
    next: &NextBatch<'_>,
) -> Result<Pass, Stop>
    requires sound { IsSoundState catalog.now (met_on store.old.rows next.now) }
    ensures strayed { IfOk result (λ pass. pass.strayed ≡ next_strays catalog.now store.old.rows next.now) }
    ensures replies { IfOk result (λ pass. pass.replies.items ≡ next_replies catalog.now store.old.rows next.now) }
    ensures rows { OnOk result (store.new.rows ≡ next_rows catalog.now store.old.rows next.now) }
    ensures err { IfErr result (StraysWhere (next_strays catalog.now store.old.rows next.now)) }
    ensures points { store.new.points ≡ store.old.points }
    ensures clean { KeepsCleanLeaves store.old store.new }
{
    if next.batch.requests.is_empty() {
        return Ok(Pass {
            replies: Vec::new(runtime.alloc),
            strayed: false,
        });
    }
    cuts();
    declared_levels();
    strays_in_turn();
    next.keep_within();
    let requests = next.batch.requests.as_slice();
    let threads = runtime.workers.count();
    if !runtime.gate.is_told() && !may_pay(requests, threads) {
        return Ok(execute_declaring_deliveries(runtime, catalog, store, next)?);
    }
    let footprints = declare_batch(runtime.rt, runtime.alloc, catalog, requests, store, threads)?;
    let plan = Plan {
        batch: next.batch,
        first: next.stamp.next,
        footprints: footprints.as_slice(),
    };
    let Some(cut) = cut_of(runtime, &plan)? else {
        return Ok(execute_declared(runtime, catalog, store, next, plan.footprints)?);
    };
    let replies = run_levels(runtime, catalog, store, &plan, &cut)?;
    Ok(Pass {
        replies: replies.in_order(),
        strayed: false,
    })
}
