//! Executes a batch on an engine, whose rows can be rolled back.
ghost use Rattle.std.specs.Prelude.{◌≡◌, ◌+◌, ◌<◌, ◌≤◌, ◌++◌, ◌∷◌, [], IfOk, IsTrue, OnErr, OnOk, Some, length, slice_get};
ghost use Rattle.catalog.specs.CardBytes.{catalog_digest};
ghost use Rattle.executor.specs.Engines.{IsRecordBy, met_by, path_by_way, replies_by, rows_by};
ghost use Rattle.executor.specs.Paths.{path_by};
ghost use Rattle.executor.specs.States.{IsSoundState};
ghost use Rattle.requests.specs.declared.request.Verdict.TheVariants as verdict;
ghost use Rattle.rollback.specs.Pointed.{KeepsCleanLeaves};
ghost use Rattle.tpcc_model.specs.Roots.{root};
ghost use Rattle.tpcc_model.specs.Tokens.{replies_digest, token_of};

use crate::engine::Engine;
use crate::in_order::Pass;
use crate::next_batch::{LAST_NUMBER, NextBatch};
use crate::parallel::execute_parallel;
use crate::path::Path;
use crate::record::Record;
use crate::sequential::execute_sequential;
use crate::stamp::Stamp;
use crate::way::Way;
use requests::reply::Reply;
use requests::request::Verdict;
use rollback::POINTS;
use row_store::PointedStore;
use std::thread::Threads;
use token::{TokenParts, reply_digest};
use tpcc_rows::id::END_OF_NUMBERS;
use tpcc_rows::memory::Memory;
use transactions::Stop;
use workers::{Gate, Runtime};

/// Saves the present rows as the newest point, for which there is capacity.
fn mark(store: &mut PointedStore)
    requires { length store.old.points < POINTS }
    ensures points { store.new.points ≡ store.old.points ++ store.old.rows ∷ [] }
    ensures rows { store.new.rows ≡ store.old.rows }
    ensures clean { KeepsCleanLeaves store.old store.new }
{
    store.mark().unwrap();
}

/// Restores the newest point's rows, keeping it.
fn rewind(store: &mut PointedStore, point: usize)
    requires { length store.old.points ≡ point + 1 }
    ensures rows { slice_get store.old.points point ≡ Some store.new.rows }
    ensures points { store.new.points ≡ store.old.points }
    ensures clean { KeepsCleanLeaves store.old store.new }
{
    store.rewind(point).unwrap();
}

/// The path of a batch whose verdict is `commit`.
fn path_of(strayed: bool) -> Path
    ensures { result ≡ path_by verdict.Commit strayed }
{
    if strayed { Path::Reran } else { Path::Parallel }
}

/// Whether the verdict is `rerun` and no gate listens: the levels would be rolled back unobserved.
fn is_rerun_untold<G: Gate>(asked: Verdict, gate: &G) -> bool
    ensures { IsTrue result → asked ≡ verdict.Rerun }
{
    match asked {
        Verdict::Rerun => !gate.is_told(),
        Verdict::Commit => false,
    }
}

impl Engine {
    /// The replies to a batch that meets the newest point's rows, and its path. A batch that is executed by workers is rolled
    /// back and re-executed in order if a request strays in a level, or if the verdict is `rerun`; if it is and no gate listens,
    /// it is executed once, in order.
    fn replies_of<R: Threads + Sync, G: Gate>(
        &mut self,
        runtime: &Runtime<'_, R, G>,
        next: &NextBatch<'_>,
        way: Way,
        point: usize,
    ) -> Result<(Vec<Reply>, Path), Memory>
        requires newest { length self.old.store.points ≡ point + 1 }
        requires marked { slice_get self.old.store.points point ≡ Some self.old.store.rows }
        requires sound { IsSoundState self.old.catalog (met_by self.old next.now) }
        ensures replies { IfOk result (λ done. done.0.items ≡ replies_by self.old next.now) }
        ensures path { IfOk result (λ done. done.1 ≡ path_by_way way self.old next.now) }
        ensures rows { OnOk result (self.new.store.rows ≡ rows_by self.old next.now) }
        ensures points { self.new.store.points ≡ self.old.store.points }
        ensures cards { self.new.catalog ≡ self.old.catalog }
    {
        let Way::ByWorkers = way else {
            let replies = execute_sequential(runtime, &self.catalog, &mut self.store, next)?;
            return Ok((replies, Path::Sequential));
        };
        if is_rerun_untold(next.batch.verdict, runtime.gate) {
            let replies = execute_sequential(runtime, &self.catalog, &mut self.store, next)?;
            return Ok((replies, Path::Verdict));
        }
        let path = match execute_parallel(runtime, &self.catalog, &mut self.store, next) {
            Ok(Pass { replies, strayed }) => match next.batch.verdict {
                Verdict::Commit => return Ok((replies, path_of(strayed))),
                Verdict::Rerun => Path::Verdict,
            },
            Err(Stop::Strayed) => match next.batch.verdict {
                Verdict::Commit => Path::Reran,
                Verdict::Rerun => Path::Verdict,
            },
            Err(Stop::Memory) => return Err(Memory),
        };
        rewind(&mut self.store, point);
        let replies = execute_sequential(runtime, &self.catalog, &mut self.store, next)?;
        Ok((replies, path))
    }

    /// The token of a batch that met the state with this stamp, gave these replies and left the present rows. Hashes the dirty
    /// leaves, on at most one thread per worker, after which none is dirty, and the replies beside them.
    fn token_of<R: Threads + Sync, G: Gate>(
        &mut self,
        runtime: &Runtime<'_, R, G>,
        stamp: &Stamp,
        replies: &[Reply],
    ) -> [u8; 32]
        requires sequence { stamp.now.sequence < LAST_NUMBER }
        requires numbers { stamp.now.next + length replies.now ≤ END_OF_NUMBERS }
        ensures token { result ≡ token_of (stamp.now.sequence + 1) stamp.now.token (catalog_digest self.old.catalog)
            (root self.old.store.rows) (replies_digest stamp.now.next replies.now) }
        ensures rows { self.new.store.rows ≡ self.old.store.rows }
        ensures points { self.new.store.points ≡ self.old.store.points }
        ensures cards { self.new.catalog ≡ self.old.catalog }
    {
        let dirty = self.store.take_dirty();
        runtime.gate.refreshes(&dirty);
        let threads = runtime.workers.count();
        let mut digest = || -> [u8; 32]
            requires { stamp.now.next + length replies.now ≤ END_OF_NUMBERS }
            ensures { result ≡ replies_digest stamp.entry.now.next replies.entry.now }
        { reply_digest(stamp.next, replies) };
        let (rt, store) = (runtime.rt, &self.store);
        let replies = self
            .tree
            .refresh_beside(rt, store, &dirty, threads, &mut digest);
        let parts = TokenParts {
            sequence: stamp.sequence + 1,
            prior: stamp.token,
            catalog: self.digest,
            root: self.tree.root(),
            replies,
        };
        parts.token()
    }

    /// Executes a batch that meets the newest point's rows, and returns its record.
    fn recorded<R: Threads + Sync, G: Gate>(
        &mut self,
        runtime: &Runtime<'_, R, G>,
        next: &NextBatch<'_>,
        way: Way,
        point: usize,
    ) -> Result<Record, Memory>
        requires newest { length self.old.store.points ≡ point + 1 }
        requires marked { slice_get self.old.store.points point ≡ Some self.old.store.rows }
        requires sound { IsSoundState self.old.catalog (met_by self.old next.now) }
        ensures record { IfOk result (IsRecordBy way self.old next.now) }
        ensures rows { OnOk result (self.new.store.rows ≡ rows_by self.old next.now) }
        ensures points { self.new.store.points ≡ self.old.store.points }
        ensures cards { self.new.catalog ≡ self.old.catalog }
    {
        let (replies, path) = self.replies_of(runtime, next, way, point)?;
        let token = self.token_of(runtime, &next.stamp, &replies);
        Ok(Record {
            sequence: next.stamp.sequence + 1,
            first: next.stamp.next,
            replies,
            token,
            path,
        })
    }

    /// Executes a batch, and saves the rows that it met as a new point. If an allocation fails, the rows are restored and no
    /// point is added.
    pub fn execute<R: Threads + Sync, G: Gate>(
        &mut self,
        runtime: &Runtime<'_, R, G>,
        next: &NextBatch<'_>,
        way: Way,
    ) -> Result<Record, Memory>
        requires room { length self.old.store.points < POINTS }
        requires sound { IsSoundState self.old.catalog (met_by self.old next.now) }
        ensures record { IfOk result (IsRecordBy way self.old next.now) }
        ensures rows { OnOk result (self.new.store.rows ≡ rows_by self.old next.now) }
        ensures points { OnOk result (self.new.store.points ≡ self.old.store.points ++ self.old.store.rows ∷ []) }
        ensures cards { self.new.catalog ≡ self.old.catalog }
        ensures old_rows { OnErr result (self.new.store.rows ≡ self.old.store.rows) }
        ensures old_points { OnErr result (self.new.store.points ≡ self.old.store.points) }
    {
        let point = self.store.points();
        mark(&mut self.store);
        let outcome = self.recorded(runtime, next, way, point);
        if outcome.is_err() {
            self.store.back_to(point).unwrap();
        }
        outcome
    }
}
