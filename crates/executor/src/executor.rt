//! Executes batches on one database.
ghost use Rattle.std.specs.Prelude.{◌≡◌, ◌↔◌, ◌<◌, ◌==◌, [], ◌∷◌, IfErr, IfOk, IsErr, OnErr, OnOk, None, Some, length, map, slice_get, take};
ghost use Rattle.std.specs.List.{position};
ghost use Rattle.catalog.specs.CardBytes.{catalog_digest};
ghost use Rattle.executor.specs.Executions.{IsRecordOf, IsRefusedFor, path_in, refusal_for};
ghost use Rattle.executor.specs.Headline.{Headline, completed};
ghost use Rattle.executor.specs.Chains.{HasNone, IsReturned, committed, extended, opening_chain, states};
ghost use Rattle.executor.specs.Paths.{path_of};
ghost use Rattle.executor.specs.Stamps.{IsWithinLimits, resumed, stamp_of};
ghost use Rattle.executor.specs.States.{IsSoundState};
ghost use Rattle.executor.specs.declared.path.Path.TheVariants as path;
ghost use Rattle.executor.specs.declared.refusal.Refusal.TheVariants as refusal;
ghost use Rattle.merkle.specs.Nodes.{IsOf};
ghost use Rattle.tpcc_model.specs.Database.{database};
ghost use Rattle.tpcc_model.specs.Soundness.{IsSound};

use crate::engine::Engine;
use crate::laws::sound_states;
use crate::next_batch::{LAST_NUMBER, MOST_REQUESTS, NextBatch};
use crate::opening::{beside_digest, next_number};
use crate::record::Record;
use crate::refusal::Refusal;
use crate::stamp::{NumbersTaken, Stamp};
use crate::way::Way;
use arrayvec::ArrayVec;
use catalog::Catalog;
use hashers::Host;
use merkle::Tree;
use requests::request::Batch;
use rollback::POINTS;
use row_store::PointedStore;
use std::alloc::Global;
use std::marker::Model;
use std::thread::Threads;
use token::{TokenParts, reply_digest};
use tpcc_rows::id::END_OF_NUMBERS;
use tpcc_rows::memory::Memory;
use workers::{Gate, NoGate, Runtime, Workers};

/// A database between batches, and the states before its uncommitted batches, to which it can be rolled back. A batch is
/// uncommitted from its execution until it is committed or rolled back.
#[derive(Drop)]
pub struct Executor {
    engine: Engine,
    /// The stamp of each point of the store, oldest first.
    earlier: ArrayVec<Stamp, POINTS>,
    present: Stamp,
}

impl Model for Executor {
    ghost use Rattle.executor.specs.Chains.{IsExecutor, Chain, chain_code, state_of, states_of};

    ghost Value = { Chain };

    ghost coded = { chain_code };

    ghost view = { λ e. record {
      cards = e.engine.catalog;
      earlier = states_of e.engine.store.points e.earlier.items;
      present = state_of e.engine.store.rows e.present;
    } };

    ghost invariant = { λ e. IsExecutor e.engine e.earlier.items e.present };
}

/// The index of the first stamp with this number.
fn point_among(stamps: &[Stamp], sequence: u64) -> Option<usize>
    ensures { result ≡ position (λ stamp. stamp.sequence == sequence) stamps.now }
{
    stamps.iter().position(|stamp| stamp.sequence == sequence)
}

impl Executor {
    /// A database before any batch. Its first request's number is one more than the greatest in HISTORY.
    #[inline(never)]
    pub fn new<R: Threads + Sync>(
        rt: &R,
        alloc: Global,
        catalog: Catalog,
        store: PointedStore,
    ) -> Result<Executor, Memory>
        requires sound { IsSound (database catalog store.rows) }
        requires points { store.points ≡ [] }
        ensures chain { IfOk result (λ e. e ≡ opening_chain catalog store.rows) }
        ensures sound { IfOk result (λ e. IsSoundState e.cards e.present) }
    {
        let (digest, built) = beside_digest(
            rt,
            &catalog,
            || -> Result<Tree, Memory>
                ensures { IfOk result (λ tree. IsOf tree store.rows) }
            { Tree::build(rt, alloc, &store) },
        );
        let tree = built?;
        Ok(Executor::of_parts(catalog, digest, store, tree))
    }

    /// A database before any batch, from its cards' digest and its rows' tree; numbers start as in `new`.
    #[inline(never)]
    pub fn of_parts(catalog: Catalog, digest: [u8; 32], store: PointedStore, tree: Tree) -> Executor
        requires sound { IsSound (database catalog store.rows) }
        requires points { store.points ≡ [] }
        requires digest { digest ≡ catalog_digest catalog }
        requires tree { IsOf tree store.rows }
        ensures chain { result ≡ opening_chain catalog store.rows }
        ensures sound { IsSoundState result.cards result.present }
    {
        sound_states();
        let next = next_number(&store);
        let parts = TokenParts {
            sequence: 0,
            prior: [0; 32],
            catalog: digest,
            root: tree.root(),
            replies: reply_digest(next, &[]),
        };
        Executor {
            engine: Engine {
                catalog,
                digest,
                store,
                tree,
            },
            earlier: ArrayVec::new(),
            present: Stamp {
                next,
                sequence: 0,
                token: parts.token(),
            },
        }
    }

    /// Starts threads that help the calling one with hashing, for batches executed by `workers`.
    pub fn keep_threads<R: Host>(&mut self, rt: R, alloc: Global, workers: Workers)
        ensures { self.new ≡ self.old }
    {
        self.engine.tree.keep_threads(rt, alloc, workers.count());
    }

    pub fn catalog(&self) -> &Catalog
        ensures { result.now ≡ self.now.cards }
    {
        &self.engine.catalog
    }

    pub fn store(&self) -> &PointedStore
        ensures { result.now.rows ≡ self.now.present.rows }
    {
        &self.engine.store
    }

    /// The number of the last batch, or 0 before the first.
    pub fn sequence(&self) -> u64
        ensures { result ≡ self.now.present.sequence }
    {
        self.present.sequence
    }

    /// The token of the last batch.
    pub fn token(&self) -> [u8; 32]
        ensures { result ≡ self.now.present.token }
    {
        self.present.token
    }

    /// The number of the next request.
    pub fn next_number(&self) -> u64
        ensures { result ≡ self.now.present.next }
    {
        self.present.next
    }

    /// The stamp of the present state.
    pub fn stamp(&self) -> Stamp
        ensures value { result ≡ stamp_of self.now.present }
        ensures within { IsWithinLimits result }
    {
        self.present
    }

    /// Gives the present state this stamp, so that a database that was stored and loaded continues as if it had never stopped.
    /// Request numbers can only go up.
    pub fn resume(&mut self, stamp: &Stamp) -> Result<(), NumbersTaken>
        requires alone { self.old.earlier ≡ [] }
        requires within { IsWithinLimits stamp.now }
        ensures chain { OnOk result (self.new ≡ resumed self.old stamp.now) }
        ensures taken { IsErr result ↔ (stamp.now.next < self.old.present.next) }
        ensures least { IfErr result (λ e. e.least ≡ self.old.present.next) }
        ensures sound { IsSoundState self.new.cards self.new.present }
        ensures err { OnErr result (self.new ≡ self.old) }
    {
        self.keep_sound();
        if stamp.next < self.present.next {
            return Err(NumbersTaken {
                least: self.present.next,
            });
        }
        self.present = *stamp;
        self.keep_sound();
        Ok(())
    }

    /// The present state is sound.
    pub(crate) fn keep_sound(&self)
        ensures { IsSoundState self.now.cards self.now.present }
    {
        let _ = &self.engine;
    }

    /// Why the batch is refused, apart from lack of memory.
    fn refusal_for(&self, batch: &Batch) -> Option<Refusal>
        ensures { result ≡ refusal_for POINTS self.now batch.now }
    {
        let count = batch.requests.len();
        if count > MOST_REQUESTS {
            Some(Refusal::BatchTooLong)
        } else if self.present.sequence == LAST_NUMBER
            || count as u64 > END_OF_NUMBERS - self.present.next
        {
            Some(Refusal::NumbersExhausted)
        } else if self.earlier.len() >= POINTS {
            Some(Refusal::PointsFull)
        } else {
            None
        }
    }

    fn execute_by<R: Threads + Sync, G: Gate>(
        &mut self,
        runtime: &Runtime<'_, R, G>,
        batch: &Batch,
        way: Way,
    ) -> Result<Record, Refusal>
        ensures admitted { OnOk result (refusal_for POINTS self.old batch.now ≡ None) }
        ensures chain { OnOk result (self.new ≡ extended self.old batch.now) }
        ensures record { IfOk result (IsRecordOf self.old.cards self.old.present batch.now (path_in way self.old.cards self.old.present batch.now)) }
        ensures refused { IfErr result (IsRefusedFor (refusal_for POINTS self.old batch.now)) }
        ensures sound { IsSoundState self.new.cards self.new.present }
        ensures err { OnErr result (self.new ≡ self.old) }
    {
        if let Some(refusal) = self.refusal_for(batch) {
            return Err(refusal);
        }
        sound_states();
        let next = NextBatch {
            batch,
            stamp: self.present,
        };
        next.keep_within();
        let record = self.engine.execute(runtime, &next, way)?;
        let token = record.token;
        self.earlier.push(self.present);
        self.present = Stamp {
            next: self.present.next + batch.requests.len() as u64,
            sequence: record.sequence,
            token,
        };
        Ok(record)
    }

    /// Executes a batch: level by level if threads pay or the gate listens, else in order. If a request strays in a level, or
    /// if the verdict is `rerun`, the batch is rolled back and re-executed in order; with that verdict and no gate listening it
    /// is executed once, in order. Replies, rows, token and path are the same in every case. The gate observes each execution.
    pub fn execute<R: Threads + Sync, G: Gate>(
        &mut self,
        runtime: &Runtime<'_, R, G>,
        batch: &Batch,
    ) -> Result<Record, Refusal>
        ensures admitted { OnOk result (refusal_for POINTS self.old batch.now ≡ None) }
        ensures chain { OnOk result (self.new ≡ extended self.old batch.now) }
        ensures headline { IfOk result (λ r. Headline self.old.cards self.old.present (batch.now ∷ []) (completed r ∷ []) self.new.present) }
        ensures record { IfOk result (IsRecordOf self.old.cards self.old.present batch.now (path_of self.old.cards self.old.present batch.now)) }
        ensures refused { IfErr result (IsRefusedFor (refusal_for POINTS self.old batch.now)) }
        ensures sound { IsSoundState self.new.cards self.new.present }
        ensures err { OnErr result (self.new ≡ self.old) }
    {
        self.keep_sound();
        self.execute_by(runtime, batch, Way::ByWorkers)
    }

    /// Executes a batch one request after the other.
    pub fn execute_sequential<R: Threads + Sync>(
        &mut self,
        rt: &R,
        alloc: Global,
        batch: &Batch,
    ) -> Result<Record, Refusal>
        ensures admitted { OnOk result (refusal_for POINTS self.old batch.now ≡ None) }
        ensures chain { OnOk result (self.new ≡ extended self.old batch.now) }
        ensures record { IfOk result (IsRecordOf self.old.cards self.old.present batch.now path.Sequential) }
        ensures refused { IfErr result (IsRefusedFor (refusal_for POINTS self.old batch.now)) }
        ensures sound { IsSoundState self.new.cards self.new.present }
        ensures err { OnErr result (self.new ≡ self.old) }
    {
        let runtime = Runtime {
            rt,
            alloc,
            workers: Workers::new(1).unwrap(),
            gate: &NoGate,
        };
        self.execute_by(&runtime, batch, Way::InOrder)
    }

    /// Commits the oldest uncommitted batch, and returns its number. Allocates nothing.
    pub fn commit(&mut self) -> Result<u64, Refusal>
        ensures chain { OnOk result (self.new ≡ committed self.old) }
        ensures sequence { IfOk result (λ sequence. slice_get (map (λ state. state.sequence) (states self.old)) 1 ≡ Some sequence) }
        ensures none { IsErr result ↔ (self.old.earlier ≡ []) }
        ensures refused { IfErr result (λ e. e ≡ refusal.NoSuchPoint) }
        ensures err { OnErr result (self.new ≡ self.old) }
    {
        if self.earlier.is_empty() {
            return Err(Refusal::NoSuchPoint);
        }
        let committed = match self.earlier.get(1) {
            Some(next) => next.sequence,
            None => self.present.sequence,
        };
        self.engine.store.drop_oldest().unwrap();
        self.earlier.remove(0);
        Ok(committed)
    }

    /// The index of the point that holds the state with this number.
    fn point_of(&self, sequence: u64) -> Option<usize>
        ensures { result ≡ position (λ state. state.sequence == sequence) self.now.earlier }
    {
        point_among(self.earlier.as_slice(), sequence)
    }

    /// Makes a point's state the present one, and drops that point and the later ones.
    fn go_back(&mut self, point: usize)
        requires { point < length self.old.earlier }
        ensures cards { self.new.cards ≡ self.old.cards }
        ensures earlier { self.new.earlier ≡ take point self.old.earlier }
        ensures present { slice_get self.old.earlier point ≡ Some self.new.present }
    {
        self.engine.store.back_to(point).unwrap();
        self.present = self.earlier[point];
        self.earlier.truncate(point);
    }

    /// Rolls back to the state after the batch with this number, which is the last committed one or an uncommitted one. Later
    /// batches are forgotten. Allocates nothing.
    pub fn rollback_to(&mut self, sequence: u64) -> Result<(), Refusal>
        ensures chain { OnOk result (IsReturned sequence self.old self.new) }
        ensures none { IsErr result ↔ HasNone sequence self.old }
        ensures refused { IfErr result (λ e. e ≡ refusal.NoSuchPoint) }
        ensures sound { IsSoundState self.new.cards self.new.present }
        ensures err { OnErr result (self.new ≡ self.old) }
    {
        if sequence == self.present.sequence {
            return Ok(());
        }
        let Some(point) = self.point_of(sequence) else {
            return Err(Refusal::NoSuchPoint);
        };
        self.go_back(point);
        self.keep_sound();
        Ok(())
    }
}
