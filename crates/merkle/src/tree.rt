//! The hash tree.
ghost use Rattle.std.specs.Prelude.{◌≡◌, ◌<◌, ◌≤◌, ◌*◌, ℕ, IfOk, IfSome, length};
ghost use Rattle.merkle.specs.Nodes.{AreBranches, AreRefreshed, AreWhole, IsOf, IsOfClean, at, rehashed};
ghost use Rattle.tpcc_model.specs.Roots.{root};
ghost use Rattle.tpcc_rows.specs.RowMap.{Rows};

use crate::alike::empty_nodes;
use crate::helped::Helped;
use crate::leaves::{Change, Leaves, filled_leaves};
use crate::marks::{BRANCH_NODES, BRANCHES};
use crate::parts::{Sharing, refresh_all, refresh_by, refresh_part};
use crate::top::root_over;
use hashers::Host;
use rollback::Dirty;
use row_store::PointedStore;
use sha2_lanes::SecondBlocks;
use std::alloc::Global;
use std::marker::Model;
use std::num::NonZeroUsize;
use std::thread::{self, Threads};
use tpcc_rows::codes::LEAVES;
use tpcc_rows::memory::Memory;

/// Minimum rows per new thread. Starting one costs as much as hashing a few hundred.
const ROWS_A_THREAD: usize = 2048;

/// Minimum number of new threads that pay, since helpers hash less than that sooner.
const FEWEST_THREADS: usize = 4;

/// Rows that take as long to hash as the nodes above a leaf.
const ROWS_OF_NODES: usize = 16;

/// The work of rehashing leaves and the nodes above, in rows, counted up to about `most`.
fn work_of(change: &Change<'_, '_>, most: usize) -> usize {
    let mut work = 0usize;
    let mut next = 0;
    while let Some(n) = change.dirty.first_from(next) {
        if work >= most {
            return work;
        }
        let rows = change.leaves.store.page(n).len();
        work = work.saturating_add(rows).saturating_add(ROWS_OF_NODES);
        next = n + 1;
    }
    work
}

/// The number of places for each of at most so many threads, if new threads pay.
fn places_a_thread(change: &Change<'_, '_>, threads: usize) -> Option<usize>
    ensures { IfSome result (λ size. (0 < size) × AreWhole size) }
{
    let most = threads.min(BRANCHES);
    let paying = work_of(change, most * ROWS_A_THREAD) / ROWS_A_THREAD;
    let count = paying.min(most);
    if count < FEWEST_THREADS.min(most) || count < 2 {
        return None;
    }
    Some(BRANCHES.div_ceil(count) * BRANCH_NODES)
}

/// Rehashes the dirty leaves, and the nodes above them up to the branches' roots: on at most `threads` threads, new ones if they pay, else
/// with helpers. Calls `beside`, before it waits for new threads, and returns its result.
fn refresh_nodes<R: Threads + Sync, F: FnMut() -> T, T>(
    rt: &R,
    alloc: Global,
    change: &Change<'_, '_>,
    threads: usize,
    nodes: &mut [[u8; 32]],
    helped: &mut Helped,
    beside: &mut F,
) -> T
    requires full { length nodes.old ≡ 2 * LEAVES }
    requires branches { AreBranches nodes.old }
    requires beside { F.pre beside.old }
    ensures nodes { AreRefreshed change.now.dirty.now change.now.leaves.store.now.rows 0 nodes.old nodes.new }
    ensures beside { F.post beside.old result }
{
    if let Some(size) = places_a_thread(change, threads) {
        return refresh_by(&Sharing { rt, alloc, size }, change, 0, nodes, beside);
    }
    helped.use_threads(threads);
    refresh_part(nodes, 0, change, helped);
    beside()
}

/// The hashes of all nodes: in branches, and the root. Contracts see those of the leaves.
#[derive(Drop)]
pub struct Tree {
    nodes: Vec<[u8; 32]>,
    root: [u8; 32],
    helped: Helped,
    second_blocks: SecondBlocks,
    /// How many threads pay at most.
    processors: usize,
    alloc: Global,
}

impl Model for Tree {
    ghost use Rattle.std.specs.Prelude.{ℕ, ◌≡◌, ◌*◌, List, length};
    ghost use Rattle.merkle.specs.Nodes.{AreBranches, leaves_of, node_over};
    ghost use Rattle.tpcc_rows.specs.declared.codes.TheConstants.{LEAVES};

    ghost Value = { List (List ℕ) };

    ghost view = { λ t. leaves_of t.nodes.items };

    ghost invariant = { λ t. AreBranches t.nodes.items × (length t.nodes.items ≡ 2 * LEAVES) × (t.root ≡ node_over t.nodes.items 4 0) };
}

impl Tree {
    /// The root: that of the rows, if all leaf hashes are theirs.
    pub fn root(&self) -> [u8; 32]
        ensures { (rows : Rows) → IsOf self.now rows → result ≡ root rows }
    {
        self.root
    }

    /// Builds the tree of the rows, on all processors.
    pub fn build<R: Threads + Sync>(
        rt: &R,
        alloc: Global,
        store: &PointedStore,
    ) -> Result<Tree, Memory>
        ensures { IfOk result (λ tree. IsOf tree store.now.rows) }
    {
        let mut nodes = empty_nodes(alloc)?;
        let second_blocks = SecondBlocks::new(alloc)?;
        let dirty = filled_leaves(store);
        let change = Change {
            leaves: Leaves {
                store,
                second_blocks: &second_blocks,
            },
            dirty: &dirty,
        };
        refresh_all(rt, alloc, &change, &mut nodes);
        let root = root_over(&nodes, &second_blocks);
        Ok(Tree {
            nodes,
            root,
            helped: Helped::alone(alloc),
            second_blocks,
            processors: thread::available_parallelism(rt).map_or(1, NonZeroUsize::get),
            alloc,
        })
    }

    /// Starts helpers for later calls: with the calling thread at most `threads`, and at most one thread per processor.
    pub fn keep_threads<R: Host>(&mut self, rt: R, alloc: Global, threads: usize)
        ensures { self.new ≡ self.old }
    {
        let count = threads.min(self.processors).saturating_sub(1);
        if let Ok(helped) = Helped::start(rt, alloc, count) {
            self.helped = helped;
        }
    }

    /// Rehashes the dirty leaves and all nodes above them, on at most `threads` threads and at most one per processor, without
    /// allocating.
    pub fn refresh<R: Threads + Sync>(
        &mut self,
        rt: &R,
        store: &PointedStore,
        dirty: &Dirty,
        threads: usize,
    )
        ensures leaves { (n : ℕ) → n < LEAVES → at self.new n ≡ rehashed dirty.now store.now.rows (at self.old n) n }
        ensures rows { IsOfClean self.old dirty.now store.now.rows → IsOf self.new store.now.rows }
    {
        self.refresh_beside(rt, store, dirty, threads, &mut || {});
    }

    /// The same, and the result of `beside`, which the calling thread computes before it waits for the others.
    pub fn refresh_beside<R: Threads + Sync, F: FnMut() -> T, T>(
        &mut self,
        rt: &R,
        store: &PointedStore,
        dirty: &Dirty,
        threads: usize,
        beside: &mut F,
    ) -> T
        requires beside { F.pre beside.old }
        ensures leaves { (n : ℕ) → n < LEAVES → at self.new n ≡ rehashed dirty.now store.now.rows (at self.old n) n }
        ensures rows { IsOfClean self.old dirty.now store.now.rows → IsOf self.new store.now.rows }
        ensures beside { F.post beside.old result }
    {
        let leaves = Leaves {
            store,
            second_blocks: &self.second_blocks,
        };
        let result = refresh_nodes(
            rt,
            self.alloc,
            &Change { leaves, dirty },
            threads.min(self.processors),
            &mut self.nodes,
            &mut self.helped,
            beside,
        );
        self.root = root_over(&self.nodes, &self.second_blocks);
        result
    }
}
