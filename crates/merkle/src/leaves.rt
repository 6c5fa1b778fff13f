//! Hashing leaves.
ghost use Rattle.std.specs.Prelude.{◌≡◌, ◌<◌, ◌≤◌, ◌+◌, ◌*◌, ◌∷◌, [], ℕ, List, false, All, cond, length};
ghost use Rattle.merkle.specs.Jobs.{AreHashed, KeepsPlaces, has_place};
ghost use Rattle.merkle.specs.Nodes.{AreWhole, at, in_branch, leaf_place, rehashed};
ghost use Rattle.merkle.specs.declared.marks.TheConstants.{BRANCH_LEAVES};
ghost use Rattle.rollback.specs.Marks.{is_dirty};
ghost use Rattle.row_store.specs.Slots.{slots};
ghost use Rattle.sha2.specs.Sha256.{sha256};
ghost use Rattle.tpcc_model.specs.Roots.{leaf_hash};

use crate::hashing::{LEAF_BYTES, encode_leaf, hash_leaf};
use crate::helped::Helped;
use crate::jobs::{Job, MOST_JOBS, gather_leaves};
use crate::marks::leaf_place;
use crate::places::{Encodes, Places};
use rollback::Dirty;
use row_store::{LeafPage, PointedStore};
use sha2_lanes::SecondBlocks;
use tpcc_rows::codes::LEAVES;
use tpcc_rows::row_buf::ByteBuf;

/// The leaves of a store.
#[derive(Clone, Copy)]
pub(crate) struct Leaves<'a> {
    pub(crate) store: &'a PointedStore,
    pub(crate) second_blocks: &'a SecondBlocks,
}

/// What is read of a leaf, first of all leaves of a window, so that what is read next needn't wait for memory.
#[derive(Clone, Copy)]
enum Reading {
    /// Where its rows are.
    Lists,
    /// The ranks of its rows, and of those whose size varies the rows, up to about the size of all.
    Ranks,
}

/// Reads this of each leaf, and adds to its measure.
fn measure(jobs: &mut [Job], store: &PointedStore, reading: Reading)
    requires { All (λ job. job.place < LEAVES) jobs.old }
    ensures { KeepsPlaces jobs.old jobs.new }
{
    for k in 0..jobs.len() {
        let page = store.page(jobs[k].place);
        let read = match reading {
            Reading::Lists => page.prefetch(),
            Reading::Ranks => page.rough_size(),
        };
        jobs[k].measure = jobs[k].measure.wrapping_add(read);
    }
}

/// Sorts jobs by measure.
fn sort(jobs: &mut [Job])
    ensures { KeepsPlaces jobs.old jobs.new }
{
    jobs.sort_unstable_by_key(|job: &Job| -> usize { job.measure });
}

impl Places for Leaves<'_> {
    ghost use Rattle.std.specs.Prelude.{◌<◌};
    ghost use Rattle.tpcc_model.specs.Roots.{leaf_hash};
    ghost use Rattle.tpcc_rows.specs.declared.codes.TheConstants.{LEAVES};

    ghost has = { λ leaves n. n < LEAVES };

    ghost hash = { λ leaves n. leaf_hash leaves.store.now.rows n };

    fn second_blocks(&self) -> &SecondBlocks {
        self.second_blocks
    }

    fn arrange(&self, jobs: &mut [Job]) {
        measure(jobs, self.store, Reading::Lists);
        measure(jobs, self.store, Reading::Ranks);
        sort(jobs);
    }

    #[tactic(auto, unfolding(tpcc_model::specs::Roots::leaf_hash))]
    fn hash_one(&self, n: usize) -> [u8; 32] {
        hash_leaf(self.store.page(n))
    }
}

impl Encodes<LEAF_BYTES> for Leaves<'_> {
    #[tactic(auto, unfolding(tpcc_model::specs::Roots::leaf_hash))]
    fn encode(&self, n: usize, text: &mut ByteBuf<LEAF_BYTES>) {
        let _ = encode_leaf(self.store.page(n), text);
    }
}

/// What is to be hashed: some leaves of a store.
#[derive(Clone, Copy)]
pub(crate) struct Change<'a, 'b> {
    pub(crate) leaves: Leaves<'a>,
    pub(crate) dirty: &'b Dirty,
}

/// Puts the hashes of leaves at their places in branches from leaf `first` on.
fn put_leaves(nodes: &mut [[u8; 32]], first: usize, jobs: &[Job])
    requires small { length nodes.old ≤ 2 * LEAVES }
    requires whole { AreWhole (length nodes.old) }
    requires there { All (λ job. (first ≤ job.place) × (2 * job.place < 2 * first + length nodes.old)) jobs.now }
    ensures len { length nodes.new ≡ length nodes.old }
    ensures each { (value : ℕ → List ℕ) → AreHashed value jobs.now → (m : ℕ) → 2 * m < length nodes.old
        → at nodes.new (leaf_place m) ≡ cond (has_place jobs.now (first + m)) (value (first + m)) (at nodes.old (leaf_place m)) }
    ensures inner { (i : ℕ) → in_branch i < BRANCH_LEAVES → at nodes.new i ≡ at nodes.old i }
{
    for job in jobs {
        nodes[leaf_place(job.place - first)] = job.hash;
    }
}

/// Rehashes the dirty leaves from `from` on, up to as many as are hashed at once. Returns where to go on.
fn rehash_some(
    nodes: &mut [[u8; 32]],
    first: usize,
    from: usize,
    change: &Change<'_, '_>,
    jobs: &mut [Job; MOST_JOBS],
    helped: &mut Helped,
) -> usize
    requires small { 2 * first + length nodes.old ≤ 2 * LEAVES }
    requires whole { AreWhole (length nodes.old) }
    requires from { (first ≤ from) × (2 * from < 2 * first + length nodes.old) }
    ensures on { (from < result) × (2 * result ≤ 2 * first + length nodes.old) }
    ensures len { length nodes.new ≡ length nodes.old }
    ensures done { (m : ℕ) → from ≤ first + m → first + m < result
        → at nodes.new (leaf_place m) ≡ rehashed change.now.dirty.now change.now.leaves.store.now.rows (at nodes.old (leaf_place m)) (first + m) }
    ensures before { (m : ℕ) → first + m < from → at nodes.new (leaf_place m) ≡ at nodes.old (leaf_place m) }
    ensures behind { (m : ℕ) → result ≤ first + m → at nodes.new (leaf_place m) ≡ at nodes.old (leaf_place m) }
    ensures inner { (i : ℕ) → in_branch i < BRANCH_LEAVES → at nodes.new i ≡ at nodes.old i }
{
    let end = first + nodes.len() / 2;
    let (count, next) = gather_leaves(jobs, change.dirty, from, end);
    let jobs = &mut jobs[..count];
    helped.do_leaves(jobs, &change.leaves);
    put_leaves(nodes, first, jobs);
    next
}

/// Rehashes the dirty leaves of branches from leaf `first` on.
pub(crate) fn rehash(
    nodes: &mut [[u8; 32]],
    first: usize,
    change: &Change<'_, '_>,
    jobs: &mut [Job; MOST_JOBS],
    helped: &mut Helped,
)
    requires small { 2 * first + length nodes.old ≤ 2 * LEAVES }
    requires whole { AreWhole (length nodes.old) }
    ensures len { length nodes.new ≡ length nodes.old }
    ensures leaves { (m : ℕ) → 2 * m < length nodes.old
        → at nodes.new (leaf_place m) ≡ rehashed change.now.dirty.now change.now.leaves.store.now.rows (at nodes.old (leaf_place m)) (first + m) }
    ensures inner { (i : ℕ) → in_branch i < BRANCH_LEAVES → at nodes.new i ≡ at nodes.old i }
{
    let end = first + nodes.len() / 2;
    let mut next = first;
    while next < end {
        next = rehash_some(nodes, first, next, change, jobs, helped);
    }
}

/// Adds a leaf to a set if its page has slots.
fn add_if_filled(filled: &mut Dirty, page: LeafPage<'_>, n: usize)
    requires { n < LEAVES }
    ensures kept { (i : ℕ) → is_dirty filled.new i ≡ false → is_dirty filled.old i ≡ false }
    ensures empty { is_dirty filled.new n ≡ false → slots page.entry ≡ [] }
{
    if page.len() > 0 {
        filled.add(n);
    }
}

/// The leaves of a store that have rows.
pub(crate) fn filled_leaves(store: &PointedStore) -> Dirty
    ensures { (n : ℕ) → n < LEAVES → is_dirty result n ≡ false → leaf_hash store.now.rows n ≡ sha256 (0 ∷ []) }
{
    let mut filled = Dirty::new();
    for n in 0..LEAVES {
        add_if_filled(&mut filled, store.page(n), n);
    }
    filled
}
