//! Marks of a tree's places to be rehashed.
ghost use Rattle.std.specs.Prelude.{◌≡◌, ◌+◌, ◌*◌, ◌<◌, ◌≤◌, ◌≢◌, ℕ, IfSome, None, false};
ghost use Rattle.bit_sets.specs.BitSets.{has_bit};
ghost use Rattle.merkle.specs.Marking.{IsNext, IsNone, is_above};
ghost use Rattle.merkle.specs.Nodes.{AreWhole, IsAtLevel, leaf_place};
ghost use Rattle.merkle.specs.declared.marks.TheConstants.{BRANCH_LEAVES};
ghost use Rattle.rollback.specs.Marks.{is_dirty};

use bit_sets::{Bits, WORD_BITS};
use rollback::Dirty;
use tpcc_rows::codes::LEAVES;

/// Branches of a tree.
pub(crate) const BRANCHES: usize = 16;

/// Leaves per branch.
pub(crate) const BRANCH_LEAVES: usize = 4096;

/// Nodes per branch, and one place that none is at.
pub(crate) const BRANCH_NODES: usize = 8192;

/// A bit for each place.
const MARK_WORDS: usize = 2 * LEAVES / WORD_BITS;

/// A set of places.
pub(crate) type Marks = Bits<MARK_WORDS>;

/// The place of a leaf in branches from leaf 0 on.
pub(crate) fn leaf_place(n: usize) -> usize
    requires { n < LEAVES }
    ensures { result ≡ leaf_place n }
{
    n + BRANCH_LEAVES * (n / BRANCH_LEAVES + 1)
}

/// The first leaf of the set from `from` on, or `end` if there is none before.
pub(crate) fn next_dirty(dirty: &Dirty, from: usize, end: usize) -> usize
    requires end { end ≤ LEAVES }
    requires from { from ≤ end }
    ensures low { from ≤ result }
    ensures high { result ≤ end }
    ensures here { result < end → IsNext (λ n. n < LEAVES) (is_dirty dirty.now) from result }
    ensures before { IsNone (λ n. n < LEAVES) (is_dirty dirty.now) from result }
{
    match dirty.first_from(from) {
        Some(n) => n.min(end),
        None => end,
    }
}

/// Marks the leaves of a set from `first` to before `end`, in branches from leaf `first` on.
pub(crate) fn mark_dirty(marks: &mut Marks, dirty: &Dirty, first: usize, end: usize)
    requires first { first ≤ end }
    requires end { end ≤ LEAVES }
    requires clear { (i : ℕ) → has_bit marks.old.words i ≡ false }
    ensures { (m : ℕ) → first + m < end → has_bit marks.new.words (leaf_place m) ≡ is_dirty dirty.now (first + m) }
{
    let mut next = first;
    while next < end {
        let n = next_dirty(dirty, next, end);
        if n == end {
            return;
        }
        marks.add(leaf_place(n - first));
        next = n + 1;
    }
}

/// The first node from `from` to before `high` with a marked child, in the branch that begins at `branch`.
fn next_in_branch(marks: &Marks, branch: usize, from: usize, high: usize) -> Option<usize>
    requires branch { AreWhole branch }
    requires inside { branch + BRANCH_NODES ≤ 2 * LEAVES }
    requires from { (branch ≤ from) × (from ≤ high) }
    requires high { high ≤ branch + BRANCH_LEAVES }
    ensures some { IfSome result (λ i. (i < high) × IsNext (λ i. branch ≤ i) (is_above marks.now.words) from i) }
    ensures none { result ≡ None → IsNone (λ i. branch ≤ i) (is_above marks.now.words) from high }
{
    let child = marks.first_from(2 * from - branch)?;
    let node = (child + branch) / 2;
    if node < high { Some(node) } else { None }
}

/// A level of nodes: those from `low` to before `high` in each branch.
#[derive(Clone, Copy)]
pub(crate) struct Level {
    pub(crate) low: usize,
    pub(crate) high: usize,
    pub(crate) ghost some: { 1 ≤ low },
    pub(crate) ghost rising: { low ≤ high },
    pub(crate) ghost apart: { high ≤ 2 * low },
    pub(crate) ghost inside: { high ≤ BRANCH_LEAVES },
}

/// The first node of the level from `from` on with a marked child, or `end` if there is none before.
pub(crate) fn next_above(marks: &Marks, level: Level, from: usize, end: usize) -> usize
    requires from { from ≤ end }
    requires end { end ≤ 2 * LEAVES }
    requires whole { AreWhole end }
    ensures low { from ≤ result }
    ensures high { result ≤ end }
    ensures here { result < end → IsNext (IsAtLevel level.low level.high) (is_above marks.now.words) from result }
    ensures before { IsNone (IsAtLevel level.low level.high) (is_above marks.now.words) from result }
{
    let mut branch = from - from % BRANCH_NODES;
    while branch < end {
        let high = branch + level.high;
        let first = from.clamp(branch + level.low, high);
        if let Some(node) = next_in_branch(marks, branch, first, high) {
            return node;
        }
        branch += BRANCH_NODES;
    }
    end
}
