//! Hashing inner nodes.
ghost use Rattle.std.specs.Prelude.{◌≡◌, ◌<◌, ◌≤◌, ◌+◌, ◌*◌, ℕ, length};
ghost use Rattle.bit_sets.specs.BitSets.{has_bit};
ghost use Rattle.sha2.specs.Sha256.{sha256};
ghost use Rattle.merkle.specs.Nodes.{AreBranches, AreJoinedTo, AreNearlyBranches, at, in_branch, join_at, left_of};
ghost use Rattle.merkle.specs.declared.marks.TheConstants.{BRANCH_LEAVES};
ghost use Rattle.tpcc_rows.specs.declared.codes.TheConstants.{LEAVES};

use crate::hashing::{NODE_BYTES, encode_node, join};
use crate::helped::Helped;
use crate::jobs::{Job, MOST_JOBS, gather_nodes, put_hashes};
use crate::marks::{BRANCH_LEAVES, BRANCH_NODES, Level, Marks};
use crate::places::{Encodes, Places};
use sha2_lanes::SecondBlocks;
use tpcc_rows::row_buf::ByteBuf;

/// The place of a node's left child.
fn left_of(i: usize) -> usize
    requires { i < 2 * LEAVES }
    ensures { result ≡ left_of i }
{
    i + i % BRANCH_NODES
}

/// The inner nodes of branches.
#[derive(Clone, Copy)]
pub(crate) struct InnerNodes<'a> {
    pub(crate) nodes: &'a [[u8; 32]],
    pub(crate) second_blocks: &'a SecondBlocks,
}

impl Places for InnerNodes<'_> {
    ghost use Rattle.std.specs.Prelude.{◌<◌, ◌≤◌, ◌+◌, ◌*◌, length};
    ghost use Rattle.merkle.specs.Nodes.{join_at, left_of};
    ghost use Rattle.tpcc_rows.specs.declared.codes.TheConstants.{LEAVES};

    ghost has = { λ inner i. (left_of i + 1 < length inner.nodes.now) × (i < 2 * LEAVES) };

    ghost hash = { λ inner i. join_at inner.nodes.now i };

    fn second_blocks(&self) -> &SecondBlocks {
        self.second_blocks
    }

    // Their texts have one size.
    fn arrange(&self, _: &mut [Job]) {}

    fn hash_one(&self, i: usize) -> [u8; 32] {
        let left = left_of(i);
        join(&self.nodes[left], &self.nodes[left + 1])
    }
}

impl Encodes<NODE_BYTES> for InnerNodes<'_> {
    #[tactic(auto, unfolding(tpcc_model::specs::Roots::joined))]
    fn encode(&self, i: usize, text: &mut ByteBuf<NODE_BYTES>) {
        let left = left_of(i);
        text.clear();
        text.push(encode_node(&self.nodes[left], &self.nodes[left + 1]).as_slice());
    }
}

/// Joins again the nodes of the level from `from` on that are above a mark, up to as many as are hashed at once. Returns where to go
/// on.
fn rejoin_some(
    nodes: &mut [[u8; 32]],
    second_blocks: &SecondBlocks,
    marks: &mut Marks,
    jobs: &mut [Job; MOST_JOBS],
    helped: &mut Helped,
    level: Level,
    from: usize,
) -> usize
    requires small { length nodes.old ≤ 2 * LEAVES }
    requires from { from < length nodes.old }
    requires to { AreJoinedTo level.low level.high from nodes.old (has_bit marks.old.words) }
    ensures on { (from < result) × (result ≤ length nodes.new) }
    ensures len { length nodes.new ≡ length nodes.old }
    ensures to { AreJoinedTo level.low level.high result nodes.new (has_bit marks.new.words) }
    ensures leaves { (i : ℕ) → BRANCH_LEAVES ≤ in_branch i → at nodes.new i ≡ at nodes.old i }
{
    let (count, next) = gather_nodes(jobs, marks, level, from, nodes.len());
    let jobs = &mut jobs[..count];
    let inner = InnerNodes {
        nodes,
        second_blocks,
    };
    helped.do_nodes(jobs, &inner);
    put_hashes(nodes, jobs);
    next
}

/// Joins again the nodes of the level that are above a mark.
fn rejoin_level(
    nodes: &mut [[u8; 32]],
    second_blocks: &SecondBlocks,
    marks: &mut Marks,
    jobs: &mut [Job; MOST_JOBS],
    helped: &mut Helped,
    level: Level,
)
    requires small { length nodes.old ≤ 2 * LEAVES }
    requires to { AreJoinedTo level.low level.high 0 nodes.old (has_bit marks.old.words) }
    ensures len { length nodes.new ≡ length nodes.old }
    ensures to { AreJoinedTo level.low level.high (length nodes.new) nodes.new (has_bit marks.new.words) }
    ensures leaves { (i : ℕ) → BRANCH_LEAVES ≤ in_branch i → at nodes.new i ≡ at nodes.old i }
{
    let mut next = 0;
    while next < nodes.len() {
        next = rejoin_some(nodes, second_blocks, marks, jobs, helped, level, next);
    }
}

/// Joins again all inner nodes above a mark, level by level from the lowest.
pub(crate) fn rejoin(
    nodes: &mut [[u8; 32]],
    second_blocks: &SecondBlocks,
    marks: &mut Marks,
    jobs: &mut [Job; MOST_JOBS],
    helped: &mut Helped,
)
    requires small { length nodes.old ≤ 2 * LEAVES }
    requires nearly { AreNearlyBranches nodes.old (has_bit marks.old.words) }
    ensures len { length nodes.new ≡ length nodes.old }
    ensures branches { AreBranches nodes.new }
    ensures leaves { (i : ℕ) → BRANCH_LEAVES ≤ in_branch i → at nodes.new i ≡ at nodes.old i }
{
    let mut high = BRANCH_LEAVES;
    while high > 1 {
        let low = high - high / 2;
        rejoin_level(
            nodes,
            second_blocks,
            marks,
            jobs,
            helped,
            Level { low, high },
        );
        high = low;
    }
}
