//! The nodes above the branches' roots.
ghost use Rattle.std.specs.Prelude.{◌≡◌, ◌<◌, ◌≤◌, ◌+◌, ◌*◌, ℕ, length};
ghost use Rattle.merkle.specs.Nodes.{at, join_at, node_over};
ghost use Rattle.merkle.specs.declared.marks.TheConstants.{BRANCHES};
ghost use Rattle.tpcc_rows.specs.declared.codes.TheConstants.{LEAVES};

use crate::hashing::NODE_BYTES;
use crate::jobs::{Job, put_hashes};
use crate::levels::InnerNodes;
use crate::marks::{BRANCH_NODES, BRANCHES};
use crate::places::do_jobs;
use sha2_lanes::SecondBlocks;

/// Joins the level of `width` nodes of a tree in heap order.
fn join_level(top: &mut [[u8; 32]], second_blocks: &SecondBlocks, width: usize)
    requires full { length top.old ≡ 2 * BRANCHES }
    requires width { 2 * width ≤ BRANCHES }
    ensures full { length top.new ≡ 2 * BRANCHES }
    ensures joins { (n : ℕ) → n < width → at top.new (width + n) ≡ join_at top.old (width + n) }
{
    let mut jobs = [Job::at(0); BRANCHES / 2];
    for n in 0..width {
        jobs[n] = Job::at(width + n);
    }
    let jobs = &mut jobs[..width];
    let inner = InnerNodes {
        nodes: top,
        second_blocks,
    };
    do_jobs::<NODE_BYTES, _>(jobs, &inner);
    put_hashes(top, jobs);
}

/// The branches' roots, as the lowest level of a tree in heap order.
fn roots(nodes: &[[u8; 32]]) -> [[u8; 32]; 2 * BRANCHES]
    requires { length nodes.now ≡ 2 * LEAVES }
    ensures { (n : ℕ) → n < BRANCHES → at result (BRANCHES + n) ≡ node_over nodes.now 0 n }
{
    let mut top = [[0; 32]; 2 * BRANCHES];
    for n in 0..BRANCHES {
        top[BRANCHES + n] = nodes[BRANCH_NODES * n + 1];
    }
    top
}

/// The root above branches.
pub(crate) fn root_over(nodes: &[[u8; 32]], second_blocks: &SecondBlocks) -> [u8; 32]
    requires { length nodes.now ≡ 2 * LEAVES }
    ensures { result ≡ node_over nodes.now 4 0 }
{
    let mut top = roots(nodes);
    join_level(&mut top, second_blocks, 8);
    join_level(&mut top, second_blocks, 4);
    join_level(&mut top, second_blocks, 2);
    join_level(&mut top, second_blocks, 1);
    top[1]
}
