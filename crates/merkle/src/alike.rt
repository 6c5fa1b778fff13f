//! Trees of equal leaves.
ghost use Rattle.std.specs.Prelude.{◌≡◌, ◌<◌, ◌≤◌, ◌+◌, ◌*◌, ℕ, IfOk, length};
ghost use Rattle.merkle.specs.Nodes.{AreEmpty, IsJoin, IsWidth, at};

use crate::hashing::{hash_no_rows, join};
use crate::marks::{BRANCH_LEAVES, BRANCH_NODES, BRANCHES};
use std::alloc::{AllocError, Global};
use tpcc_rows::codes::LEAVES;

/// The height of a branch's root above its leaves.
const HEIGHT: usize = 12;

/// Sets the nodes from `low` to before `high` to a hash.
fn fill(nodes: &mut [[u8; 32]], low: usize, high: usize, hash: &[u8; 32])
    requires low { low ≤ high }
    requires high { high ≤ length nodes.old }
    ensures len { length nodes.new ≡ length nodes.old }
    ensures inside { (i : ℕ) → low ≤ i → i < high → at nodes.new i ≡ hash.now }
    ensures above { (i : ℕ) → high ≤ i → at nodes.new i ≡ at nodes.old i }
{
    for i in low..high {
        nodes[i] = *hash;
    }
}

/// Sets all leaves of a branch to a hash, joins the nodes above up to the level that begins at `low`, and returns its hash.
fn fill_alike(nodes: &mut [[u8; 32]], low: usize, height: usize, leaf: &[u8; 32]) -> [u8; 32]
    requires full { length nodes.old ≡ BRANCH_NODES }
    requires low { 1 ≤ low }
    requires width { IsWidth height low }
    ensures full { length nodes.new ≡ BRANCH_NODES }
    ensures level { (i : ℕ) → low ≤ i → i < 2 * low → at nodes.new i ≡ result }
    ensures joins { (i : ℕ) → low ≤ i → i < BRANCH_LEAVES → IsJoin nodes.new i }
    ensures leaves { (n : ℕ) → n < BRANCH_LEAVES → at nodes.new (BRANCH_LEAVES + n) ≡ leaf.now }
{
    if height == 0 {
        fill(nodes, low, 2 * low, leaf);
        return *leaf;
    }
    let below = fill_alike(nodes, 2 * low, height - 1, leaf);
    let hash = join(&below, &below);
    fill(nodes, low, 2 * low, &hash);
    hash
}

/// The hashes of all branches of a tree without rows.
pub(crate) fn empty_nodes(alloc: Global) -> Result<Vec<[u8; 32]>, AllocError>
    ensures { IfOk result (λ nodes. AreEmpty nodes.items × (length nodes.items ≡ 2 * LEAVES)) }
{
    let mut nodes = Vec::with_capacity(alloc, 2 * LEAVES)?;
    nodes.resize(BRANCH_NODES, [0u8; 32])?;
    fill_alike(&mut nodes, 1, HEIGHT, &hash_no_rows());
    for _branch in 1..BRANCHES {
        nodes.extend_from_within(..BRANCH_NODES)?;
    }
    Ok(nodes)
}
