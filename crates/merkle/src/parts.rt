//! Rehashing parts of a tree, on new threads.
ghost use Rattle.std.specs.Prelude.{◌≡◌, ◌<◌, ◌≤◌, ◌+◌, ◌*◌, ◌/◌, length};
ghost use denote.Param.Send.{IsSync};
ghost use Rattle.merkle.specs.Nodes.{AreBranches, AreRefreshed, AreWhole};
ghost use Rattle.tpcc_rows.specs.declared.codes.TheConstants.{LEAVES};

use crate::helped::Helped;
use crate::jobs::{Job, MOST_JOBS};
use crate::leaves::{Change, rehash};
use crate::levels::rejoin;
use crate::marks::{BRANCH_NODES, Marks, mark_dirty};
use rayon::prelude::par_chunks_mut_for_each;
use std::alloc::Global;
use std::thread::{Threads, join_mut};

/// Rehashes the dirty leaves of branches from leaf `first` on, and all nodes above them. Not inlined, since its frame has the marks
/// and callers recurse.
#[inline(never)]
pub(crate) fn refresh_part(
    nodes: &mut [[u8; 32]],
    first: usize,
    change: &Change<'_, '_>,
    helped: &mut Helped,
)
    requires branches { AreBranches nodes.old }
    requires small { 2 * first + length nodes.old ≤ 2 * LEAVES }
    ensures { AreRefreshed change.now.dirty.now change.now.leaves.store.now.rows first nodes.old nodes.new }
{
    let mut marks = Marks::new();
    mark_dirty(&mut marks, change.dirty, first, first + nodes.len() / 2);
    let mut jobs = [Job::at(0); MOST_JOBS];
    rehash(nodes, first, change, &mut jobs, helped);
    rejoin(
        nodes,
        change.leaves.second_blocks,
        &mut marks,
        &mut jobs,
        helped,
    );
}

/// The same without helpers.
fn refresh_alone(nodes: &mut [[u8; 32]], first: usize, change: &Change<'_, '_>, alloc: Global)
    requires branches { AreBranches nodes.old }
    requires small { 2 * first + length nodes.old ≤ 2 * LEAVES }
    ensures { AreRefreshed change.now.dirty.now change.now.leaves.store.now.rows first nodes.old nodes.new }
{
    let mut helped = Helped::alone(alloc);
    refresh_part(nodes, first, change, &mut helped);
}

/// How a tree is shared out: `size` places a thread.
#[derive(Drop)]
pub(crate) struct Sharing<'a, R> {
    pub(crate) rt: &'a R,
    pub(crate) alloc: Global,
    pub(crate) size: usize,
    pub(crate) ghost some: { 0 < size },
    pub(crate) ghost whole: { AreWhole size },
}

/// The same for two parts, the first on a new thread, if one can be started, and `beside` on the calling one.
#[cycle(parts)]
fn do_parts<R: Threads + Sync, F: FnMut() -> T, T>(
    sharing: &Sharing<'_, R>,
    change: &Change<'_, '_>,
    first: usize,
    front: &mut [[u8; 32]],
    back: &mut [[u8; 32]],
    beside: &mut F,
) -> T
    requires small { 2 * first + length front.old + length back.old ≤ 2 * LEAVES }
    requires front { AreBranches front.old }
    requires back { AreBranches back.old }
    requires beside { F.pre beside.old }
    ensures front { AreRefreshed change.now.dirty.now change.now.leaves.store.now.rows first front.old front.new }
    ensures back { AreRefreshed change.now.dirty.now change.now.leaves.store.now.rows (first + length front.old / 2) back.old back.new }
    ensures beside { F.post beside.old result }
{
    let next = first + front.len() / 2;
    let alloc = sharing.alloc;
    let mut here = ||
        requires { (2 * first + length front.now ≤ 2 * LEAVES) × AreBranches front.now }
        ensures { AreRefreshed change.entry.now.dirty.now change.entry.now.leaves.store.now.rows first front.entry.now front.exit.now }
    { refresh_alone(front, first, change, alloc) };
    let mut there = || -> T
        requires { IsSync R.row × (2 * next + length back.now ≤ 2 * LEAVES) × AreBranches back.now × F.pre beside.now }
        ensures { AreRefreshed change.entry.now.dirty.now change.entry.now.leaves.store.now.rows next back.entry.now back.exit.now
            × F.post beside.entry.now result }
    { refresh_by::<R, F, T>(sharing, change, next, back, beside) };
    let (_, result) = join_mut(sharing.rt, &mut here, &mut there);
    result
}

/// The same, shared out. The calling thread starts all others, since threads that start each other often share a processor. When its own
/// part is done, and before it waits for the others, it calls `beside`, whose result is returned.
#[cycle(parts)]
pub(crate) fn refresh_by<R: Threads + Sync, F: FnMut() -> T, T>(
    sharing: &Sharing<'_, R>,
    change: &Change<'_, '_>,
    first: usize,
    nodes: &mut [[u8; 32]],
    beside: &mut F,
) -> T
    requires small { 2 * first + length nodes.old ≤ 2 * LEAVES }
    requires branches { AreBranches nodes.old }
    requires beside { F.pre beside.old }
    ensures nodes { AreRefreshed change.now.dirty.now change.now.leaves.store.now.rows first nodes.old nodes.new }
    ensures beside { F.post beside.old result }
{
    if nodes.len() <= sharing.size {
        refresh_alone(nodes, first, change, sharing.alloc);
        return beside();
    }
    let (front, back) = nodes.split_at_mut(sharing.size);
    do_parts::<R, F, T>(sharing, change, first, front, back, beside)
}

/// The same for a whole tree, on threads of `rayon`.
pub(crate) fn refresh_all<R: Threads + Sync>(
    rt: &R,
    alloc: Global,
    change: &Change<'_, '_>,
    nodes: &mut [[u8; 32]],
)
    requires full { length nodes.old ≡ 2 * LEAVES }
    requires branches { AreBranches nodes.old }
    ensures { AreRefreshed change.now.dirty.now change.now.leaves.store.now.rows 0 nodes.old nodes.new }
{
    par_chunks_mut_for_each(
        rt,
        nodes,
        BRANCH_NODES,
        |place: usize, branch: &mut [[u8; 32]]|
            requires { (place + length branch.old ≤ 2 * LEAVES) × AreWhole place × AreBranches branch.old }
            ensures { AreRefreshed change.entry.now.dirty.now change.entry.now.leaves.store.now.rows (place / 2) branch.old branch.new }
        { refresh_alone(branch, place / 2, change, alloc) },
    );
}
