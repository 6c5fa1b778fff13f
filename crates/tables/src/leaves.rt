//! The ranks of the rows of each leaf.
ghost use Rattle.std.specs.Prelude.{◌≡◌, ◌<◌, ◌≤◌, IfOk, OnErr, OnOk, length};
ghost use Rattle.std.specs.FinMap as map;
ghost use Rattle.tables.specs.Leaves.{in_group, leaf_of};
ghost use Rattle.tables.specs.Shelves.{IsPlaced, rows_at, union};
ghost use Rattle.tpcc_rows.specs.declared.codes.TheConstants.{LEAVES};

use crate::table::Table;
use std::alloc::Global;
use std::marker::Model;
use tpcc_rows::codes::LEAVES;
use tpcc_rows::memory::Memory;

/// The leaves of a group.
const GROUP: usize = 16;

/// The number of groups.
const GROUPS: usize = 4096;

/// The ranks of the leaves of one group. A leaf gets its place with the first rank for it or a later one, so few rows take
/// little memory.
#[derive(Drop)]
struct Group {
    leaves: Vec<Table<()>>,
}

impl Model for Group {
    ghost use base.Stored.{coded_unit};
    ghost use Rattle.std.specs.Prelude.{⊤};
    ghost use Rattle.tables.specs.ByRank.{ByRank, by_rank_code};
    ghost use Rattle.tables.specs.Leaves.{in_group};
    ghost use Rattle.tables.specs.Shelves.{IsPlaced, union};

    ghost Value = { ByRank ⊤ };

    ghost coded = { by_rank_code coded_unit };

    ghost view = { λ s. union s.leaves.items };

    ghost invariant = { λ s. IsPlaced in_group s.leaves.items };
}

/// Appends empty tables up to this number.
fn extend(alloc: Global, leaves: &mut Vec<Table<()>>, count: usize) -> Result<(), Memory>
    requires { IsPlaced in_group leaves.old.items }
    ensures placed { IsPlaced in_group leaves.new.items }
    ensures same { union leaves.new.items ≡ union leaves.old.items }
    ensures enough { OnOk result (count ≤ length leaves.new.items) }
{
    for _ in leaves.len()..count {
        leaves.push(Table::new(alloc))?;
    }
    Ok(())
}

impl Group {
    fn new(alloc: Global) -> Group
        ensures { result ≡ map.empty }
    {
        Group {
            leaves: Vec::new(alloc),
        }
    }

    fn ranks(&self, leaf: usize) -> &[(u64, ())]
        ensures { result.now ≡ map.entries (rows_at in_group self.now leaf) }
    {
        if leaf < self.leaves.len() {
            self.leaves[leaf].as_slice()
        } else {
            &[]
        }
    }

    fn put(&mut self, alloc: Global, leaf: usize, rank: u64) -> Result<(), Memory>
        requires small { leaf < 16 }
        requires at { leaf ≡ in_group rank }
        ensures ok { OnOk result (self.new ≡ map.insert self.old rank tt) }
        ensures err { OnErr result (self.new ≡ self.old) }
    {
        extend(alloc, &mut self.leaves, leaf + 1)?;
        let ranks = &mut self.leaves[leaf];
        ranks.put(rank, ())?;
        Ok(())
    }

    fn remove(&mut self, leaf: usize, rank: u64)
        requires { leaf ≡ in_group rank }
        ensures { self.new ≡ map.remove self.old rank }
    {
        if leaf < self.leaves.len() {
            self.leaves[leaf].remove(rank);
        }
    }
}

/// A finite set of ranks, by leaf.
#[derive(Drop)]
pub struct Leaves {
    alloc: Global,
    groups: Vec<Group>,
}

impl Model for Leaves {
    ghost use base.Stored.{coded_unit};
    ghost use Rattle.std.specs.Prelude.{⊤};
    ghost use Rattle.tables.specs.ByRank.{ByRank, by_rank_code};
    ghost use Rattle.tables.specs.Leaves.{group_of};
    ghost use Rattle.tables.specs.Shelves.{IsShelf, union};

    ghost Value = { ByRank ⊤ };

    ghost coded = { by_rank_code coded_unit };

    ghost view = { λ s. union s.groups.items };

    ghost invariant = { λ s. IsShelf 4096 group_of s.groups.items };
}

impl Leaves {
    /// No ranks.
    pub fn new(alloc: Global) -> Result<Leaves, Memory>
        ensures { IfOk result (λ leaves. leaves ≡ map.empty) }
    {
        let mut groups = Vec::with_capacity(alloc, GROUPS)?;
        for _ in 0..GROUPS {
            groups.push(Group::new(alloc))?;
        }
        Ok(Leaves { alloc, groups })
    }

    /// The ranks of a leaf, in ascending order.
    pub fn ranks(&self, leaf: usize) -> &[(u64, ())]
        requires { leaf < LEAVES }
        ensures { result.now ≡ map.entries (rows_at leaf_of self.now leaf) }
    {
        self.groups[leaf / GROUP].ranks(leaf % GROUP)
    }

    /// Inserts the rank.
    pub fn put(&mut self, leaf: usize, rank: u64) -> Result<(), Memory>
        requires small { leaf < LEAVES }
        requires at { leaf ≡ leaf_of rank }
        ensures ok { OnOk result (self.new ≡ map.insert self.old rank tt) }
        ensures err { OnErr result (self.new ≡ self.old) }
    {
        let group = &mut self.groups[leaf / GROUP];
        group.put(self.alloc, leaf % GROUP, rank)
    }

    /// Removes the rank.
    pub fn remove(&mut self, leaf: usize, rank: u64)
        requires small { leaf < LEAVES }
        requires at { leaf ≡ leaf_of rank }
        ensures { self.new ≡ map.remove self.old rank }
    {
        let group = &mut self.groups[leaf / GROUP];
        group.remove(leaf % GROUP, rank);
    }
}
