//! The ranks of a district's new orders, in ascending order: the least leaves, and comes back, at the same cost for any number.
ghost use Rattle.std.specs.Prelude.{◌≡◌, ◌<◌, Err, IfOk, IsTrue, None, Ok, OnErr, OnOk, length, option_map, slice_get, true, ⊤};
ghost use Rattle.std.specs.FinMap as map;
ghost use Rattle.std.specs.List.{insert, remove};
ghost use Rattle.std.specs.Ordering.{nat_cmp};
ghost use Rattle.tpcc_rows.specs.Places.{IsPlaceOf, are_in_order};

use std::alloc::Global;
use std::collections::VecDeque;
use std::marker::Model;
use tpcc_rows::memory::Memory;

/// A finite set of ranks in a ring buffer. Places that were emptied at the front are used again at the back.
#[derive(Drop)]
pub struct RankQueue {
    entries: VecDeque<(u64, ())>,
}

impl Model for RankQueue {
    ghost use base.Stored.{coded_unit};
    ghost use Rattle.std.specs.Prelude.{◌≡◌, true, ⊤};
    ghost use Rattle.std.specs.FinMap as map;
    ghost use Rattle.std.specs.Ordering.{nat_cmp};
    ghost use Rattle.tables.specs.ByRank.{ByRank, by_rank_code};
    ghost use Rattle.tpcc_rows.specs.Places.{are_in_order};

    ghost Value = { ByRank ⊤ };

    ghost coded = { by_rank_code coded_unit };

    ghost view = { λ s. map.from_sorted s.entries.items };

    ghost invariant = { λ s. are_in_order nat_cmp s.entries.items ≡ true };
}

/// Whether the rank is at the place.
fn is_at(entries: &VecDeque<(u64, ())>, rank: u64, place: usize) -> bool
    ensures { IsTrue result → IsPlaceOf nat_cmp rank entries.now.items (Ok place) }
{
    match entries.get(place) {
        Some((other, _)) => *other == rank,
        None => false,
    }
}

/// Whether the rank is less than the first one, if there is one.
fn is_before(entries: &VecDeque<(u64, ())>, rank: u64) -> bool
    requires { are_in_order nat_cmp entries.now.items ≡ true }
    ensures { IsTrue result → IsPlaceOf nat_cmp rank entries.now.items (Err 0) }
{
    match entries.front() {
        Some((first, _)) => rank < *first,
        None => true,
    }
}

/// Whether the rank is greater than the last one.
fn is_behind(entries: &VecDeque<(u64, ())>, rank: u64) -> bool
    requires { are_in_order nat_cmp entries.now.items ≡ true }
    ensures { IsTrue result → IsPlaceOf nat_cmp rank entries.now.items (Err (length entries.now.items)) }
{
    match entries.back() {
        Some((last, _)) => *last < rank,
        None => false,
    }
}

/// Where the rank is, or where it would be inserted.
fn search(entries: &VecDeque<(u64, ())>, rank: u64) -> Result<usize, usize>
    requires { are_in_order nat_cmp entries.now.items ≡ true }
    ensures { IsPlaceOf nat_cmp rank entries.now.items result }
{
    entries.binary_search_by(|entry| entry.0.cmp(&rank))
}

/// Where the rank is, or where it would be inserted: at one of the ends, or between them.
fn place_of(entries: &VecDeque<(u64, ())>, rank: u64) -> Result<usize, usize>
    requires { are_in_order nat_cmp entries.now.items ≡ true }
    ensures { IsPlaceOf nat_cmp rank entries.now.items result }
{
    if is_at(entries, rank, 0) {
        return Ok(0);
    }
    if is_before(entries, rank) {
        return Err(0);
    }
    if is_behind(entries, rank) {
        return Err(entries.len());
    }
    search(entries, rank)
}

impl RankQueue {
    /// No ranks.
    pub fn new(alloc: Global) -> RankQueue
        ensures { result ≡ map.empty }
    {
        RankQueue {
            entries: VecDeque::new(alloc),
        }
    }

    /// The n-th rank, counted from 0 in ascending order.
    pub fn nth(&self, n: usize) -> Option<u64>
        ensures { result ≡ option_map (λ entry. entry.0) (slice_get (map.entries self.now) n) }
    {
        match self.entries.get(n) {
            Some((rank, _)) => Some(*rank),
            None => None,
        }
    }

    /// The number of ranks.
    pub fn len(&self) -> usize
        ensures { result ≡ length (map.entries self.now) }
    {
        self.entries.len()
    }

    pub fn get(&self, rank: u64) -> Option<()>
        ensures { result ≡ map.get self.now rank }
    {
        match place_of(&self.entries, rank) {
            Ok(_) => Some(()),
            Err(_) => None,
        }
    }

    /// Inserts the rank, and returns what was there. Only an insertion can be refused memory.
    pub fn put(&mut self, rank: u64) -> Result<Option<()>, Memory>
        ensures value { IfOk result (λ was. was ≡ map.get self.old rank) }
        ensures ok { OnOk result (self.new ≡ map.insert self.old rank tt) }
        ensures err { OnErr result (self.new ≡ self.old) }
        ensures new { OnErr result (map.get self.old rank ≡ None) }
    {
        match place_of(&self.entries, rank) {
            Ok(_) => Ok(Some(())),
            Err(place) => {
                self.entries.insert(place, (rank, ()))?;
                Ok(None)
            }
        }
    }

    /// Removes the rank, and returns what was there.
    pub fn remove(&mut self, rank: u64) -> Option<()>
        ensures value { result ≡ map.get self.old rank }
        ensures after { self.new ≡ map.remove self.old rank }
    {
        match place_of(&self.entries, rank) {
            Ok(place) => {
                self.entries.remove(place)?;
                Some(())
            }
            Err(_) => None,
        }
    }
}
