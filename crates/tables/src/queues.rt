//! A queue of new orders for each district of each warehouse.
ghost use Rattle.std.specs.Prelude.{◌≡◌, IfOk, None, OnErr, OnOk};
ghost use Rattle.std.specs.FinMap as map;
ghost use Rattle.tables.specs.Shelves.{place_of, rows_at};

use crate::keys::PLACES;
use crate::queue::RankQueue;
use crate::shelf::place_of;
use std::alloc::Global;
use std::marker::Model;
use tpcc_rows::memory::Memory;

/// A finite set of ranks, each in the queue of its district.
#[derive(Drop)]
pub struct RankQueues {
    queues: Vec<RankQueue>,
}

impl Model for RankQueues {
    ghost use base.Stored.{coded_unit};
    ghost use Rattle.std.specs.Prelude.{⊤};
    ghost use Rattle.tables.specs.ByRank.{ByRank, by_rank_code};
    ghost use Rattle.tables.specs.Shelves.{IsShelf, place_of, union};
    ghost use Rattle.tables.specs.declared.keys.TheConstants.{PLACES};

    ghost Value = { ByRank ⊤ };

    ghost coded = { by_rank_code coded_unit };

    ghost view = { λ s. union s.queues.items };

    ghost invariant = { λ s. IsShelf PLACES place_of s.queues.items };
}

impl RankQueues {
    /// An empty queue for each district.
    pub fn new(alloc: Global) -> Result<RankQueues, Memory>
        ensures { IfOk result (λ queues. queues ≡ map.empty) }
    {
        let mut queues = Vec::with_capacity(alloc, PLACES)?;
        for _ in 0..PLACES {
            queues.push(RankQueue::new(alloc))?;
        }
        Ok(RankQueues { queues })
    }

    /// The rank's queue.
    pub fn queue_at(&self, rank: u64) -> &RankQueue
        ensures { result.now ≡ rows_at place_of self.now (place_of rank) }
    {
        &self.queues[place_of(rank)]
    }

    pub fn get(&self, rank: u64) -> Option<()>
        ensures { result ≡ map.get self.now rank }
    {
        self.queues[place_of(rank)].get(rank)
    }

    /// Inserts the rank, and returns what was there. Only an insertion can be refused memory.
    pub fn put(&mut self, rank: u64) -> Result<Option<()>, Memory>
        ensures value { IfOk result (λ was. was ≡ map.get self.old rank) }
        ensures ok { OnOk result (self.new ≡ map.insert self.old rank tt) }
        ensures err { OnErr result (self.new ≡ self.old) }
        ensures new { OnErr result (map.get self.old rank ≡ None) }
    {
        let n = place_of(rank);
        let queue = &mut self.queues[n];
        queue.put(rank)
    }

    /// Removes the rank, and returns what was there.
    pub fn remove(&mut self, rank: u64) -> Option<()>
        ensures value { result ≡ map.get self.old rank }
        ensures after { self.new ≡ map.remove self.old rank }
    {
        let n = place_of(rank);
        self.queues[n].remove(rank)
    }
}
