//! A table for each district of each warehouse: a district's new rows go to the end of its table.
ghost use Rattle.std.specs.Prelude.{◌≡◌, ◌<◌, IfOk, None, OnErr, OnOk, cond, is_some, option_copied, option_map, slice_get, unwrap_or};
ghost use Rattle.std.specs.FinMap as map;
ghost use Rattle.tables.specs.Shelves.{place_of, rows_at};
ghost use Rattle.tables.specs.declared.keys.TheConstants.{PLACES};

use crate::keys::PLACES;
use crate::table::Table;
use std::alloc::Global;
use std::marker::Model;
use tpcc_rows::memory::Memory;

/// The place of a rank's table: its warehouse's and district's.
pub(crate) fn place_of(rank: u64) -> usize
    ensures value { result ≡ place_of rank }
    ensures below { result < PLACES }
{
    (rank / 268_435_456 % PLACES as u64) as usize
}

/// A finite map from ranks to rows, each in the table of its district.
#[derive(Drop)]
pub struct Shelf<R> {
    tables: Vec<Table<R>>,
}

impl<R> Model for Shelf<R> {
    ghost use Rattle.tables.specs.ByRank.{ByRank, by_rank_code};
    ghost use Rattle.tables.specs.Shelves.{IsShelf, place_of, union};
    ghost use Rattle.tables.specs.declared.keys.TheConstants.{PLACES};

    ghost Value = { ByRank R };

    ghost coded = { by_rank_code R.code };

    ghost view = { λ s. union s.tables.items };

    ghost invariant = { λ s. IsShelf PLACES place_of s.tables.items };
}

impl<R> Shelf<R> {
    pub fn get(&self, rank: u64) -> Option<&R>
        ensures { option_copied result ≡ map.get self.now rank }
    {
        self.tables[place_of(rank)].get(rank)
    }

    /// The same, with a hint at the rank's place in its table.
    pub fn get_near(&self, rank: u64, place: usize) -> Option<&R>
        ensures { option_copied result ≡ map.get self.now rank }
    {
        self.tables[place_of(rank)].get_near(rank, place)
    }

    /// Exchanges the rank's row for this one, and returns true; or returns false if it has none.
    pub fn swap(&mut self, rank: u64, row: &mut R) -> bool
        ensures found { result ≡ is_some (map.get self.old rank) }
        ensures row { row.new ≡ unwrap_or (map.get self.old rank) row.old }
        ensures after { self.new ≡ cond result (map.insert self.old rank row.old) self.old }
    {
        let n = place_of(rank);
        self.tables[n].swap(rank, row)
    }

    /// The same, with a hint at the rank's place in its table.
    pub fn swap_near(&mut self, rank: u64, row: &mut R, expected: usize) -> bool
        ensures found { result ≡ is_some (map.get self.old rank) }
        ensures row { row.new ≡ unwrap_or (map.get self.old rank) row.old }
        ensures after { self.new ≡ cond result (map.insert self.old rank row.old) self.old }
    {
        let n = place_of(rank);
        self.tables[n].swap_near(rank, row, expected)
    }

    /// The row at a place of the rank's table, whatever its rank. It isn't read yet.
    pub fn row_at(&self, rank: u64, place: usize) -> Option<&R>
        ensures { option_copied result ≡ option_map (λ entry. entry.1) (slice_get (map.entries (rows_at place_of self.now (place_of rank))) place) }
    {
        match self.slice_at(rank).get(place) {
            Some((_, row)) => Some(row),
            None => None,
        }
    }

    /// The row where the rank's is expected, which may be another's: a hint, on which nothing relies. It isn't read yet.
    pub fn expected(&self, rank: u64) -> Option<&R> {
        self.tables[place_of(rank)].expected(rank)
    }

    /// The rank's table.
    pub fn table_at(&self, rank: u64) -> &Table<R>
        ensures { result.now ≡ rows_at place_of self.now (place_of rank) }
    {
        &self.tables[place_of(rank)]
    }

    /// The rows of the rank's table with their ranks, in ascending rank.
    pub fn slice_at(&self, rank: u64) -> &[(u64, R)]
        ensures { result.now ≡ map.entries (rows_at place_of self.now (place_of rank)) }
    {
        self.table_at(rank).as_slice()
    }

    /// The number of rows of the rank's table.
    pub fn len_at(&self, rank: u64) -> usize {
        self.tables[place_of(rank)].len()
    }
}

impl<R: Drop> Shelf<R> {
    /// An empty table for each district.
    pub fn new(alloc: Global) -> Result<Shelf<R>, Memory>
        ensures { IfOk result (λ shelf. shelf ≡ map.empty) }
    {
        let mut tables = Vec::with_capacity(alloc, PLACES)?;
        for _ in 0..PLACES {
            tables.push(Table::new(alloc))?;
        }
        Ok(Shelf { tables })
    }

    /// Inserts or replaces the rank's row, and returns the old one. Only an insertion can be refused memory.
    pub fn put(&mut self, rank: u64, row: R) -> Result<Option<R>, Memory>
        ensures value { IfOk result (λ was. was ≡ map.get self.old rank) }
        ensures ok { OnOk result (self.new ≡ map.insert self.old rank row) }
        ensures err { OnErr result (self.new ≡ self.old) }
        ensures new { OnErr result (map.get self.old rank ≡ None) }
    {
        let n = place_of(rank);
        let table = &mut self.tables[n];
        table.put(rank, row)
    }

    /// The same, with a hint at the rank's place in its table.
    pub fn put_near(&mut self, rank: u64, row: R, expected: usize) -> Result<Option<R>, Memory>
        ensures value { IfOk result (λ was. was ≡ map.get self.old rank) }
        ensures ok { OnOk result (self.new ≡ map.insert self.old rank row) }
        ensures err { OnErr result (self.new ≡ self.old) }
        ensures new { OnErr result (map.get self.old rank ≡ None) }
    {
        let n = place_of(rank);
        let table = &mut self.tables[n];
        table.put_near(rank, row, expected)
    }

    /// Removes the rank's row, and returns it.
    pub fn remove(&mut self, rank: u64) -> Option<R>
        ensures value { result ≡ map.get self.old rank }
        ensures after { self.new ≡ map.remove self.old rank }
    {
        let n = place_of(rank);
        self.tables[n].remove(rank)
    }
}
