//! Rows beside tables, and room held for more.
ghost use Rattle.std.specs.Prelude.{◌≡◌, ◌<◌, ◌≤◌, ◌+◌, ◌-◌, ◌⊎◌, cond, IsTrue, OnErr, OnOk, is_some, length, option_copied, true, vec_capacity, vec_len};
ghost use Rattle.std.specs.FinMap as map;
ghost use Rattle.std.specs.List.{HoldsAt, insert, remove, slice_set};
ghost use Rattle.tpcc_rows.specs.Places.{IsPlaceOf, are_in_order};
ghost use Rattle.tpcc_rows.specs.RowMap.{row_key_cmp};

use std::alloc::Global;
use std::marker::Model;
use std::mem;
use tpcc_rows::key::RowKey;
use tpcc_rows::memory::Memory;
use tpcc_rows::row::Row;

/// A finite map from keys to rows, and for how many more rows there is room.
#[derive(Drop)]
pub struct Aside {
    rows: Vec<(RowKey, Row)>,
    room: usize,
}

impl Model for Aside {
    ghost use Rattle.std.specs.Prelude.{vec_capacity};
    ghost use Rattle.std.specs.FinMap as map;
    ghost use Rattle.pointed_tables.specs.Aside.{IsHeld, Roomy, roomy_code};

    ghost Value = { Roomy };

    ghost coded = { roomy_code };

    ghost view = { λ s. record { rows = map.from_sorted s.rows.items; room = s.room } };

    ghost invariant = { λ s. IsHeld s.rows.items (vec_capacity s.rows) s.room };
}

/// Where the key is, or where it would be inserted.
fn place_of(rows: &[(RowKey, Row)], key: &RowKey) -> Result<usize, usize>
    requires { are_in_order row_key_cmp rows.now ≡ true }
    ensures { IsPlaceOf row_key_cmp key.now rows.now result }
{
    rows.binary_search_by(|entry| entry.0.cmp(key))
}

/// Replaces the entry at the place, and returns its row.
fn replace(rows: &mut Vec<(RowKey, Row)>, place: usize, entry: (RowKey, Row)) -> Row
    requires { place < length rows.old.items }
    ensures value { HoldsAt (λ e. e.1 ≡ result) rows.old.items place }
    ensures after { rows.new.items ≡ slice_set rows.old.items place entry }
    ensures capacity { vec_capacity rows.new ≡ vec_capacity rows.old }
{
    let (_, row) = mem::replace(&mut rows[place], entry);
    row
}

/// Inserts an entry at the place, where there is room for it.
fn insert(rows: &mut Vec<(RowKey, Row)>, place: usize, entry: (RowKey, Row))
    requires place { place ≤ length rows.old.items }
    requires room { length rows.old.items < vec_capacity rows.old }
    ensures items { rows.new.items ≡ insert rows.old.items place entry }
    ensures capacity { vec_capacity rows.new ≡ vec_capacity rows.old }
{
    let _ = rows.insert(place, entry);
}

/// Removes the entry at the place, and returns its row.
fn remove(rows: &mut Vec<(RowKey, Row)>, place: usize) -> Row
    requires { place < length rows.old.items }
    ensures value { HoldsAt (λ e. e.1 ≡ result) rows.old.items place }
    ensures after { rows.new.items ≡ remove rows.old.items place }
    ensures capacity { vec_capacity rows.new ≡ vec_capacity rows.old }
    ensures fewer { length rows.new.items ≤ length rows.old.items }
{
    let (_, row) = rows.remove(place);
    row
}

impl Aside {
    /// No rows, and no room.
    pub fn new(alloc: Global) -> Aside
        ensures rows { result.rows ≡ map.empty }
        ensures room { result.room ≡ 0 }
    {
        Aside {
            rows: Vec::new(alloc),
            room: 0,
        }
    }

    /// Whether there are no rows.
    pub fn is_empty(&self) -> bool
        ensures { IsTrue result → self.now.rows ≡ map.empty }
    {
        self.rows.is_empty()
    }

    /// The rows in key order.
    pub fn as_slice(&self) -> &[(RowKey, Row)]
        ensures { result.now ≡ map.entries self.now.rows }
    {
        self.rows.as_slice()
    }

    /// The number of rows.
    pub fn len(&self) -> usize
        ensures { result ≡ length (map.entries self.now.rows) }
    {
        self.as_slice().len()
    }

    pub fn get(&self, key: &RowKey) -> Option<&Row>
        ensures { option_copied result ≡ map.get self.now.rows key.now }
    {
        match place_of(&self.rows, key) {
            Ok(place) => Some(&self.rows[place].1),
            Err(_) => None,
        }
    }

    /// Whether the key has a row.
    pub fn has(&self, key: &RowKey) -> bool
        ensures { result ≡ is_some (map.get self.now.rows key.now) }
    {
        self.get(key).is_some()
    }

    /// Holds room for one row more.
    pub fn hold(&mut self) -> Result<(), Memory>
        ensures ok { OnOk result (self.new.room ≡ self.old.room + 1) }
        ensures rows { self.new.rows ≡ self.old.rows }
        ensures err { OnErr result (self.new ≡ self.old) }
    {
        let Some(room) = self.room.checked_add(1) else {
            return Err(Memory);
        };
        self.rows.reserve(room)?;
        self.room = room;
        Ok(())
    }

    /// Holds room for so many rows fewer.
    pub fn release(&mut self, count: usize)
        ensures room { self.new.room ≡ self.old.room - count }
        ensures rows { self.new.rows ≡ self.old.rows }
    {
        self.room = self.room.saturating_sub(count);
    }

    /// Inserts or replaces the key's row, and returns the old one, without allocating. A row of a new key takes room.
    pub fn put(&mut self, key: RowKey, row: Row) -> Option<Row>
        requires { (is_some (map.get self.old.rows key) ≡ true) ⊎ (0 < self.old.room) }
        ensures value { result ≡ map.get self.old.rows key }
        ensures rows { self.new.rows ≡ map.insert self.old.rows key row }
        ensures room { self.new.room ≡ cond (is_some (map.get self.old.rows key)) self.old.room (self.old.room - 1) }
    {
        match place_of(&self.rows, &key) {
            Ok(place) => Some(replace(&mut self.rows, place, (key, row))),
            Err(place) => {
                insert(&mut self.rows, place, (key, row));
                self.room -= 1;
                None
            }
        }
    }

    /// Removes the key's row, and returns it.
    pub fn remove(&mut self, key: &RowKey) -> Option<Row>
        ensures value { result ≡ map.get self.old.rows key.now }
        ensures after { self.new.rows ≡ map.remove self.old.rows key.now }
        ensures room { self.new.room ≡ self.old.room }
    {
        match place_of(&self.rows, key) {
            Ok(place) => Some(remove(&mut self.rows, place)),
            Err(_) => None,
        }
    }
}
