//! A log of what keys had, by which changes are taken back.
ghost use Rattle.std.specs.Prelude.{◌≡◌, ◌<◌, ◌≤◌, ◌+◌, ◌^◌, ◌++◌, ◌∷◌, [], IfOk, OnErr, OnOk, cond, is_some, length, option_map, vec_capacity, vec_len, true};
ghost use Rattle.std.specs.FinMap as map;
ghost use Rattle.std.specs.List.{list_all};
ghost use Rattle.serializability.specs.Changes.{changed};
ghost use Rattle.tpcc_rows.specs.Changing.{change_fits};
ghost use Rattle.tpcc_rows.specs.Leaves.{leaf};
ghost use Rattle.tpcc_rows.specs.RowKinds.{fits};
ghost use Rattle.rollback.specs.Marks.{HasAlso};
ghost use Rattle.pointed_tables.specs.Bounds.{IsLowered};
ghost use Rattle.pointed_tables.specs.Logs.{AreMade, AreWithin, IsBounded, IsExchanged, IsLogOf, IsReplaced, IsSame, IsStep, KeepsOthers, LeadBack, undone};
ghost use Rattle.pointed_tables.specs.Returns.{may_bring_back};

use crate::bounds::Bounds;
use crate::roomy::RoomyTables;
use rollback::Dirty;
use row_tables::table_row::TableRow;
use std::alloc::Global;
use std::default::MadeWith;
use tpcc_rows::codes::leaf;
use tpcc_rows::key::RowKey;
use tpcc_rows::memory::Memory;
use tpcc_rows::row::Row;

/// What keys had before each of some changes, the oldest first, and how many of the changes were removals.
#[derive(Drop)]
pub struct Log {
    olds: Vec<(RowKey, Option<Row>)>,
    removals: usize,
    /// Which rows are not among the old ones.
    bounds: Bounds,
}

impl Log {
    /// No changes.
    pub(crate) fn new(alloc: Global) -> Log
        ensures olds { result.olds.items ≡ [] }
        ensures removals { result.removals ≡ 0 }
    {
        Log {
            olds: Vec::new(alloc),
            removals: 0,
            bounds: Bounds::new(alloc),
        }
    }

    /// No changes, in the memory of these.
    pub(crate) fn emptied(mut self) -> Log
        ensures olds { result.olds.items ≡ [] }
        ensures removals { result.removals ≡ 0 }
    {
        self.olds.clear();
        self.removals = 0;
        self
    }

    /// How many of the changes were removals.
    pub(crate) fn removals(&self) -> usize
        ensures { result ≡ self.now.removals }
    {
        self.removals
    }

    /// What the keys had.
    pub(crate) fn as_slice(&self) -> &[(RowKey, Option<Row>)] {
        self.olds.as_slice()
    }

    /// Whether the key may have had a row.
    pub(crate) fn may_bring_back(&self, key: &RowKey) -> bool
        ensures { result ≡ may_bring_back key.now self.now }
    {
        self.bounds.may_be_noted(key)
    }

    /// Makes room for so many changes more.
    fn prepare(&mut self, count: usize) -> Result<(), Memory>
        ensures room { OnOk result (vec_len self.new.olds + count ≤ vec_capacity self.new.olds) }
        ensures few { OnOk result (self.new.removals + count < 2 ^ 64) }
        ensures same { IsSame self.old self.new }
    {
        if self.removals.checked_add(count).is_none() {
            return Err(Memory);
        }
        if self.olds.is_empty() {
            self.bounds.begin()?;
        }
        self.olds.reserve(count)?;
        Ok(())
    }

    /// Adds what keys had before later changes, for which there is room and within the bounds, with the number of removals.
    fn append(&mut self, mut later: Vec<(RowKey, Option<Row>)>, removals: usize)
        requires room { vec_len self.old.olds + vec_len later ≤ vec_capacity self.old.olds }
        requires few { self.old.removals + removals < 2 ^ 64 }
        ensures olds { self.new.olds.items ≡ self.old.olds.items ++ later.items }
        ensures removals { self.new.removals ≡ self.old.removals + removals }
        ensures bounds { self.new.bounds ≡ self.old.bounds }
    {
        let _ = self.olds.append(&mut later);
        self.removals += removals;
    }

    /// Adds what a key had, for which there is room, before a change that removed so many rows.
    fn note(&mut self, was: (RowKey, Option<Row>), removed: usize)
        requires room { vec_len self.old.olds + 1 ≤ vec_capacity self.old.olds }
        requires few { self.old.removals + removed < 2 ^ 64 }
        ensures olds { self.new.olds.items ≡ self.old.olds.items ++ was ∷ [] }
        ensures removals { self.new.removals ≡ self.old.removals + removed }
        ensures bounded { IsBounded self.old → IsBounded self.new }
    {
        self.bounds.note(&was);
        self.olds.push_reserved(was);
        self.removals += removed;
    }
}

impl MadeWith<Global> for Log {
    fn made_with(alloc: Global) -> Log {
        Log::new(alloc)
    }
}

/// How many rows a change removed, whose key had this row.
fn rows_removed(is_removal: bool, was: &Option<Row>) -> usize
    ensures { result ≡ cond is_removal (cond (is_some was.now) 1 0) 0 }
{
    usize::from(is_removal && was.is_some())
}

/// Gives the key its row, or none, in exchange for what it had; its leaf is dirty from now on. Returns how many rows were removed.
pub(crate) fn exchange(
    store: &mut RoomyTables,
    dirty: &mut Dirty,
    change: &mut (RowKey, Option<Row>),
) -> Result<usize, Memory>
    requires { change_fits change.old ≡ true }
    ensures made { IfOk result (λ removed. IsExchanged change.old change.new store.old.rows store.new.rows removed) }
    ensures room { IfOk result (λ removed. (store.new.room ≡ store.old.room + removed) × (removed ≤ 1)) }
    ensures dirty { OnOk result (HasAlso dirty.old (leaf change.old.0) dirty.new) }
    ensures err { OnErr result (store.new ≡ store.old) }
    ensures same { OnErr result (dirty.new ≡ dirty.old) }
{
    let (key, row) = change;
    let is_removal = row.is_none();
    store.exchange(key, row)?;
    dirty.add(leaf(key));
    Ok(rows_removed(is_removal, row))
}

/// Makes the changes, or the first of them if memory is refused, and lowers the bounds to what the keys had. Returns that, with the
/// number of removals. Their leaves are dirty from now on.
pub(crate) fn exchange_all(
    store: &mut RoomyTables,
    dirty: &mut Dirty,
    changes: Vec<(RowKey, Option<Row>)>,
    bounds: &mut Bounds,
) -> (Vec<(RowKey, Option<Row>)>, usize)
    requires { list_all change_fits changes.items ≡ true }
    ensures made { AreMade changes.items (length result.0.items) store.old.rows store.new.rows dirty.old dirty.new }
    ensures back { LeadBack result.0.items result.1 store.old.rows store.new.rows }
    ensures room { store.new.room ≡ store.old.room + result.1 }
    ensures few { result.1 ≤ length result.0.items }
    ensures within { AreWithin bounds.new result.0.items }
    ensures lowered { IsLowered bounds.old bounds.new }
{
    let mut olds = changes;
    let mut removals = 0;
    for n in 0..olds.len() {
        match exchange(store, dirty, &mut olds[n]) {
            Ok(removed) => {
                removals += removed;
                bounds.note(&olds[n]);
            }
            Err(Memory) => {
                olds.truncate(n);
                return (olds, removals);
            }
        }
    }
    (olds, removals)
}

/// Makes the changes, or the first of them if memory is refused, and notes what the keys had. Returns how many were made.
pub(crate) fn exchange_noting(
    store: &mut RoomyTables,
    dirty: &mut Dirty,
    changes: Vec<(RowKey, Option<Row>)>,
    log: &mut Log,
) -> usize
    requires { list_all change_fits changes.items ≡ true }
    ensures made { AreMade changes.items result store.old.rows store.new.rows dirty.old dirty.new }
    ensures step { IsStep log.old log.new store.old.rows store.new.rows }
    ensures room { log.new.removals + store.old.room ≡ log.old.removals + store.new.room }
{
    if log.prepare(changes.len()).is_err() {
        return 0;
    }
    let (later, removals) = exchange_all(store, dirty, changes, &mut log.bounds);
    let made = later.len();
    log.append(later, removals);
    made
}

/// Gives the key its row, or none, and notes what it had; its leaf is dirty from now on.
pub(crate) fn change_noting(
    store: &mut RoomyTables,
    dirty: &mut Dirty,
    change: (RowKey, Option<Row>),
    log: &mut Log,
) -> Result<(), Memory>
    requires { change_fits change ≡ true }
    ensures ok { OnOk result (store.new.rows ≡ changed store.old.rows change.0 change.1) }
    ensures dirty { OnOk result (HasAlso dirty.old (leaf change.0) dirty.new) }
    ensures err { OnErr result (store.new ≡ store.old) }
    ensures same { OnErr result (dirty.new ≡ dirty.old) }
    ensures step { IsStep log.old log.new store.old.rows store.new.rows }
    ensures room { log.new.removals + store.old.room ≡ log.old.removals + store.new.room }
{
    let mut change = change;
    log.prepare(1)?;
    let removed = exchange(store, dirty, &mut change)?;
    log.note(change, removed);
    Ok(())
}

/// Puts the row, of whose kind it is, in the place of the key's, and notes the old one. Returns it if the key has none, or if rows
/// stand aside.
pub(crate) fn replace_noting<R: TableRow>(
    store: &mut RoomyTables,
    key: &RowKey,
    row: R,
    log: &mut Log,
) -> Result<Option<R>, Memory>
    requires { fits key.now (R.row_of row) ≡ true }
    ensures ok { IfOk result (λ back. IsReplaced key.now (R.row_of row) (option_map R.row_of back) store.old.rows store.new.rows) }
    ensures err { OnErr result (store.new ≡ store.old) }
    ensures step { IsStep log.old log.new store.old.rows store.new.rows }
    ensures room { log.new.removals + store.old.room ≡ log.old.removals + store.new.room }
{
    let mut row = row;
    log.prepare(1)?;
    if !store.swap_row(key, &mut row) {
        return Ok(Some(row));
    }
    log.note((*key, Some(row.into_row())), 0);
    Ok(None)
}

/// Inserts or replaces the key's row, of whose kind it is, and notes what the key had.
pub(crate) fn put_noting<R: TableRow>(
    store: &mut RoomyTables,
    key: &RowKey,
    row: R,
    log: &mut Log,
) -> Result<(), Memory>
    requires { fits key.now (R.row_of row) ≡ true }
    ensures ok { OnOk result (store.new.rows ≡ map.insert store.old.rows key.now (R.row_of row)) }
    ensures err { OnErr result (store.new ≡ store.old) }
    ensures step { IsStep log.old log.new store.old.rows store.new.rows }
    ensures room { log.new.removals + store.old.room ≡ log.old.removals + store.new.room }
{
    log.prepare(1)?;
    let was = store.put_row(key, row)?;
    log.note((*key, was), 0);
    Ok(())
}

/// Takes the changes of the log back, the newest first, without allocating. Their leaves are dirty from now on.
pub(crate) fn undo_all(store: &mut RoomyTables, dirty: &mut Dirty, log: Log)
    requires log { IsLogOf log store.old.rows }
    requires room { log.removals ≤ store.old.room }
    ensures rows { store.new.rows ≡ undone log.olds.items store.old.rows }
    ensures room { store.new.room + log.removals ≡ store.old.room }
    ensures clean { KeepsOthers dirty.old dirty.new store.old.rows store.new.rows }
{
    let Log { mut olds, .. } = log;
    while let Some((key, row)) = olds.pop() {
        dirty.add(leaf(&key));
        store.undo(key, row);
    }
}
