//! Rows in tables, the points to which they can go back, and the leaves on which they have changed.
ghost use Rattle.std.specs.Prelude.{◌≡◌, ◌<◌, ◌≤◌, ◌+◌, ◌↔◌, [], ◌∷◌, ◌++◌, take, drop, IfOk, IsErr, None, Some, OnOk, OnErr, is_none, is_some, length, option_map, slice_get, false, true};
ghost use Rattle.std.specs.FinMap as map;
ghost use Rattle.std.specs.List.{list_all, list_any};
ghost use Rattle.serializability.specs.Changes.{changed};
ghost use Rattle.tpcc_rows.specs.Changing.{IsMadeInPart, after, change_fits, new_row_fits};
ghost use Rattle.tpcc_rows.specs.Leaves.{leaf};
ghost use Rattle.tpcc_rows.specs.RowKinds.{fits};
ghost use Rattle.rollback.specs.Marks.{AreClean, HasAlso, HasAlsoThose};
ghost use Rattle.rollback.specs.Pointed.{KeepsCleanLeaves};
ghost use Rattle.pointed_tables.specs.Logs.{AreMade, IsGone, IsPointed, IsReplaced, points_of};
ghost use Rattle.pointed_tables.specs.Returns.{may_bring_back};

use crate::bounds::Bounds;
use crate::log::{
    Log, change_noting, exchange, exchange_all, exchange_noting, put_noting, replace_noting,
    undo_all,
};
use crate::roomy::RoomyTables;
use arrayvec::ArrayVec;
use rollback::{Dirty, NoSuchPoint, POINTS, PointsFull};
use row_tables::store::RowTables;
use row_tables::table_row::TableRow;
use std::alloc::Global;
use std::marker::Model;
use std::mem;
use tpcc_rows::codes::leaf;
use tpcc_rows::delta::Delta;
use tpcc_rows::key::RowKey;
use tpcc_rows::memory::Memory;
use tpcc_rows::row::Row;

/// Rows in tables, points to which they can go back, and the set of the leaves on which they have changed since it was last
/// taken. A point is a log of what has changed since it was made and before the next one was.
#[derive(Drop)]
pub struct PointedTables {
    alloc: Global,
    store: RoomyTables,
    points: ArrayVec<Log, POINTS, Global>,
    /// Whose memory the next point's log takes over.
    spare: Log,
    dirty: Dirty,
}

impl Model for PointedTables {
    ghost use Rattle.rollback.specs.Pointed.{Pointed, pointed_code};

    ghost Value = { Pointed };

    ghost coded = { pointed_code };

    ghost use Rattle.pointed_tables.specs.Logs.{IsPointed, points_of};

    ghost view = { λ s. record { rows = s.store.rows; points = points_of s.points.items s.store.rows; dirty = s.dirty } };

    ghost invariant = { λ s. IsPointed s.points.items s.store.rows s.store.room };
}

/// Makes the changes, or the first of them if memory is refused, and notes what the keys had in the newest log, if there is one.
/// Returns how many were made.
fn exchange_noting_newest(
    alloc: Global,
    store: &mut RoomyTables,
    dirty: &mut Dirty,
    changes: Vec<(RowKey, Option<Row>)>,
    points: &mut [Log],
) -> usize
    requires { list_all change_fits changes.items ≡ true }
    ensures made { AreMade changes.items result store.old.rows store.new.rows dirty.old dirty.new }
    ensures points { points_of points.new store.new.rows ≡ points_of points.old store.old.rows }
    ensures pointed { IsPointed points.old store.old.rows store.old.room → IsPointed points.new store.new.rows store.new.room }
{
    let len = points.len();
    if len > 0 {
        return exchange_noting(store, dirty, changes, &mut points[len - 1]);
    }
    let mut bounds = Bounds::new(alloc);
    let (olds, removals) = exchange_all(store, dirty, changes, &mut bounds);
    store.release(removals);
    olds.len()
}

/// Inserts or replaces the key's row, of whose kind it is, and notes what the key had in the newest log, if there is one.
fn put_noting_newest<R: TableRow>(
    store: &mut RoomyTables,
    key: &RowKey,
    row: R,
    points: &mut [Log],
) -> Result<(), Memory>
    requires { fits key.now (R.row_of row) ≡ true }
    ensures ok { OnOk result (store.new.rows ≡ map.insert store.old.rows key.now (R.row_of row)) }
    ensures err { OnErr result (store.new ≡ store.old) }
    ensures points { points_of points.new store.new.rows ≡ points_of points.old store.old.rows }
    ensures pointed { IsPointed points.old store.old.rows store.old.room → IsPointed points.new store.new.rows store.new.room }
{
    let len = points.len();
    if len > 0 {
        return put_noting(store, key, row, &mut points[len - 1]);
    }
    store.put_row(key, row)?;
    Ok(())
}

/// Gives the key its row, or none, and notes what it had in the newest log, if there is one; its leaf is dirty from now on.
fn change_noting_newest(
    store: &mut RoomyTables,
    dirty: &mut Dirty,
    change: (RowKey, Option<Row>),
    points: &mut [Log],
) -> Result<(), Memory>
    requires { change_fits change ≡ true }
    ensures ok { OnOk result (store.new.rows ≡ changed store.old.rows change.0 change.1) }
    ensures dirty { OnOk result (HasAlso dirty.old (leaf change.0) dirty.new) }
    ensures err { OnErr result (store.new.rows ≡ store.old.rows) }
    ensures same { OnErr result (dirty.new ≡ dirty.old) }
    ensures points { points_of points.new store.new.rows ≡ points_of points.old store.old.rows }
    ensures pointed { IsPointed points.old store.old.rows store.old.room → IsPointed points.new store.new.rows store.new.room }
{
    let len = points.len();
    if len > 0 {
        return change_noting(store, dirty, change, &mut points[len - 1]);
    }
    let mut change = change;
    let removed = exchange(store, dirty, &mut change)?;
    store.release(removed);
    Ok(())
}

/// Puts the row, of whose kind it is, in the place of the key's, and notes the old one in the newest log, if there is one. Returns it
/// if the key has none, or if rows stand aside.
fn replace_noting_newest<R: TableRow>(
    store: &mut RoomyTables,
    key: &RowKey,
    row: R,
    points: &mut [Log],
) -> Result<Option<R>, Memory>
    requires { fits key.now (R.row_of row) ≡ true }
    ensures ok { IfOk result (λ back. IsReplaced key.now (R.row_of row) (option_map R.row_of back) store.old.rows store.new.rows) }
    ensures err { OnErr result (store.new.rows ≡ store.old.rows) }
    ensures points { points_of points.new store.new.rows ≡ points_of points.old store.old.rows }
    ensures pointed { IsPointed points.old store.old.rows store.old.room → IsPointed points.new store.new.rows store.new.room }
{
    let len = points.len();
    if len > 0 {
        return replace_noting(store, key, row, &mut points[len - 1]);
    }
    let mut row = row;
    if store.swap_row(key, &mut row) {
        return Ok(None);
    }
    Ok(Some(row))
}

/// Whether one of the logs may bring a row of the key back.
fn may_bring_back(logs: &[Log], key: &RowKey) -> bool
    ensures { result ≡ list_any (may_bring_back key.now) logs.now }
{
    logs.iter().any(|log| log.may_bring_back(key))
}

/// Whether it is certain that the key has no row, and that none of the logs brings one back.
fn is_gone_from(store: &RoomyTables, logs: &[Log], key: &RowKey) -> bool
    ensures present { result ≡ true → map.get store.now.rows key.now ≡ None }
    ensures noted { result ≡ true → list_any (may_bring_back key.now) logs.now ≡ false }
{
    if may_bring_back(logs, key) {
        return false;
    }
    store.get(key).is_none()
}

impl PointedTables {
    /// The rows of a store; there is no point, and no leaf is dirty.
    pub fn new(alloc: Global, tables: RowTables) -> PointedTables
        ensures rows { result.rows ≡ tables }
        ensures points { result.points ≡ [] }
        ensures clean { AreClean result.dirty }
    {
        PointedTables {
            alloc,
            store: RoomyTables::new(alloc, tables),
            points: ArrayVec::new_in(alloc),
            spare: Log::new(alloc),
            dirty: Dirty::new(),
        }
    }

    /// The present rows.
    pub fn rows(&self) -> &RoomyTables
        ensures { result.now.rows ≡ self.now.rows }
    {
        &self.store
    }

    /// Makes the changes, or the first of them if memory is refused. Returns how many were made. Their leaves are dirty from now on.
    fn make(&mut self, changes: Vec<(RowKey, Option<Row>)>) -> usize
        requires { list_all change_fits changes.items ≡ true }
        ensures made { AreMade changes.items result self.old.rows self.new.rows self.old.dirty self.new.dirty }
        ensures points { self.new.points ≡ self.old.points }
    {
        let points = self.points.as_mut_slice();
        exchange_noting_newest(
            self.alloc,
            &mut self.store,
            &mut self.dirty,
            changes,
            points,
        )
    }

    /// Gives the key this row, or none; its leaf is dirty from now on.
    pub fn change(&mut self, key: RowKey, new_row: Option<Row>) -> Result<(), Memory>
        requires { new_row_fits key new_row ≡ true }
        ensures rows { OnOk result (self.new.rows ≡ changed self.old.rows key new_row) }
        ensures dirty { OnOk result (HasAlso self.old.dirty (leaf key) self.new.dirty) }
        ensures points { self.new.points ≡ self.old.points }
        ensures err { OnErr result (self.new ≡ self.old) }
        ensures clean { KeepsCleanLeaves self.old self.new }
    {
        let points = self.points.as_mut_slice();
        change_noting_newest(&mut self.store, &mut self.dirty, (key, new_row), points)
    }

    /// Inserts or replaces the key's row, of whose kind it is; its leaf is dirty from now on.
    pub fn put_row<R: TableRow>(&mut self, key: &RowKey, row: R) -> Result<(), Memory>
        requires { fits key.now (R.row_of row) ≡ true }
        ensures rows { OnOk result (self.new.rows ≡ map.insert self.old.rows key.now (R.row_of row)) }
        ensures dirty { OnOk result (HasAlso self.old.dirty (leaf key.now) self.new.dirty) }
        ensures points { self.new.points ≡ self.old.points }
        ensures err { OnErr result (self.new ≡ self.old) }
        ensures clean { KeepsCleanLeaves self.old self.new }
    {
        let points = self.points.as_mut_slice();
        put_noting_newest(&mut self.store, key, row, points)?;
        self.dirty.add(leaf(key));
        Ok(())
    }

    /// Puts the row, of whose kind it is, in the place of the key's; its leaf is dirty from now on. Returns it if the key has none, or
    /// if rows stand aside.
    pub fn replace_row<R: TableRow>(&mut self, key: &RowKey, row: R) -> Result<Option<R>, Memory>
        requires { fits key.now (R.row_of row) ≡ true }
        ensures value { IfOk result (λ back. IsReplaced key.now (R.row_of row) (option_map R.row_of back) self.old.rows self.new.rows) }
        ensures dirty { IfOk result (λ back. is_none back ≡ true → HasAlso self.old.dirty (leaf key.now) self.new.dirty) }
        ensures same { IfOk result (λ back. is_some back ≡ true → self.new ≡ self.old) }
        ensures points { self.new.points ≡ self.old.points }
        ensures err { OnErr result (self.new ≡ self.old) }
        ensures clean { KeepsCleanLeaves self.old self.new }
    {
        let points = self.points.as_mut_slice();
        match replace_noting_newest(&mut self.store, key, row, points)? {
            Some(row) => Ok(Some(row)),
            None => {
                self.dirty.add(leaf(key));
                Ok(None)
            }
        }
    }

    /// A row equal to the key's, if it has one.
    fn copied(&self, key: &RowKey) -> Result<Option<Row>, Memory>
        ensures { IfOk result (λ row. row ≡ map.get self.now.rows key.now) }
    {
        match self.store.get(key) {
            Some(row) => Ok(Some(row.copied()?)),
            None => Ok(None),
        }
    }

    /// Removes the key's row, and returns it; its leaf is dirty from now on.
    pub fn remove(&mut self, key: &RowKey) -> Result<Option<Row>, Memory>
        ensures value { IfOk result (λ row. row ≡ map.get self.old.rows key.now) }
        ensures rows { OnOk result (self.new.rows ≡ map.remove self.old.rows key.now) }
        ensures dirty { OnOk result (HasAlso self.old.dirty (leaf key.now) self.new.dirty) }
        ensures points { self.new.points ≡ self.old.points }
        ensures err { OnErr result (self.new ≡ self.old) }
        ensures clean { KeepsCleanLeaves self.old self.new }
    {
        let was = self.copied(key)?;
        self.change(*key, None)?;
        Ok(was)
    }

    /// Makes the changes, whose rows are moved. After a refusal a prefix of them, in key order, is made.
    #[tactic(auto, unfolding(tpcc_rows::specs::Changing::after))]
    pub fn apply(&mut self, delta: Delta) -> Result<(), Memory>
        ensures ok { OnOk result (self.new.rows ≡ after self.old.rows delta) }
        ensures err { OnErr result (IsMadeInPart self.old.rows self.new.rows delta) }
        ensures dirty { OnOk result (HasAlsoThose self.old.dirty delta self.new.dirty) }
        ensures points { self.new.points ≡ self.old.points }
        ensures clean { KeepsCleanLeaves self.old self.new }
    {
        let changes = delta.into_changes();
        let count = changes.len();
        if self.make(changes) < count {
            return Err(Memory);
        }
        Ok(())
    }

    /// The dirty leaves, of which there are none from now on.
    pub fn take_dirty(&mut self) -> Dirty
        ensures taken { result ≡ self.old.dirty }
        ensures clean { AreClean self.new.dirty }
        ensures rows { self.new.rows ≡ self.old.rows }
        ensures points { self.new.points ≡ self.old.points }
    {
        self.dirty.take()
    }

    /// The number of points.
    pub fn points(&self) -> usize
        ensures value { result ≡ length self.now.points }
        ensures few { result ≤ POINTS }
    {
        self.points.len()
    }

    /// The present rows become the newest point, for which there is a place.
    fn push_point(&mut self)
        requires { length self.old.points < POINTS }
        ensures points { self.new.points ≡ self.old.points ++ self.old.rows ∷ [] }
        ensures rows { self.new.rows ≡ self.old.rows }
        ensures dirty { self.new.dirty ≡ self.old.dirty }
    {
        let spare = mem::replace(&mut self.spare, Log::new(self.alloc));
        self.points.push(spare.emptied());
    }

    /// The present rows become the newest point, without allocating.
    pub fn mark(&mut self) -> Result<(), PointsFull>
        ensures points { OnOk result (self.new.points ≡ self.old.points ++ self.old.rows ∷ []) }
        ensures full { IsErr result ↔ (POINTS ≤ length self.old.points) }
        ensures rows { self.new.rows ≡ self.old.rows }
        ensures dirty { self.new.dirty ≡ self.old.dirty }
        ensures err { OnErr result (self.new ≡ self.old) }
    {
        if self.points() >= POINTS {
            return Err(PointsFull);
        }
        self.push_point();
        Ok(())
    }

    /// The changes since the oldest point and before the next one, each as its key and what that had.
    pub fn oldest_changes(&self) -> &[(RowKey, Option<Row>)] {
        match self.points.as_slice().first() {
            Some(log) => log.as_slice(),
            None => &[],
        }
    }

    /// Whether it is certain that the key has no row, and had none at any point but the oldest. It is, of a new order that was removed
    /// before the next point, if the new orders of its district are removed in ascending order.
    pub fn is_gone(&self, key: &RowKey) -> bool
        ensures { result ≡ true → IsGone key.now self.now }
    {
        match self.points.as_slice().split_first() {
            Some((_, later)) => is_gone_from(&self.store, later, key),
            None => false,
        }
    }

    /// Forgets the oldest point, of which there is one.
    fn pop_oldest(&mut self)
        requires { 0 < length self.old.points }
        ensures points { self.new.points ≡ drop 1 self.old.points }
        ensures rows { self.new.rows ≡ self.old.rows }
        ensures dirty { self.new.dirty ≡ self.old.dirty }
    {
        let log = self.points.remove(0);
        self.store.release(log.removals());
        self.spare = log.emptied();
    }

    /// Forgets the oldest point, without allocating.
    pub fn drop_oldest(&mut self) -> Result<(), NoSuchPoint>
        ensures points { OnOk result (self.new.points ≡ drop 1 self.old.points) }
        ensures none { IsErr result ↔ (self.old.points ≡ []) }
        ensures rows { self.new.rows ≡ self.old.rows }
        ensures dirty { self.new.dirty ≡ self.old.dirty }
        ensures err { OnErr result (self.new ≡ self.old) }
    {
        if self.points() == 0 {
            return Err(NoSuchPoint);
        }
        self.pop_oldest();
        Ok(())
    }

    /// The rows are those of the point from now on. It and the later ones are forgotten.
    fn go_back(&mut self, point: usize)
        requires { point < length self.old.points }
        ensures rows { slice_get self.old.points point ≡ Some self.new.rows }
        ensures points { self.new.points ≡ take point self.old.points }
        ensures clean { KeepsCleanLeaves self.old self.new }
    {
        while self.points.len() > point {
            if let Some(log) = self.points.pop() {
                undo_all(&mut self.store, &mut self.dirty, log);
            }
        }
    }

    /// The rows are those of the point from now on, of which the oldest is 0. It and the later ones are forgotten. Nothing is
    /// allocated.
    pub fn back_to(&mut self, point: usize) -> Result<(), NoSuchPoint>
        ensures rows { OnOk result (slice_get self.old.points point ≡ Some self.new.rows) }
        ensures points { OnOk result (self.new.points ≡ take point self.old.points) }
        ensures none { IsErr result ↔ (length self.old.points ≤ point) }
        ensures err { OnErr result (self.new ≡ self.old) }
        ensures clean { KeepsCleanLeaves self.old self.new }
    {
        if point >= self.points() {
            return Err(NoSuchPoint);
        }
        self.go_back(point);
        Ok(())
    }

    /// The rows are those of the point from now on, of which the oldest is 0. The later ones are forgotten. Nothing is allocated.
    pub fn rewind(&mut self, point: usize) -> Result<(), NoSuchPoint>
        ensures rows { OnOk result (slice_get self.old.points point ≡ Some self.new.rows) }
        ensures points { OnOk result (self.new.points ≡ take (point + 1) self.old.points) }
        ensures none { IsErr result ↔ (length self.old.points ≤ point) }
        ensures err { OnErr result (self.new ≡ self.old) }
        ensures clean { KeepsCleanLeaves self.old self.new }
    {
        if self.points() <= point {
            return Err(NoSuchPoint);
        }
        self.go_back(point);
        self.push_point();
        Ok(())
    }
}
