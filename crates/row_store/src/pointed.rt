//! Rows in tables and by leaf, the points to which they can go back, and the leaves on which they have changed.
ghost use Rattle.std.specs.Prelude.{◌≡◌, ◌<◌, ◌≤◌, ◌+◌, ◌↔◌, [], ◌∷◌, ◌++◌, take, drop, IfOk, IfSome, IsErr, Some, OnOk, OnErr, is_some, length, option_map, slice_get, true};
ghost use Rattle.std.specs.FinMap as map;
ghost use Rattle.serializability.specs.Changes.{changed};
ghost use Rattle.rollback.specs.Marks.{AreClean, HasAlso, HasAlsoThose};
ghost use Rattle.rollback.specs.Pointed.{KeepsCleanLeaves};
ghost use Rattle.row_store.specs.Leaves.{AreLeaves, AreListed, AreNewListed, AreRanks, IsListed, without_oldest};
ghost use Rattle.row_store.specs.Slots.{filled, slots};
ghost use Rattle.tpcc_rows.specs.Changing.{IsMadeInPart, after, new_row_fits};
ghost use Rattle.tpcc_rows.specs.Leaves.{leaf, page_rows};
ghost use Rattle.tpcc_rows.specs.Ranks.{IsNumbered, rank};
ghost use Rattle.tpcc_rows.specs.References.{row_of};
ghost use Rattle.tpcc_rows.specs.RowKinds.{fits};
ghost use Rattle.tpcc_rows.specs.declared.key.RowKey.{RowKey};

use crate::leaf_page::LeafPage;
use pointed_tables::PointedTables;
use pointed_tables::roomy::RoomyTables;
use rollback::{Dirty, NoSuchPoint, POINTS, PointsFull};
use row_tables::boxed::boxed;
use row_tables::store::RowTables;
use row_tables::table_row::TableRow;
use std::alloc::Global;
use std::marker::Model;
use tables::leaves::Leaves;
use tpcc_rows::codes::{LEAVES, leaf};
use tpcc_rows::delta::Delta;
use tpcc_rows::id::{ItemId, WarehouseId};
use tpcc_rows::key::RowKey;
use tpcc_rows::memory::Memory;
use tpcc_rows::ranks::{rank, stock_rank};
use tpcc_rows::row::Row;
use tpcc_rows::row_ref::RowRef;

/// Rows, points to which they can go back, and the set of the leaves on which they have changed since it was last taken.
#[derive(Drop)]
pub struct PointedStore {
    /// Boxed, so that a store is small to move, and who holds one needn't be proved to drop each table.
    tables: Box<PointedTables>,
    /// The rank of each key that has a row, or had one at a point, so that a row comes back without memory. That of a new order which
    /// no point can bring back goes when the last point at which it had a row does. Others stay.
    leaves: Leaves,
    /// A sum over what was prefetched. It has no meaning, but keeps a compiler from leaving the reads out.
    prefetched: usize,
}

impl Model for PointedStore {
    ghost use Rattle.rollback.specs.Pointed.{Pointed, pointed_code};
    ghost use Rattle.row_store.specs.Leaves.{AreLeaves};

    ghost Value = { Pointed };

    ghost coded = { pointed_code };

    ghost view = { λ s. s.tables.value };

    ghost invariant = { λ s. AreLeaves s.leaves s.tables.value };
}

/// The rank of a key, and its leaf.
fn place_of(key: &RowKey) -> (usize, u64)
    ensures leaf { result.0 ≡ leaf key.now }
    ensures below { result.0 < LEAVES }
    ensures rank { result.1 ≡ rank key.now }
    ensures limits { IsNumbered key.now }
{
    (leaf(key), rank(key))
}

/// Lists the key's rank.
fn list(leaves: &mut Leaves, key: &RowKey) -> Result<(), Memory>
    ensures ok { OnOk result (leaves.new ≡ map.insert leaves.old (rank key.now) tt) }
    ensures err { OnErr result (leaves.new ≡ leaves.old) }
    ensures limits { IsNumbered key.now }
{
    let (leaf, rank) = place_of(key);
    leaves.put(leaf, rank)
}

/// Whether rows of the key's kind are inserted by requests.
fn is_often_new(key: &RowKey) -> bool {
    matches!(
        key,
        RowKey::Order { .. }
            | RowKey::NewOrder { .. }
            | RowKey::OrderLine { .. }
            | RowKey::History { .. }
    )
}

/// Lists the key's rank, if the key gets a row and may have none. Listing it again changes nothing.
fn list_new(
    leaves: &mut Leaves,
    tables: &PointedTables,
    key: &RowKey,
    new_row: &Option<Row>,
) -> Result<(), Memory>
    ensures kept { AreLeaves leaves.old tables.now → AreLeaves leaves.new tables.now }
    ensures ok { OnOk result (AreLeaves leaves.old tables.now → is_some new_row.now ≡ true → IsListed leaves.new key.now) }
    ensures others { (k : RowKey) → IsListed leaves.old k → IsListed leaves.new k }
{
    if new_row.is_none() {
        return Ok(());
    }
    if !is_often_new(key) && tables.rows().get(key).is_some() {
        return Ok(());
    }
    list(leaves, key)
}

/// Lists the ranks of the keys that get a row and may have none.
fn list_all_new(
    leaves: &mut Leaves,
    tables: &PointedTables,
    changes: &[(RowKey, Option<Row>)],
) -> Result<(), Memory>
    ensures kept { AreLeaves leaves.old tables.now → AreLeaves leaves.new tables.now }
    ensures ok { OnOk result (AreLeaves leaves.old tables.now → AreNewListed leaves.new changes.now) }
{
    for n in 0..changes.len() {
        let (key, new_row) = &changes[n];
        list_new(leaves, tables, key, new_row)?;
    }
    Ok(())
}

/// Removes the key's rank.
fn unlist(leaves: &mut Leaves, key: &RowKey)
    ensures value { leaves.new ≡ map.remove leaves.old (rank key.now) }
    ensures limits { IsNumbered key.now }
{
    let (leaf, rank) = place_of(key);
    leaves.remove(leaf, rank);
}

fn is_new_order(key: &RowKey) -> bool {
    matches!(key, RowKey::NewOrder { .. })
}

/// Removes the ranks of the new orders that the oldest point alone can bring back.
fn unlist_gone(leaves: &mut Leaves, tables: &PointedTables)
    ensures { AreLeaves leaves.old tables.now → AreLeaves leaves.new (without_oldest tables.now) }
{
    let changes = tables.oldest_changes();
    for n in 0..changes.len() {
        let (key, was) = &changes[n];
        if is_new_order(key) && was.is_some() && tables.is_gone(key) {
            unlist(leaves, key);
        }
    }
}

/// Reads the middle and the end of a list, where a search begins. The result has no meaning.
fn read_list(ranks: &[(u64, ())]) -> usize {
    let mut sum = 0usize;
    if let Some((rank, _)) = ranks.last() {
        sum = sum.wrapping_add(*rank as usize);
    }
    if let Some((rank, _)) = ranks.get(ranks.len() / 2) {
        sum = sum.wrapping_add(*rank as usize);
    }
    sum
}

/// Reads the lists where the ranks of changed keys may be inserted. The result has no meaning.
fn read_lists(leaves: &Leaves, changes: &[(RowKey, Option<Row>)]) -> usize {
    let mut sum = 0usize;
    for n in 0..changes.len() {
        let (key, _) = &changes[n];
        if is_often_new(key) {
            sum = sum.wrapping_add(read_list(leaves.ranks(leaf(key))));
        }
    }
    sum
}

/// The ranks of some rows, by leaf.
fn leaves_of(alloc: Global, tables: &RowTables) -> Result<Leaves, Memory>
    ensures keys { IfOk result (λ leaves. AreRanks leaves) }
    ensures listed { IfOk result (λ leaves. AreListed leaves tables.now) }
{
    let mut leaves = Leaves::new(alloc)?;
    let mut walk = tables.walk();
    while let Some((key, _)) = walk.next() {
        list(&mut leaves, &key)?;
    }
    Ok(leaves)
}

impl PointedStore {
    /// No rows; there is no point, and no leaf is dirty.
    pub fn new(alloc: Global) -> Result<PointedStore, Memory>
        ensures rows { IfOk result (λ store. store.rows ≡ map.empty) }
        ensures points { IfOk result (λ store. store.points ≡ []) }
        ensures clean { IfOk result (λ store. AreClean store.dirty) }
    {
        PointedStore::from_tables(alloc, boxed(alloc, RowTables::new(alloc)?)?)
    }

    /// The rows of tables; there is no point, and no leaf is dirty.
    pub fn from_tables(alloc: Global, tables: Box<RowTables>) -> Result<PointedStore, Memory>
        ensures rows { IfOk result (λ store. store.rows ≡ tables.value) }
        ensures points { IfOk result (λ store. store.points ≡ []) }
        ensures clean { IfOk result (λ store. AreClean store.dirty) }
    {
        let leaves = leaves_of(alloc, &tables)?;
        let pointed = PointedTables::new(alloc, Box::into_inner(tables));
        Ok(PointedStore {
            tables: boxed(alloc, pointed)?,
            leaves,
            prefetched: 0,
        })
    }

    /// The present rows.
    pub fn rows(&self) -> &RoomyTables
        ensures { result.now.rows ≡ self.now.rows }
    {
        self.tables.rows()
    }

    pub fn get(&self, key: &RowKey) -> Option<RowRef<'_>>
        ensures value { option_map row_of result ≡ map.get self.now.rows key.now }
        ensures kind { IfSome (option_map row_of result) (λ row. fits key.now row ≡ true) }
    {
        self.rows().get(key)
    }

    /// A number of no meaning. Computing it reads where the row of a stock is expected, so that reading it needn't wait for memory.
    pub fn prefetch_stock(&self, warehouse: WarehouseId, item: ItemId) -> usize {
        match self.rows().expected(stock_rank(warehouse, item)) {
            Some(RowRef::Stock(row)) => row.ytd.value() as usize,
            _ => 0,
        }
    }

    /// The number of rows.
    pub fn len(&self) -> u128
        ensures { result ≡ length (map.entries self.now.rows) }
    {
        self.rows().len()
    }

    /// The rows of a leaf.
    pub fn page(&self, leaf: usize) -> LeafPage<'_>
        requires { leaf < LEAVES }
        ensures { filled (slots result) ≡ map.entries (page_rows self.now.rows leaf) }
    {
        LeafPage {
            tables: self.rows(),
            ranks: self.leaves.ranks(leaf),
        }
    }

    /// Inserts or replaces the key's row; its leaf is dirty from now on.
    pub fn put(&mut self, key: RowKey, row: Row) -> Result<(), Memory>
        requires { fits key row ≡ true }
        ensures rows { OnOk result (self.new.rows ≡ map.insert self.old.rows key row) }
        ensures dirty { OnOk result (HasAlso self.old.dirty (leaf key) self.new.dirty) }
        ensures points { self.new.points ≡ self.old.points }
        ensures err { OnErr result (self.new ≡ self.old) }
        ensures clean { KeepsCleanLeaves self.old self.new }
    {
        self.change(key, Some(row))
    }

    /// Inserts or replaces the key's row, of whose kind it is, in its place; its leaf is dirty from now on.
    pub fn put_row<R: TableRow>(&mut self, key: &RowKey, row: R) -> Result<(), Memory>
        requires { fits key.now (R.row_of row) ≡ true }
        ensures rows { OnOk result (self.new.rows ≡ map.insert self.old.rows key.now (R.row_of row)) }
        ensures dirty { OnOk result (HasAlso self.old.dirty (leaf key.now) self.new.dirty) }
        ensures points { self.new.points ≡ self.old.points }
        ensures err { OnErr result (self.new ≡ self.old) }
        ensures clean { KeepsCleanLeaves self.old self.new }
    {
        match self.tables.replace_row(key, row)? {
            Some(row) => self.put_new_row(key, row),
            None => Ok(()),
        }
    }

    /// Inserts or replaces the key's row, of whose kind it is; its leaf is dirty from now on. It is quicker than `put_row` where the key
    /// has no row.
    pub fn put_new_row<R: TableRow>(&mut self, key: &RowKey, row: R) -> Result<(), Memory>
        requires { fits key.now (R.row_of row) ≡ true }
        ensures rows { OnOk result (self.new.rows ≡ map.insert self.old.rows key.now (R.row_of row)) }
        ensures dirty { OnOk result (HasAlso self.old.dirty (leaf key.now) self.new.dirty) }
        ensures points { self.new.points ≡ self.old.points }
        ensures err { OnErr result (self.new ≡ self.old) }
        ensures clean { KeepsCleanLeaves self.old self.new }
    {
        list(&mut self.leaves, key)?;
        self.tables.put_row(key, row)
    }

    /// Removes the key's row, and returns it; its leaf is dirty from now on.
    pub fn remove(&mut self, key: &RowKey) -> Result<Option<Row>, Memory>
        ensures value { IfOk result (λ row. row ≡ map.get self.old.rows key.now) }
        ensures rows { OnOk result (self.new.rows ≡ map.remove self.old.rows key.now) }
        ensures dirty { OnOk result (HasAlso self.old.dirty (leaf key.now) self.new.dirty) }
        ensures points { self.new.points ≡ self.old.points }
        ensures err { OnErr result (self.new ≡ self.old) }
        ensures clean { KeepsCleanLeaves self.old self.new }
    {
        self.tables.remove(key)
    }

    /// Reads where the rank of a key is listed, so that listing it needn't wait for memory.
    pub fn prefetch_list(&mut self, key: &RowKey)
        ensures { self.new ≡ self.old }
    {
        let sum = read_list(self.leaves.ranks(leaf(key)));
        self.prefetched = self.prefetched.wrapping_add(sum);
    }

    /// Reads where the ranks of changed keys are listed, so that listing them needn't wait for memory.
    fn prefetch(&mut self, delta: &Delta)
        ensures { self.new ≡ self.old }
    {
        let sum = read_lists(&self.leaves, delta.as_slice());
        self.prefetched = self.prefetched.wrapping_add(sum);
    }

    fn change(&mut self, key: RowKey, new_row: Option<Row>) -> Result<(), Memory>
        requires { new_row_fits key new_row ≡ true }
        ensures rows { OnOk result (self.new.rows ≡ changed self.old.rows key new_row) }
        ensures dirty { OnOk result (HasAlso self.old.dirty (leaf key) self.new.dirty) }
        ensures points { self.new.points ≡ self.old.points }
        ensures err { OnErr result (self.new ≡ self.old) }
        ensures clean { KeepsCleanLeaves self.old self.new }
    {
        list_new(&mut self.leaves, &self.tables, &key, &new_row)?;
        self.tables.change(key, new_row)
    }

    /// Makes the changes, whose rows are moved. After a refusal a prefix of them, in key order, is made.
    #[tactic(auto, unfolding(tpcc_rows::specs::Changing::after))]
    pub fn apply(&mut self, delta: Delta) -> Result<(), Memory>
        ensures ok { OnOk result (self.new.rows ≡ after self.old.rows delta) }
        ensures err { OnErr result (IsMadeInPart self.old.rows self.new.rows delta) }
        ensures dirty { OnOk result (HasAlsoThose self.old.dirty delta self.new.dirty) }
        ensures points { self.new.points ≡ self.old.points }
        ensures clean { KeepsCleanLeaves self.old self.new }
    {
        self.prefetch(&delta);
        list_all_new(&mut self.leaves, &self.tables, delta.as_slice())?;
        self.tables.apply(delta)
    }

    /// The dirty leaves, of which there are none from now on.
    pub fn take_dirty(&mut self) -> Dirty
        ensures taken { result ≡ self.old.dirty }
        ensures clean { AreClean self.new.dirty }
        ensures rows { self.new.rows ≡ self.old.rows }
        ensures points { self.new.points ≡ self.old.points }
    {
        self.tables.take_dirty()
    }

    /// The number of points.
    pub fn points(&self) -> usize
        ensures value { result ≡ length self.now.points }
        ensures few { result ≤ POINTS }
    {
        self.tables.points()
    }

    /// The present rows become the newest point, without allocating.
    pub fn mark(&mut self) -> Result<(), PointsFull>
        ensures points { OnOk result (self.new.points ≡ self.old.points ++ self.old.rows ∷ []) }
        ensures full { IsErr result ↔ (POINTS ≤ length self.old.points) }
        ensures rows { self.new.rows ≡ self.old.rows }
        ensures dirty { self.new.dirty ≡ self.old.dirty }
        ensures err { OnErr result (self.new ≡ self.old) }
    {
        self.tables.mark()
    }

    /// Forgets the oldest point, without allocating.
    pub fn drop_oldest(&mut self) -> Result<(), NoSuchPoint>
        ensures points { OnOk result (self.new.points ≡ drop 1 self.old.points) }
        ensures none { IsErr result ↔ (self.old.points ≡ []) }
        ensures rows { self.new.rows ≡ self.old.rows }
        ensures dirty { self.new.dirty ≡ self.old.dirty }
        ensures err { OnErr result (self.new ≡ self.old) }
    {
        unlist_gone(&mut self.leaves, &self.tables);
        self.tables.drop_oldest()
    }

    /// The rows are those of the point from now on, of which the oldest is 0. It and the later ones are forgotten. Nothing is
    /// allocated.
    pub fn back_to(&mut self, point: usize) -> Result<(), NoSuchPoint>
        ensures rows { OnOk result (slice_get self.old.points point ≡ Some self.new.rows) }
        ensures points { OnOk result (self.new.points ≡ take point self.old.points) }
        ensures none { IsErr result ↔ (length self.old.points ≤ point) }
        ensures err { OnErr result (self.new ≡ self.old) }
        ensures clean { KeepsCleanLeaves self.old self.new }
    {
        self.tables.back_to(point)
    }

    /// The rows are those of the point from now on, of which the oldest is 0. The later ones are forgotten. Nothing is allocated.
    pub fn rewind(&mut self, point: usize) -> Result<(), NoSuchPoint>
        ensures rows { OnOk result (slice_get self.old.points point ≡ Some self.new.rows) }
        ensures points { OnOk result (self.new.points ≡ take (point + 1) self.old.points) }
        ensures none { IsErr result ↔ (length self.old.points ≤ point) }
        ensures err { OnErr result (self.new ≡ self.old) }
        ensures clean { KeepsCleanLeaves self.old self.new }
    {
        self.tables.rewind(point)
    }
}
