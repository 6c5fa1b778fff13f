//! The rows of the records read so far.
ghost use Rattle.std.specs.Prelude.{◌≡◌, ◌<◌, IfOk, IsTrue, None, OnOk, is_some, true};
ghost use Rattle.std.specs.FinMap as map;
ghost use Rattle.tpcc_rows.specs.RowKinds.{fits};

use crate::joining::joined;
use crate::late_rows::LateRows;
use crate::unpaged::UnpagedRows;
use row_tables::boxed::boxed;
use row_tables::store::RowTables;
use std::alloc::Global;
use std::marker::Model;
use tpcc_rows::key::RowKey;
use tpcc_rows::memory::Memory;
use tpcc_rows::row::Row;

/// The number of kinds of rows.
const KINDS: usize = 9;

/// A finite map from keys to rows, each row of its key's kind. While the rows of a kind come in key order, as a stored image's do,
/// they go to its tables. Late ones are kept apart, and join the others after the last record.
#[derive(Drop)]
pub(crate) struct Gathered {
    /// Boxed, so that who holds it needn't be proved to drop each table.
    tables: Box<RowTables>,
    /// The last key of each kind in the tables.
    last: [Option<RowKey>; KINDS],
    late: LateRows,
}

impl Model for Gathered {
    ghost use Rattle.loader.specs.LateRows.{AreGathered, over};
    ghost use Rattle.tpcc_rows.specs.RowMap.{Rows, rows_code};

    ghost Value = { Rows };

    ghost coded = { rows_code };

    ghost view = { λ s. over s.late s.tables.value };

    ghost invariant = { λ s. AreGathered s.late s.tables.value };
}

/// The index of a key's kind.
fn kind_of(key: &RowKey) -> usize
    ensures { result < 9 }
{
    match key {
        RowKey::Warehouse { .. } => 0,
        RowKey::Customer { .. } => 1,
        RowKey::Stock { .. } => 2,
        RowKey::Order { .. } => 3,
        RowKey::NewOrder { .. } => 4,
        RowKey::OrderLine { .. } => 5,
        RowKey::History { .. } => 6,
        RowKey::DistrictYtd { .. } => 7,
        RowKey::DistrictNext { .. } => 8,
    }
}

/// Whether a key has neither a row in the tables nor a place behind the last one of its kind.
fn has_to_wait(tables: &RowTables, key: &RowKey, behind: bool) -> bool
    ensures { IsTrue result → map.get tables.now key.now ≡ None }
{
    !behind && tables.get(key).is_none()
}

impl Gathered {
    /// No rows.
    pub(crate) fn new(alloc: Global) -> Result<Gathered, Memory>
        ensures { IfOk result (λ rows. rows ≡ map.empty) }
    {
        Ok(Gathered {
            tables: boxed(alloc, RowTables::new(alloc)?)?,
            last: [None; KINDS],
            late: LateRows::new(alloc),
        })
    }

    /// Whether the key is greater than the last one of its kind in the tables: whether its row can be put behind the others.
    fn is_behind(&self, key: &RowKey) -> bool {
        match &self.last[kind_of(key)] {
            Some(last) => last.cmp(key).is_lt(),
            None => true,
        }
    }

    /// The last key of the key's kind once it has a row in the tables.
    fn last_with(&self, key: &RowKey, behind: bool) -> Option<RowKey> {
        if behind {
            return Some(*key);
        }
        self.last[kind_of(key)]
    }

    /// Puts a row under its key, and returns whether the key had one.
    pub(crate) fn put(&mut self, key: RowKey, row: Row) -> Result<bool, Memory>
        requires { fits key row ≡ true }
        ensures value { IfOk result (λ had. had ≡ is_some (map.get self.old key)) }
        ensures rows { OnOk result (self.new ≡ map.insert self.old key row) }
    {
        if self.late.has(&key) {
            self.late.put(&key, row)?;
            return Ok(true);
        }
        let behind = self.is_behind(&key);
        if has_to_wait(&self.tables, &key, behind) {
            self.late.put(&key, row)?;
            return Ok(false);
        }
        self.last[kind_of(&key)] = self.last_with(&key, behind);
        let was = self.tables.put(key, row)?;
        Ok(was.is_some())
    }

    /// The rows, the late ones among the others.
    pub(crate) fn into_rows(self, alloc: Global) -> Result<UnpagedRows, Memory>
        ensures { IfOk result (λ rows. rows ≡ self) }
    {
        let tables = joined(alloc, self.tables, self.late.into_list())?;
        Ok(UnpagedRows::of(tables))
    }
}
