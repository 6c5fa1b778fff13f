//! Rows that come late.
ghost use Rattle.std.specs.Prelude.{◌≡◌, ◌<◌, ◌++◌, ◌∷◌, [], OnErr, OnOk, is_some, length, true};
ghost use Rattle.std.specs.FinMap as map;
ghost use Rattle.std.specs.List.{list_all};
ghost use Rattle.loader.specs.LateRows.{listed};
ghost use Rattle.tpcc_rows.specs.RowKinds.{fits};

use std::alloc::Global;
use std::collections::BTreeSet;
use std::marker::Model;
use tpcc_rows::key::RowKey;
use tpcc_rows::memory::Memory;
use tpcc_rows::row::Row;

/// A finite map from keys to rows, each row of its key's kind: a list, in which a key's last row counts, and the set of
/// keys. A tree of the rows themselves would be left with half-empty nodes.
#[derive(Drop)]
pub(crate) struct LateRows {
    rows: Vec<(RowKey, Row)>,
    keys: BTreeSet<RowKey>,
}

impl Model for LateRows {
    ghost use Rattle.loader.specs.LateRows.{AreListed, listed};
    ghost use Rattle.tpcc_rows.specs.RowMap.{Rows, rows_code};

    ghost Value = { Rows };

    ghost coded = { rows_code };

    ghost view = { λ s. listed s.rows.items };

    ghost invariant = { λ s. AreListed s.rows.items s.keys };
}

/// Appends a row, for which there is capacity.
fn push(rows: &mut Vec<(RowKey, Row)>, row: (RowKey, Row))
    requires { length rows.old.items < rows.old.cap }
    ensures { rows.new.items ≡ rows.old.items ++ row ∷ [] }
{
    rows.push(row).unwrap();
}

impl LateRows {
    /// No rows.
    pub(crate) fn new(alloc: Global) -> LateRows
        ensures { result ≡ map.empty }
    {
        LateRows {
            rows: Vec::new(alloc),
            keys: BTreeSet::new(alloc),
        }
    }

    /// Whether the key has a row.
    pub(crate) fn has(&self, key: &RowKey) -> bool
        ensures { result ≡ is_some (map.get self.now key.now) }
    {
        self.keys.contains(key)
    }

    /// Puts a row under its key.
    pub(crate) fn put(&mut self, key: &RowKey, row: Row) -> Result<(), Memory>
        requires { fits key.now row ≡ true }
        ensures ok { OnOk result (self.new ≡ map.insert self.old key.now row) }
        ensures err { OnErr result (self.new ≡ self.old) }
    {
        self.rows.reserve(1)?;
        self.keys.insert(*key)?;
        push(&mut self.rows, (*key, row));
        Ok(())
    }

    /// The rows as a list, in which a key's last row counts.
    pub(crate) fn into_list(self) -> Vec<(RowKey, Row)>
        ensures all { listed result.items ≡ self }
        ensures kinds { list_all (λ row. fits row.0 row.1) result.items ≡ true }
    {
        self.rows
    }
}
