//! Where a transaction's changes go.
ghost use Rattle.std.specs.Prelude.{◌≡◌, ⊤, None, Some, true};
ghost use Rattle.tpcc_rows.specs.RowKinds.{fits};
ghost use Rattle.tpcc_rows.specs.RowMap.{Changes, Rows};
ghost use Rattle.worker_rows.specs.Writers.{HasRowsAfter, IsWritten, KeepsPoints};

use row_store::PointedStore;
use row_tables::table_row::TableRow;
use tpcc_rows::delta::Delta;
use tpcc_rows::key::RowKey;
use tpcc_rows::memory::Memory;

/// What changes are written to: a delta, or the rows of a store in their places. After a refusal some of the changes may have been
/// made.
pub trait RowWriter {
    // It stands for the changes, made to these rows.
    ghost Stands: { Rows → Changes → Self → Type 0 };

    // It has what the first had, but for rows.
    ghost Keeps: { Self → Self → Type 0 };

    /// Inserts or replaces the key's row, of whose kind it is.
    fn put<R: TableRow>(&mut self, key: RowKey, row: R) -> Result<(), Memory>
        requires { fits key (R.row_of row) ≡ true }
        ensures made { IsWritten Stands key (Some (R.row_of row)) result self.old self.new }
        ensures kept { (first : Self) → Keeps first self.old → Keeps first self.new };

    /// What `put` does, quicker where the key has no row.
    fn put_new<R: TableRow>(&mut self, key: RowKey, row: R) -> Result<(), Memory>
        requires { fits key (R.row_of row) ≡ true }
        ensures made { IsWritten Stands key (Some (R.row_of row)) result self.old self.new }
        ensures kept { (first : Self) → Keeps first self.old → Keeps first self.new };

    /// Removes the key's row.
    fn remove(&mut self, key: RowKey) -> Result<(), Memory>
        ensures made { IsWritten Stands key None result self.old self.new }
        ensures kept { (first : Self) → Keeps first self.old → Keeps first self.new };
}

impl RowWriter for Delta {
    ghost Stands = { λ _ changes delta. delta ≡ changes };

    ghost Keeps = { λ _ _. ⊤ };

    fn put<R: TableRow>(&mut self, key: RowKey, row: R) -> Result<(), Memory> {
        Delta::put(self, key, row.into_row())
    }

    fn put_new<R: TableRow>(&mut self, key: RowKey, row: R) -> Result<(), Memory> {
        Delta::put(self, key, row.into_row())
    }

    fn remove(&mut self, key: RowKey) -> Result<(), Memory> {
        Delta::remove(self, key)
    }
}

impl RowWriter for PointedStore {
    ghost Stands = { HasRowsAfter };

    ghost Keeps = { KeepsPoints };

    fn put<R: TableRow>(&mut self, key: RowKey, row: R) -> Result<(), Memory> {
        self.put_row(&key, row)
    }

    fn put_new<R: TableRow>(&mut self, key: RowKey, row: R) -> Result<(), Memory> {
        self.put_new_row(&key, row)
    }

    fn remove(&mut self, key: RowKey) -> Result<(), Memory> {
        PointedStore::remove(self, &key)?;
        Ok(())
    }
}
